// A host in memory.
ghost use Rattle.std.specs.Prelude.{◌≡◌, ◌^◌, ◌≤◌, All};

use crate::host::Host;
use jl_text::Token;
use std::marker::Model;

/// A host that tells the moments it was made with, and then the last of them again and again.
#[derive(Drop)]
pub struct MemHost {
    times: Vec<u64>,
    at: usize,
    processors: u32,
    token: Token,
}

impl Model for MemHost {
    ghost use Rattle.std.specs.Prelude.{◌≤◌, ◌^◌, drop, length, All, IsTrue};
    ghost use Rattle.jl_text.specs.Texts.{is_token};
    ghost use Rattle.jl_streams.specs.Memory.{MemHostView};

    ghost Value = { MemHostView };

    ghost view = { λ h.
        record { moments = drop h.at h.times.items; processors = h.processors; token = h.token } };

    ghost invariant = { λ h. (h.at ≤ length h.times.items) × All (λ t. t ≤ 2 ^ 62) h.times.items
        × (1 ≤ h.processors) × (h.processors ≤ 1024) };
}

impl MemHost {
    /// Microseconds since 1970 began, by UTC.
    pub fn new(times: Vec<u64>, processors: u32, token: Token) -> MemHost
        requires times { All (λ t. t ≤ 2 ^ 62) times.items }
        requires least { 1 ≤ processors }
        requires most { processors ≤ 1024 }
        ensures { result
            ≡ record { moments = times.items; processors = processors; token = token } }
    {
        MemHost {
            times,
            at: 0,
            processors,
            token,
        }
    }

    /// The moments that are left.
    pub fn moments(&self) -> &[u64]
        ensures { result.now ≡ self.now.moments }
    {
        &self.times.as_slice()[self.at..]
    }
}

impl Host for MemHost {
    ghost use Rattle.jl_streams.specs.Memory.{host_view};

    ghost view = { λ h. host_view h };

    fn now(&mut self) -> u64 {
        let left = &self.times.as_slice()[self.at..];
        let Some(first) = left.first() else {
            return 0;
        };
        let first = *first;
        if left.len() > 1 {
            self.at += 1;
        }
        first
    }

    fn processors(&self) -> u32 {
        self.processors
    }

    fn token(&self) -> &Token {
        // Its text tells its form.
        let _text = self.token.as_str();
        &self.token
    }
}
