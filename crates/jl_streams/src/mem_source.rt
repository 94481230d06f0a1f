// A source in memory.
ghost use Rattle.std.specs.Prelude.{◌≡◌, ◌<◌, ◌≤◌, ◌++◌, true, false, length, take, drop, min};
ghost use Rattle.jl_text.specs.Counts.{Faults};
ghost use Rattle.jl_streams.specs.Streams.{GivesSome, Reads};
ghost use Rattle.jl_streams.specs.Memory.{is_to_fail, share, FailsRead, GivesFront};

use crate::calls::Calls;
use crate::source::{Got, Source};
use jl_text::Bytes;
use std::marker::Model;

/// A source that gives the bytes it was made with.
#[derive(Drop)]
pub struct MemSource {
    bytes: Bytes,
    at: usize,
    piece: usize,
    calls: Calls,
}

impl Model for MemSource {
    ghost use Rattle.std.specs.Prelude.{◌≤◌, drop, length};
    ghost use Rattle.jl_streams.specs.Memory.{MemSourceView};

    ghost Value = { MemSourceView };

    ghost view = { λ s. record { left = drop s.at s.bytes; piece = s.piece; calls = s.calls } };

    ghost invariant = { λ s. (s.at ≤ length s.bytes) × (1 ≤ s.piece) };
}

// Copies k bytes to the front of the buffer.
fn copy_front(bytes: &[u8], buf: &mut [u8], k: usize)
    requires there { k ≤ length bytes.now }
    requires room { k ≤ length buf.old }
    ensures { buf.new ≡ take k bytes.now ++ drop k buf.old }
{
    buf[..k].copy_from_slice(&bytes[..k]);
}

fn least(a: usize, b: usize) -> usize
    ensures { result ≡ min a b }
{
    if a < b { a } else { b }
}

impl MemSource {
    /// A read gives at most `piece` bytes, and the reads of these numbers fail, counted from 0.
    pub fn new(bytes: Bytes, piece: usize, failing: Vec<u64>) -> MemSource
        requires { 1 ≤ piece }
        ensures { result ≡ record {
          left = bytes;
          piece = piece;
          calls =
              record { failing = failing.items; made = 0; faults = 0 };
        } }
    {
        MemSource {
            bytes,
            at: 0,
            piece,
            calls: Calls::new(failing),
        }
    }

    /// The bytes that are left.
    pub fn left(&self) -> &[u8]
        ensures { result.now ≡ self.now.left }
    {
        &self.bytes.as_slice()[self.at..]
    }

    /// How many reads failed.
    pub fn faults(&self) -> u64
        ensures { result ≡ self.now.calls.faults }
    {
        self.calls.faults()
    }

    // Gives as many bytes as there are, and as the piece and the buffer hold.
    fn give(&mut self, buf: &mut [u8]) -> Got
        ensures failing { is_to_fail self.old.calls ≡ true
            → FailsRead self.old self.new buf.old buf.new result }
        ensures gives { is_to_fail self.old.calls ≡ false
            → GivesFront self.old self.new buf.old buf.new result
            (share self.old (length buf.old)) }
        ensures piece { 1 ≤ self.old.piece }
        ensures faults { Faults self.old.calls.faults self.new.calls.faults (result ≡ Got.Failed) }
    {
        if self.calls.begin() {
            return Got::Failed;
        }
        let left = &self.bytes.as_slice()[self.at..];
        let k = least(self.piece, least(buf.len(), left.len()));
        if k == 0 {
            return Got::End;
        }
        copy_front(left, buf, k);
        self.at += k;
        Got::Bytes(k)
    }
}

impl Source for MemSource {
    ghost use Rattle.jl_streams.specs.Memory.{source_view};
    ghost use Rattle.jl_streams.specs.Views.{SourceAnswers};

    ghost view = { λ s. source_view s };

    fn read(&mut self, buf: &mut [u8]) -> Got
        requires { 0 < length buf.old }
        ensures some { GivesSome (length buf.old) result }
        ensures bytes { Reads result buf.old buf.new self.old.left self.new.left }
        ensures frame { SourceAnswers (result ≡ Got.Failed) (source_view self.old)
            (source_view self.new) }
        ensures failing { is_to_fail self.old.calls ≡ true
            → FailsRead self.old self.new buf.old buf.new result }
        ensures gives { is_to_fail self.old.calls ≡ false
            → GivesFront self.old self.new buf.old buf.new result
            (share self.old (length buf.old)) }
    {
        self.give(buf)
    }
}
