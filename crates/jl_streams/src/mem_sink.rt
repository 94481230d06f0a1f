// A sink in memory.
ghost use Rattle.std.specs.Prelude.{◌≡◌, ◌-◌, ◌<◌, [], ◌++◌, true, false, length, take, min, IfOk};
ghost use Rattle.jl_text.specs.Counts.{Faults};
ghost use Rattle.jl_streams.specs.Streams.{TakesSome, PutsPiece};
ghost use Rattle.jl_streams.specs.Memory.{is_to_fail, FailsWrite, FindsNoRoom, TakesFront};

use crate::calls::Calls;
use crate::sink::{Put, Sink};
use std::alloc::{AllocError, Global};
use std::marker::Model;

/// A sink with room for so many bytes, which is made at once.
#[derive(Drop)]
pub struct MemSink {
    bytes: Vec<u8>,
    room: usize,
    calls: Calls,
}

impl Model for MemSink {
    ghost use Rattle.std.specs.Prelude.{◌≤◌, ◌+◌, vec_len, vec_capacity};
    ghost use Rattle.jl_streams.specs.Memory.{MemSinkView};

    ghost Value = { MemSinkView };

    ghost view = { λ s. record { written = s.bytes.items; room = s.room; calls = s.calls } };

    ghost invariant = { λ s. vec_len s.bytes + s.room ≤ vec_capacity s.bytes };
}

impl MemSink {
    /// The writes of these numbers fail, counted from 0.
    pub fn new(alloc: Global, room: usize, failing: Vec<u64>) -> Result<MemSink, AllocError>
        ensures { IfOk result (λ s. s ≡ record {
          written = [];
          room = room;
          calls =
              record { failing = failing.items; made = 0; faults = 0 };
        }) }
    {
        let bytes = Vec::with_capacity(alloc, room)?;
        Ok(MemSink {
            bytes,
            room,
            calls: Calls::new(failing),
        })
    }

    /// The bytes that were written.
    pub fn written(&self) -> &[u8]
        ensures { result.now ≡ self.now.written }
    {
        self.bytes.as_slice()
    }

    /// How many writes failed.
    pub fn faults(&self) -> u64
        ensures { result ≡ self.now.calls.faults }
    {
        self.calls.faults()
    }

    // Puts as many of these bytes as there is room for behind the others. Says how many.
    fn put(&mut self, bytes: &[u8]) -> usize
        ensures count { result ≡ min self.old.room (length bytes.now) }
        ensures after { self.new ≡ record self.old
            { written = self.old.written ++ take result bytes.now; room = self.old.room - result } }
    {
        let k = if self.room < bytes.len() {
            self.room
        } else {
            bytes.len()
        };
        match self.bytes.extend_from_slice(&bytes[..k]) {
            Ok(()) => {}
            Err(_) => unreachable!(),
        }
        self.room -= k;
        k
    }

    // Takes as many bytes as there is room for. Fails where there is none for a piece that isn't
    // empty.
    fn take(&mut self, bytes: &[u8]) -> Put
        ensures failing { is_to_fail self.old.calls ≡ true → FailsWrite self.old self.new result }
        ensures full { is_to_fail self.old.calls ≡ false → self.old.room ≡ 0 → 0 < length bytes.now
            → FindsNoRoom self.old self.new result }
        ensures fits { is_to_fail self.old.calls ≡ false → 0 < self.old.room
            → TakesFront self.old self.new bytes.now result (min self.old.room (length bytes.now)) }
        ensures empty { is_to_fail self.old.calls ≡ false → length bytes.now ≡ 0
            → TakesFront self.old self.new bytes.now result 0 }
        ensures faults { Faults self.old.calls.faults self.new.calls.faults (result ≡ Put.Failed) }
    {
        if self.calls.begin() {
            return Put::Failed;
        }
        if self.room == 0 {
            if !bytes.is_empty() {
                self.calls.fail();
                return Put::Failed;
            }
        }
        Put::Took(self.put(bytes))
    }
}

impl Sink for MemSink {
    ghost use Rattle.jl_streams.specs.Memory.{sink_view};
    ghost use Rattle.jl_streams.specs.Views.{SinkAnswers};

    ghost view = { λ s. sink_view s };

    fn write(&mut self, bytes: &[u8]) -> Put
        ensures some { TakesSome (length bytes.now) result }
        ensures bytes { PutsPiece result bytes.now self.old.written self.new.written }
        ensures frame { SinkAnswers (result ≡ Put.Failed) (sink_view self.old)
            (sink_view self.new) }
        ensures failing { is_to_fail self.old.calls ≡ true → FailsWrite self.old self.new result }
        ensures full { is_to_fail self.old.calls ≡ false → self.old.room ≡ 0 → 0 < length bytes.now
            → FindsNoRoom self.old self.new result }
        ensures fits { is_to_fail self.old.calls ≡ false → 0 < self.old.room
            → TakesFront self.old self.new bytes.now result (min self.old.room (length bytes.now)) }
        ensures empty { is_to_fail self.old.calls ≡ false → length bytes.now ≡ 0
            → TakesFront self.old self.new bytes.now result 0 }
    {
        self.take(bytes)
    }
}
