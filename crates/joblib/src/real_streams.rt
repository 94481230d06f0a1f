// The system's streams.
ghost use Rattle.std.specs.Prelude.{◌≡◌, [], ◌<◌};

use jl_streams::{Got, Put, Sink, Source};
use std::io::{Read, Write};

/// Where a reader's bytes come from. It tells nothing of them.
#[derive(Drop)]
pub struct RealSource<R: Read + Drop> {
    reader: R,
    faults: u64,
}

impl<R: Read + Drop> RealSource<R> {
    pub fn new(reader: R) -> RealSource<R>
        ensures { result.faults ≡ 0 }
    {
        RealSource { reader, faults: 0 }
    }
}

impl<R: Read + Drop> Source for RealSource<R> {
    ghost view = { λ s. record { told = ⊥; left = []; faults = s.faults } };

    fn read(&mut self, buf: &mut [u8]) -> Got {
        match self.reader.read(buf) {
            Ok(0) => Got::End,
            Ok(count) => Got::Bytes(count),
            Err(_) => {
                self.faults = self.faults.saturating_add(1);
                Got::Failed
            }
        }
    }
}

/// Where a writer's bytes go, at once. It tells nothing of them.
#[derive(Drop)]
pub struct RealSink<W: Write + Drop> {
    writer: W,
    faults: u64,
}

impl<W: Write + Drop> RealSink<W> {
    pub fn new(writer: W) -> RealSink<W>
        ensures { result.faults ≡ 0 }
    {
        RealSink { writer, faults: 0 }
    }
}

impl<W: Write + Drop> Sink for RealSink<W> {
    ghost view = { λ s. record { told = ⊥; written = []; faults = s.faults } };

    fn write(&mut self, bytes: &[u8]) -> Put {
        if let Ok(count) = self.writer.write(bytes) {
            if count > 0 || bytes.is_empty() {
                return Put::Took(count);
            }
        }
        self.faults = self.faults.saturating_add(1);
        Put::Failed
    }
}
