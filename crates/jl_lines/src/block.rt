// Bytes that were read at once, and are used one part after another.
ghost use Rattle.std.specs.Prelude.{◌≡◌, ◌<◌, ◌≤◌, [], Ok, ◌++◌, length, take, drop, OnOk};
ghost use Rattle.jl_streams.specs.Views.{SourceAnswers};
ghost use Rattle.jl_lines.specs.Blocks.{Fills, FillsFront};

use jl_streams::{Got, Source};
use jl_text::limits::PIECE_BYTES;
use std::alloc::{AllocError, Global};
use std::marker::Model;

#[derive(Drop)]
pub struct Block {
    bytes: Vec<u8>,
    at: usize,
    end: usize,
}

impl Model for Block {
    ghost use Rattle.std.specs.Prelude.{List, ℕ, ◌≤◌, ◌-◌, take, drop, length};

    ghost Value = { List ℕ };

    ghost view = { λ b. take (b.end - b.at) (drop b.at b.bytes.items) };

    ghost invariant = { λ b. (b.at ≤ b.end) × (b.end ≤ length b.bytes.items) };
}

// Reads at most so many bytes to the front of the buffer.
fn read_front<S: Source>(source: &mut S, buf: &mut [u8], most: u64) -> Got
    requires some { 0 < most }
    requires room { 0 < length buf.old }
    ensures front { FillsFront result most buf.new (S.view source.old) (S.view source.new) }
    ensures frame { SourceAnswers (result ≡ Got.Failed) (S.view source.old) (S.view source.new) }
{
    let size = if most < buf.len() as u64 {
        most as usize
    } else {
        buf.len()
    };
    source.read(&mut buf[..size])
}

// Makes the room for reads, at the first one.
fn make_room(alloc: Global, bytes: &mut Vec<u8>) -> Result<(), AllocError>
    ensures { OnOk result (0 < length bytes.new.items) }
{
    if bytes.is_empty() {
        *bytes = vec![in alloc; 0u8; PIECE_BYTES]?;
    }
    Ok(())
}

impl Block {
    pub fn new(alloc: Global) -> Block
        ensures { result ≡ [] }
    {
        Block {
            bytes: Vec::new(alloc),
            at: 0,
            end: 0,
        }
    }

    /// The bytes that are left.
    pub fn rest(&self) -> &[u8]
        ensures { result.now ≡ self.now }
    {
        &self.bytes.as_slice()[self.at..self.end]
    }

    /// Passes over the first bytes.
    pub fn pass(&mut self, count: usize)
        requires { count ≤ length self.old }
        ensures { self.new ≡ drop count self.old }
    {
        self.at += count;
    }

    /// Reads at most so many bytes, where none is left.
    pub fn fill<S: Source>(
        &mut self,
        alloc: Global,
        source: &mut S,
        most: u64,
    ) -> Result<Got, AllocError>
        requires some { 0 < most }
        requires empty { self.old ≡ [] }
        ensures fills { Fills result most self.new (S.view source.old) (S.view source.new) }
        ensures frame { SourceAnswers (result ≡ Ok Got.Failed) (S.view source.old)
            (S.view source.new) }
    {
        self.at = 0;
        self.end = 0;
        make_room(alloc, &mut self.bytes)?;
        let got = read_front(source, self.bytes.as_mut_slice(), most);
        if let Got::Bytes(count) = got {
            self.end = count;
        }
        Ok(got)
    }
}
