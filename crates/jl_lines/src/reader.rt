// Reads lines.
ghost use Rattle.std.specs.Prelude.{◌≡◌, ◌+◌, ◌<◌, ◌≤◌, ◌++◌, [], true, false, Some, length, nat_lt, ◌||◌, position, MatchOption, MatchResult};
ghost use Rattle.jl_text.specs.declared.limits.TheConstants.{MOST_INPUT_BYTES};
ghost use Rattle.jl_streams.specs.Views.{SourceAnswers};
ghost use Rattle.jl_lines.specs.Lines.{has_newline, is_newline};
ghost use Rattle.jl_lines.specs.Readers.{IsReader};
ghost use Rattle.jl_lines.specs.Steps.{NextStep, TakesLine, KnowsEnd, LooksOver, Gets, EndsAt, Advances, Settles, is_over, waiting};

use crate::block::Block;
use jl_streams::{Got, Source};
use jl_text::Bytes;
use jl_text::limits::MOST_INPUT_BYTES;
use std::alloc::{AllocError, Global};
use std::marker::Model;
use std::mem;

/// The answer of `LineReader::next`. Lines count from 1.
#[derive(Debug, Drop)]
pub enum NextLine {
    /// A line without its newline.
    Line { no: u64, bytes: Bytes },
    /// The source has ended, and every byte of it stands in a line that was answered. It isn't read
    /// again, and each later answer is the same.
    End,
    /// A line that is longer, with its newline, than the limit. The reader stands behind it.
    TooLong { no: u64 },
    /// So many bytes were taken as a reader takes at most, and the source goes on.
    TooMuch,
    /// A read failed.
    ReadFault,
    NoMemory,
}

/// Reads the lines of a source, in whatever pieces its bytes come.
#[derive(Drop)]
pub struct LineReader {
    limit: u64,
    taken: u64,
    lines: u64,
    long: bool,
    ended: bool,
    front: Vec<u8>,
    block: Block,
}

impl Model for LineReader {
    ghost use Rattle.jl_lines.specs.Steps.{ReaderView};
    ghost use Rattle.jl_lines.specs.Readers.{IsReader};

    ghost Value = { ReaderView };

    ghost view = { λ r. record {
      limit = r.limit;
      taken = r.taken;
      lines = r.lines;
      long = r.long;
      ended = r.ended;
      front = r.front.items;
      rest = r.block;
    } };

    ghost invariant = { λ r. IsReader (record {
      limit = r.limit;
      taken = r.taken;
      lines = r.lines;
      long = r.long;
      ended = r.ended;
      front = r.front.items;
      rest = r.block;
    }) };
}

// Where the first newline is.
fn newline_in(bytes: &[u8]) -> Option<usize>
    ensures { result ≡ position is_newline bytes.now }
{
    bytes.iter().position(|b| *b == b'\n')
}

// How many bytes the first line has with its newline, if it ends among these.
fn line_size(bytes: &[u8]) -> Option<usize>
    ensures { MatchOption result (has_newline bytes.now ≡ false) (λ size. EndsAt bytes.now size) }
{
    match newline_in(bytes) {
        Some(count) => Some(count + 1),
        None => None,
    }
}

impl LineReader {
    /// A reader of lines of at most so many bytes, with their newline.
    pub fn new(alloc: Global, limit: u64) -> LineReader
        ensures { result ≡ record {
          limit = limit;
          taken = 0;
          lines = 0;
          long = false;
          ended = false;
          front = [];
          rest = [];
        } }
    {
        LineReader {
            limit,
            taken: 0,
            lines: 0,
            long: false,
            ended: false,
            front: Vec::new(alloc),
            block: Block::new(alloc),
        }
    }

    /// The number of the line that it reads next.
    pub fn number(&self) -> u64
        ensures { result ≡ self.now.lines + 1 }
    {
        self.lines + 1
    }

    /// Whether the end of the source was met. Then no byte waits, and no source is read any more.
    pub fn has_ended(&self) -> bool
        ensures { result ≡ self.now.ended }
    {
        self.ended
    }

    // Whether the line at the front is too long with so many bytes more.
    fn is_over(&self, count: usize) -> bool
        requires { count ≤ length self.now.rest }
        ensures { result ≡ is_over self.now count }
    {
        if self.long {
            return true;
        }
        self.limit < self.front.len() as u64 + count as u64
    }

    // Passes the line at the front, which is too long and ends with so many bytes more.
    fn pass_long(&mut self, size: usize) -> NextLine
        requires going { self.old.ended ≡ false }
        requires ends { EndsAt self.old.rest size }
        requires over { is_over self.old size ≡ true }
        ensures { Settles false self.old self.new result }
    {
        self.lines += 1;
        self.long = false;
        self.front.clear();
        self.block.pass(size);
        NextLine::TooLong { no: self.lines }
    }

    // Takes the line at the front, which ends with so many bytes more.
    fn take_short(&mut self, alloc: Global, size: usize) -> NextLine
        requires going { self.old.ended ≡ false }
        requires ends { EndsAt self.old.rest size }
        requires short { is_over self.old size ≡ false }
        ensures { Settles false self.old self.new result }
    {
        match self.front.extend_from_slice(&self.block.rest()[..size - 1]) {
            Ok(()) => {}
            Err(_) => return NextLine::NoMemory,
        }
        self.lines += 1;
        self.block.pass(size);
        NextLine::Line {
            no: self.lines,
            bytes: Bytes::new(mem::replace(&mut self.front, Vec::new(alloc))),
        }
    }

    // Passes the line at the front, which ends with so many bytes more.
    fn close_line(&mut self, alloc: Global, size: usize) -> NextLine
        requires going { self.old.ended ≡ false }
        requires ends { EndsAt self.old.rest size }
        ensures { Settles false self.old self.new result }
    {
        if self.is_over(size) {
            return self.pass_long(size);
        }
        self.take_short(alloc, size)
    }

    // Looks over the bytes of the line at the front, which doesn't end among them, and keeps them.
    fn look_over(&mut self) -> Result<(), AllocError>
        requires going { self.old.ended ≡ false }
        requires none { has_newline self.old.rest ≡ false }
        ensures { MatchResult result (λ done. LooksOver self.old self.new)
            (λ e. (self.new ≡ self.old) × (is_over self.old (length self.old.rest) ≡ false)) }
    {
        let count = self.block.rest().len();
        if self.is_over(count) {
            self.long = true;
            self.front.clear();
        } else {
            self.front.extend_from_slice(self.block.rest())?;
        }
        self.block.pass(count);
        Ok(())
    }

    // Passes the line at the front, if it ends among the bytes that wait.
    fn take_line(&mut self, alloc: Global) -> Option<NextLine>
        requires { self.old.ended ≡ false }
        ensures { MatchOption result (LooksOver self.old self.new)
            (λ answer. Settles false self.old self.new answer) }
    {
        match line_size(self.block.rest()) {
            Some(size) => Some(self.close_line(alloc, size)),
            None => match self.look_over() {
                Ok(()) => None,
                Err(_) => Some(NextLine::NoMemory),
            },
        }
    }

    // The answer where the source has ended.
    fn last_line(&mut self, alloc: Global) -> NextLine
        requires { self.old.rest ≡ [] }
        ensures { Settles true self.old self.new result }
    {
        self.ended = true;
        if self.long {
            self.long = false;
            self.lines += 1;
            return NextLine::TooLong { no: self.lines };
        }
        if self.front.is_empty() {
            return NextLine::End;
        }
        self.lines += 1;
        NextLine::Line {
            no: self.lines,
            bytes: Bytes::new(mem::replace(&mut self.front, Vec::new(alloc))),
        }
    }

    // Looks whether the source goes on, where no more bytes are taken.
    fn probe<S: Source>(&mut self, alloc: Global, source: &mut S) -> NextLine
        requires going { self.old.ended ≡ false }
        requires rest { self.old.rest ≡ [] }
        requires most { self.old.taken ≡ MOST_INPUT_BYTES }
        requires reader { IsReader self.old }
        ensures step { NextStep self.old self.new (S.view source.old) (S.view source.new) result }
        ensures frame { SourceAnswers (result ≡ NextLine.ReadFault) (S.view source.old)
            (S.view source.new) }
    {
        let mut byte = [0u8; 1];
        match source.read(&mut byte) {
            Got::Bytes(_) => NextLine::TooMuch,
            Got::End => self.last_line(alloc),
            Got::Failed => NextLine::ReadFault,
        }
    }

    // Takes more bytes.
    fn take_bytes<S: Source>(&mut self, alloc: Global, source: &mut S) -> Option<NextLine>
        requires going { self.old.ended ≡ false }
        requires rest { self.old.rest ≡ [] }
        requires room { self.old.taken < MOST_INPUT_BYTES }
        ensures cases { MatchOption result
            (Gets self.old self.new (S.view source.old) (S.view source.new))
            (λ answer. NextStep self.old self.new (S.view source.old) (S.view source.new) answer) }
        ensures frame { SourceAnswers (result ≡ Some NextLine.ReadFault) (S.view source.old)
            (S.view source.new) }
    {
        let most = MOST_INPUT_BYTES - self.taken;
        match self.block.fill(alloc, source, most) {
            Ok(Got::Bytes(_)) => {
                self.taken += self.block.rest().len() as u64;
                None
            }
            Ok(Got::End) => Some(self.last_line(alloc)),
            Ok(Got::Failed) => Some(NextLine::ReadFault),
            Err(_) => Some(NextLine::NoMemory),
        }
    }

    // Takes more bytes, if there may be more.
    fn go_on<S: Source>(&mut self, alloc: Global, source: &mut S) -> Option<NextLine>
        requires going { self.old.ended ≡ false }
        requires rest { self.old.rest ≡ [] }
        ensures cases { MatchOption result
            (Gets self.old self.new (S.view source.old) (S.view source.new))
            (λ answer. NextStep self.old self.new (S.view source.old) (S.view source.new) answer) }
        ensures frame { SourceAnswers (result ≡ Some NextLine.ReadFault) (S.view source.old)
            (S.view source.new) }
    {
        if self.taken == MOST_INPUT_BYTES {
            return Some(self.probe(alloc, source));
        }
        self.take_bytes(alloc, source)
    }

    // Passes the line at the front, or takes more bytes.
    fn advance<S: Source>(&mut self, alloc: Global, source: &mut S) -> Option<NextLine>
        requires { self.old.ended ≡ false }
        ensures cases { MatchOption result
            (Advances self.old self.new (S.view source.old) (S.view source.new))
            (λ answer. NextStep self.old self.new (S.view source.old) (S.view source.new) answer) }
        ensures still { has_newline (waiting self.old) ≡ true → source.new ≡ source.old }
        ensures frame { SourceAnswers (result ≡ Some NextLine.ReadFault) (S.view source.old)
            (S.view source.new) }
    {
        match self.take_line(alloc) {
            Some(answer) => Some(answer),
            None => self.go_on(alloc, source),
        }
    }

    /// The next line. The source is read only where no whole line waits, and no more once its end
    /// was met.
    pub fn next<S: Source>(&mut self, alloc: Global, source: &mut S) -> NextLine
        ensures step { NextStep self.old self.new (S.view source.old) (S.view source.new) result }
        ensures lines { (S.view source.old).told
            → KnowsEnd self.old (S.view source.old)
            → TakesLine self.old result (waiting self.old ++ (S.view source.old).left)
            (waiting self.new ++ (S.view source.new).left) }
        ensures still { has_newline (waiting self.old) ≡ true → source.new ≡ source.old }
        ensures over { self.old.ended ≡ true
            → (result ≡ NextLine.End) × (self.new ≡ self.old) × (source.new ≡ source.old) }
        ensures frame { SourceAnswers (result ≡ NextLine.ReadFault) (S.view source.old)
            (S.view source.new) }
    {
        if self.ended {
            return NextLine::End;
        }
        'reads: loop {
            if let Some(answer) = self.advance(alloc, source) {
                return answer;
            }
        }
    }
}
