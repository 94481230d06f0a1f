// Where bytes come from.
ghost use Rattle.std.specs.Prelude.{◌≡◌, ◌<◌, length};
ghost use Rattle.jl_streams.specs.Streams.{GivesSome, Reads};
ghost use Rattle.jl_streams.specs.Views.{SourceView, SourceAnswers};

/// What a read gave.
#[derive(Clone, Copy, Debug, PartialEq, Eq)]
pub enum Got {
    /// So many bytes, at the front of the buffer.
    Bytes(usize),
    /// Nothing is left.
    End,
    /// The read failed: the buffer may hold anything, and no byte is lost.
    Failed,
}

/// A stream of bytes to read.
pub trait Source {
    /// What contracts see.
    ghost view: { Self → SourceView };

    /// Reads some of the bytes that are left into the buffer.
    fn read(&mut self, buf: &mut [u8]) -> Got
        requires { 0 < length buf.old }
        ensures some { GivesSome (length buf.old) result }
        ensures bytes { (view self.old).told
            → Reads result buf.old buf.new (view self.old).left (view self.new).left }
        ensures frame { SourceAnswers (result ≡ Got.Failed) (view self.old) (view self.new) };
}
