// Where bytes go.
ghost use Rattle.std.specs.Prelude.{◌≡◌, length};
ghost use Rattle.jl_streams.specs.Streams.{TakesSome, PutsPiece, WritesAll};
ghost use Rattle.jl_streams.specs.Views.{SinkView, SinkAnswers};

/// What a write took.
#[derive(Clone, Copy, Debug, PartialEq, Eq)]
pub enum Put {
    /// So many bytes, from the front of the piece.
    Took(usize),
    /// The write failed: a prefix of the piece may have been written.
    Failed,
}

/// A stream of bytes to write.
pub trait Sink {
    /// What contracts see.
    ghost view: { Self → SinkView };

    /// Writes bytes from the front of a piece.
    fn write(&mut self, bytes: &[u8]) -> Put
        ensures some { TakesSome (length bytes.now) result }
        ensures bytes { (view self.old).told
            → PutsPiece result bytes.now (view self.old).written (view self.new).written }
        ensures frame { SinkAnswers (result ≡ Put.Failed) (view self.old) (view self.new) };
}

/// How the writing of all bytes ended.
#[derive(Clone, Copy, Debug, PartialEq, Eq)]
pub enum WroteAll {
    /// All bytes were written.
    Done,
    /// A write failed, and a prefix was written.
    Fault,
}

/// Writes all bytes, each time those that are still to be written. Takes no memory.
pub fn write_all<O: Sink>(sink: &mut O, bytes: &[u8]) -> WroteAll
    ensures bytes { (O.view sink.old).told
        → WritesAll result bytes.now (O.view sink.old).written (O.view sink.new).written }
    ensures frame { SinkAnswers (result ≡ WroteAll.Fault) (O.view sink.old) (O.view sink.new) }
{
    let mut at = 0;
    while at < bytes.len() {
        match sink.write(&bytes[at..]) {
            Put::Took(k) => at += k,
            Put::Failed => return WroteAll::Fault,
        }
    }
    WroteAll::Done
}
