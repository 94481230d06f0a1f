//! Streams of bytes and the host: what programs read, write and ask, and forms of these in memory.
#![tactic(auto)]

mod calls;
mod host;
mod mem_host;
mod mem_sink;
mod mem_source;
mod sink;
mod source;

pub use host::Host;
pub use mem_host::MemHost;
pub use mem_sink::MemSink;
pub use mem_source::MemSource;
pub use sink::{Put, Sink, WroteAll, write_all};
pub use source::{Got, Source};
