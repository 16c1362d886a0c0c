//! What a run reads from, writes to and passes through.
//!
//! It stands on `lf_base`. A [`Source`] and a [`Sink`] move bytes and count their
//! faults. Here are both in memory and over std's readers and writers, and the two
//! loops that read a source to its end and write a whole text. The promise: the bytes moved
//! are exactly the counted ones, and a call fails only where a count of faults rose. What
//! a reader or a writer of std answers stays outside of what is proved.
#![tactic(auto)]

mod gates;
mod mem_sink;
mod mem_source;
mod read_source;
mod streams;
mod transfer;
mod write_sink;

pub use gates::{Gate, NoGate, Point};
pub use mem_sink::MemSink;
pub use mem_source::MemSource;
pub use read_source::ReadSource;
pub use streams::{Failed, Sink, Source};
pub use transfer::{ReadStop, read_all, write_all, write_parts};
pub use write_sink::WriteSink;
