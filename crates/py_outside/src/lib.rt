//! Bytes from outside and to it: sources and sinks, whose faults are counted, sources read to their end, and bytes written whole.
#![tactic(auto)]

mod reading;
mod sink;
mod sink_memory;
mod source;
mod source_memory;
mod std_sink;
mod std_source;
mod writing;

pub use reading::{LIMIT, ReadError, read_bytes};
pub use sink::{Sink, WriteFailed};
pub use sink_memory::SinkMemory;
pub use source::{ReadFailed, Source};
pub use source_memory::SourceMemory;
pub use std_sink::StdSink;
pub use std_source::StdSource;
pub use writing::write_bytes;
