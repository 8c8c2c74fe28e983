//! Where bytes come from and where they go: a source is read to its end, a sink is written whole.
#![tactic(auto)]

mod calls;
mod fault;
mod memory_sink;
mod memory_source;
mod sink;
mod source;
mod standard;
mod whole;

pub use fault::{Failed, ReadAllFault, SinkFault};
pub use memory_sink::MemorySink;
pub use memory_source::MemorySource;
pub use sink::Sink;
pub use source::Source;
pub use standard::{StdSink, StdSource};
pub use whole::{read_all, write_all};
