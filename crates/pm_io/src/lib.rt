//! Where bytes come from and go: sources and sinks with what contracts see of them, in memory and over std.
#![tactic(auto)]

mod memory;
mod sink;
mod source;
mod standard;

pub use memory::{MemSink, MemSource, SureSource};
pub use sink::{SendFault, Sink, write_all};
pub use source::{Failed, Source, TakeFault, read_all};
pub use standard::{StdSink, StdSource};
