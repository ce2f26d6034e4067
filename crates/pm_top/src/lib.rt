//! All that the program does: its commands over sources and sinks.
#![tactic(auto)]

mod answer;
mod command;
mod printed;
mod program;
mod shown;
mod status;

pub use pm_io::{
    Failed, MemSink, MemSource, SendFault, Sink, Source, StdSink, StdSource, SureSource, TakeFault,
    read_all, write_all,
};
pub use program::top;
pub use status::Status;
