//! Sources of bytes, sinks for bytes, and shelves of named bytes, each of which counts its faults.
#![tactic(auto)]

mod fault;
mod fault_plan;
mod file_shelf;
mod mem_shelf;
mod mem_sink;
mod mem_source;
mod shelf;
mod sink;
mod source;
mod std_sink;
mod std_source;

pub use fault::Failed;
pub use file_shelf::FileShelf;
pub use mem_shelf::MemShelf;
pub use mem_sink::MemSink;
pub use mem_source::MemSource;
pub use shelf::{Fetched, Shelf, ShelfFault};
pub use sink::{Sink, write_all};
pub use source::{InFault, Source, read_all};
pub use std_sink::StdSink;
pub use std_source::StdSource;
