//! Sources of bytes and sinks for bytes, with counts of the faults that they met.
#![tactic(auto)]

mod edges;
mod line_reader;
mod memory_sinks;
mod memory_sources;
mod reading;
mod timetable;
mod whole;
mod writing;

pub use edges::{StdSink, StdSource};
pub use line_reader::{INPUT_LIMIT, LineAns, LineReader};
pub use memory_sinks::{MemSink, SafeSink};
pub use memory_sources::{MemSource, SafeSource};
pub use reading::{ReadAns, Source};
pub use whole::{ROOM, ReadAllErr, WriteAllErr, read_all, write_all};
pub use writing::{Sink, WriteAns};
