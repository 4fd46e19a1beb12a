//! Sources of bytes and sinks for bytes, with counts of their faults.
//!
//! A source may tell the bytes that it has left, and a sink those that were written to it. Each has
//! a count of faults, which never falls, so that a caller can only answer a fault that came.
#![tactic(auto)]

mod memory;
mod reading;
mod sink;
mod source;
mod standard;
mod sure;
mod writing;

pub use memory::{MemSink, MemSource};
pub use reading::{ReadStop, read_all};
pub use sink::{Sink, SinkStop};
pub use source::{Failed, Source};
pub use standard::{StdSink, StdSource};
pub use sure::{SureSink, SureSource};
pub use writing::write_all;

#[cfg(test)]
mod tests;
