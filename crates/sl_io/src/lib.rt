//! Bytes in and out: what a program reads from and writes to, with a count of what went wrong.
//!
//! A reader or a writer of the outside may fail at any call, and no proof can say when. So each has a count of its faults that never
//! falls, and answers `Failed` only where the count rose in that call. Whoever hands a fault on can then show where it came from: a
//! program that answers 'the input failed' without a fault of the input breaks its contract.
#![tactic(auto)]

pub mod faults;
pub mod mem_sink;
pub mod mem_source;
pub mod planned;
pub mod reader;
pub mod reading;
pub mod sink;
pub mod source;
pub mod writer;
pub mod writing;

pub use faults::{Failed, FaultCount};
pub use mem_sink::MemSink;
pub use mem_source::MemSource;
pub use planned::PlannedFaults;
pub use reader::ReadSource;
pub use reading::fill;
pub use sink::Sink;
pub use source::Source;
pub use writer::WriteSink;
pub use writing::write_all;
