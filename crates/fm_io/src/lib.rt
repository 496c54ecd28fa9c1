//! Bytes that come in and bytes that go out.
//!
//! A `Source` and a `Sink` count their faults, and answer a failure only where the count rose. They
//! may tell the bytes that are left or written: those over memory do, and those over readers and
//! writers of std, the trusted edge, don't.
#![tactic(auto)]

mod count_sink;
mod mem_sink;
mod mem_source;
mod piece;
mod sink;
mod source;
mod std_streams;
mod whole;

pub use count_sink::CountSink;
pub use mem_sink::MemSink;
pub use mem_source::{MemSource, SureSource};
pub use sink::Sink;
pub use source::{Failed, Source};
pub use std_streams::{StdSink, StdSource};
pub use whole::{ReadFail, WriteFail, read_all, write_all};
