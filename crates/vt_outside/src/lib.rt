//! What stands between the project and the outside: where bytes come from and go to, want of memory, lines for a person,
//! and the small types that contracts see as lists. The zones of memory, and what a lawful placement is, are defined here too,
//! below all that places files, and so are readings: what a definition makes of bytes, part by part, and what a call answers by it.
//!
//! The contracts are exact: which bytes a source in memory gives and a sink in memory takes, in order, which call fails, and that each fault is
//! counted; of a stream over std the same, where its reader or writer tells its bytes.
#![tactic(auto)]

mod boxed;
mod bytes;
mod fault;
mod line;
mod line_counter;
mod list;
mod listed;
mod memory_sink;
mod memory_source;
mod name;
mod std_stream;
mod stream;
mod text;
mod writing;

pub use boxed::Boxed;
pub use bytes::Bytes;
pub use fault::{Failed, OutOfMemory};
pub use line::{Line, numbered_line, words};
pub use line_counter::LineCounter;
pub use list::List;
pub use listed::is_listed;
pub use memory_sink::{ListSink, SureSink};
pub use memory_source::{ListSource, SureSource};
pub use name::{Name, NameFault, are_printable};
pub use std_stream::{ReadSource, WriteSink};
pub use stream::{Sink, Source};
pub use text::Text;
pub use writing::write_all;
