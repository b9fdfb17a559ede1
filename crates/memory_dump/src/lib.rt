//! The dump of a guest's memory, a text, both ways: written from a memory, and read as one.
//!
//! Its first line tells the top of RAM and the fill byte. Then comes a line for each 16 bytes of RAM at a multiple of 16 that aren't all
//! the fill byte, in the order of their addresses, and then the line `end`. Digits are hexadecimal, in lower case. A memory has one text,
//! and each text is that of one memory; of a text that is none, the first line at fault is told. The rows that a memory's dump has are
//! counted, and no text is held for it.
#![tactic(auto)]

mod counting;
mod digits;
mod fault;
mod header;
pub mod laws;
mod line;
mod reading;
mod row;
mod writing;

pub use counting::row_count;
pub use fault::DumpFault;
pub use line::whole_lines;
pub use reading::read_dump;
pub use writing::dump_to;
