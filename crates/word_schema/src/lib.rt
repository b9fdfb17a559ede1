//! The words of a command line as data: a command's schema, one walk of words by it, and the flat list of values that the walk gives.
//!
//! A schema has a command's name, its operands and its options. The operands stand first behind the command's name, each one a word,
//! and as many as the schema has. Behind them stand options, in any order and each at most once: a flag is its name alone, any other
//! option is its name and, as the next word, its value. An option that isn't there has its default; one without a default must be
//! there. Of two options that exclude each other at most one may be there, and an option that needs another may be there only with it.
//!
//! | a word is | where it says |
//! |---|---|
//! | a byte | its two hexadecimal digits, of which letters are lower-case |
//! | a number from a least to a most | its decimal digits, with no sign and no zero in front, except for `0` alone |
//! | a word of a set | one of its words |
//!
//! `read_values` gives a value for each operand and then for each option, in the schema's order, exactly where the words are some of
//! this command. A record takes its values out of the list by position, and tests nothing: the laws say that they fit their rows. They
//! say too that the order of options doesn't matter, and that the words that are written of values are read as these values again.
//! Nothing in this crate names a command, so that a new option is a row of its command's schema.
#![tactic(auto)]

mod given;
pub mod laws;
mod numbers;
mod schema;
mod single;
mod taking;
mod value;
mod walk;

pub use schema::{CommandSchema, Exclusive, Form, Kind, Need, OperandSchema, OptionSchema};
pub use value::{Value, Values};
pub use walk::read_values;
