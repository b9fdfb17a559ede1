//! The commands of the program, and the words of a command line that are each of them.
//!
//! The first word names a command. What may stand behind it is said by the command's row: `commands` has a row for each command, and
//! the row has one for each option, with its values, its default and its help (`word_schema`). `read_words` reads words by these rows,
//! and gives the command exactly where the words are one. So an option is a row, and a place in the record that takes its value.
//! The order of options doesn't matter, which a law says of all commands at once, and no option is given twice.
#![tactic(auto)]

mod command;
pub mod laws;
mod policy;
mod rows;
mod setting;

pub use command::{Command, LoadOptions, Sought, read_words};
pub use rows::commands;
pub use setting::Setting;
