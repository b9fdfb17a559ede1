//! Reads the description of a machine, a TOML document (TOML 1.1), and says of other bytes which fault they have. Prints the description
//! of a machine.
//!
//! The keys are a schema: for each table its keys in order, each with its number, its kind, its limits and its default. A key that is
//! added is a row there, and its field where the machine is made of the values. The reader takes the bytes as UTF-8, then as a
//! document, walks the document by the schema, makes the machine of the values, and checks its rules; the first of these that fails is
//! the fault.
//!
//! The contract is exact: what bytes are read as is a function of the bytes, want of memory aside, and so is the line that tells
//! a fault. The laws say that a machine is read exactly where the document's tables say, key by key, the values that it is made of,
//! that at most one is read from given bytes, and that it keeps every rule.
//!
//! The printer goes the other way: it puts the values of an accepted machine in the schema's order, writes the document of these values,
//! and prints it. Its contract is exact too: the document is a function of the machine, and what is printed is read as the same machine.
#![tactic(auto)]

mod fault;
pub mod laws;
mod line;
mod machine;
mod parts;
mod printing;
mod read;
mod schema;
mod values;

pub use fault::DescFault;
pub use printing::{table_of, write_machine};
pub use read::read_machine;
