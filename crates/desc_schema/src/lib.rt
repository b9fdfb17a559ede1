//! A description's schema as data, one walk of a TOML document (TOML 1.1) by it, and the flat list of values that the walk gives.
//!
//! A schema has for each table its keys, in order: each key's number and name, the kind of what stands there, and what stands for it
//! where it is left out. It is handed to the walk, so that another version of a description is another schema, and a key that is added
//! is a row of it: nothing in this crate names a key.
//!
//! `walk_document` gives the values in the schema's order, or the first fault. The root is walked first. In a table the least
//! unknown key, by its bytes, is a fault; then come the keys, in order. An inner table stands in its place of the order and is
//! walked there, whole; in an array each element is tested and walked whole before the next. The values are one flat list: an inner
//! table, an array of tables and an array of single values put how many they are, and then their values. A fault tells a key of the
//! schema by its number, of which `key_name` gives the name. The contract is exact: what is given is a function of the document, want
//! of memory aside. A law says which values are given in the words of TOML alone, without places, positions and faults: those that the
//! document's tables say, key by key.
//!
//! What the document has at a key, or in an array, is called a node here, so that a value is always one of those that a walk gives.
//!
//! A record takes its values out of the list by position, and tests nothing: the laws say that they fit their kinds. They say too
//! that the document that is written of values is walked as these values again, so that a description can be printed from its values.
//!
//! `write_document` writes that document: it takes the values out of the list, in the schema's order, and gives the root table. Its
//! contract is exact too, want of memory aside. Laws say how deep the table is at most, and that no date-time in it stops it from being
//! printed.
#![tactic(auto)]

mod fault;
pub mod laws;
mod names;
mod positions;
mod schema;
mod single;
mod taking;
mod value;
mod walk;
mod writing;

pub use fault::{KeyPlace, Place, WalkError, WalkFault};
pub use names::key_name;
pub use schema::{Key, Kind, Otherwise, Scalar, TableSchema};
pub use value::{Value, Values};
pub use walk::walk_document;
pub use writing::write_document;
