//! The machine that is generated of a number of processors, 1 to 4,096: a large description that nobody has to write.
//!
//! It has its processors dealt out to up to four nodes, sockets of 64 processors, a module for each node, two ranges of memory, the
//! distances of the nodes, a bridge with its windows and all 128 routes, an I/O APIC, a serial port, and the defaults of everything
//! else.
//!
//! The contract of `generated_machine` is exact: which machine it is, want of memory aside, is a function of how many processors there
//! are. The law says that each of these machines is accepted, so that all that is promised of an accepted machine holds of it.
#![tactic(auto)]

pub mod laws;
mod machine;
mod parts;

pub use machine::generated_machine;
