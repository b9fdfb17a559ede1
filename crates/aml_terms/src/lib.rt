//! The terms of AML that describe devices, and the grammar that bytes spell them by (ACPI 6.5, 20.2): names, scopes and devices, with
//! integers, texts, buffers and packages as values.
//!
//! Definitions speak of a term as a plain tree (`Trees.view`), since a term holds its terms in boxes and lists. `Grammar.Aml` relates
//! terms to each of their spellings, `Written` has the one that is written, and `Reading.read_terms` is what a reader gives for any bytes:
//! their terms, or the first fault. The laws say that these three agree.
#![tactic(auto)]

mod equal;
mod fault;
pub mod laws;
mod one_segment;
mod opcode;
mod term;

pub use equal::{are_all_equal, are_equal};
pub use fault::AmlFault;
pub use opcode::Opcode;
pub use term::{Path, Term};
