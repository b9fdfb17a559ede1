//! Resource items read of bytes (ACPI 6.5, 6.4): those that stand at the front of a template, one after the other, up to the first that is of
//! another form.
//!
//! The contract of [`items_in`] is exact for any bytes. The laws say that the items of a template are those that it was made of, and that
//! what is read stands there as it would be written.
#![tactic(auto)]

mod items;
pub mod laws;

pub use items::items_in;
