//! The resource descriptors of ACPI (ACPI 6.5, 6.4), by which a device's `_CRS` tells its ports, its interrupts, its memory and the windows
//! that it hands on: records that stand in bytes by rows, and the resource template that they make up.
//!
//! The contract is that a template has the bytes of its items, one after the other, and the End Tag. The laws say that no item, and no
//! template, is the front of another, and that bytes are at most one list of items.
#![tactic(auto)]

mod address_space;
mod fixed_memory;
mod io_port;
mod irq_mask;
pub mod laws;
mod resource_item;
mod template;

pub use address_space::{DwordSpace, QwordSpace, WordSpace};
pub use fixed_memory::FixedMemory;
pub use io_port::IoPort;
pub use irq_mask::IrqMask;
pub use resource_item::ResourceItem;
pub use template::resource_template;
