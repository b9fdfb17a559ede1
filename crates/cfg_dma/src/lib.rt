//! A fw_cfg device: its items, its selector and data registers, and its DMA engine (QEMU, docs/specs/fw_cfg).
//!
//! The guest selects an item and reads its bytes one by one, or it writes the address of a descriptor, and the device then moves
//! bytes between the item and the guest's memory. A transfer is moved in pieces of any sizes, so that other processors may act
//! between them; what each call changes, of the device and of memory, is one function of both as they were. No call but `begin`
//! takes memory.
#![tactic(auto)]

mod descriptor;
mod device;
mod dma;
pub mod laws;
mod moving;
mod registers;
mod transfer;

pub use device::Device;
pub use transfer::{Finished, Kind};
