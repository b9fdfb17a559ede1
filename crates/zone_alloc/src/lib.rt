//! The zones of memory, and the allocators that give files their places in them.
//!
//! A guest's memory has two zones in which a loader script asks for places (QEMU, hw/acpi/bios-linker-loader.c): high memory and
//! the F segment. `Zones` says which addresses they are. `ZoneAlloc` is what gives places: each is a multiple of the align that
//! was asked for, and the file lies there in its zone and apart from each range that was handed out before. A refusal is counted,
//! and the request that was refused is kept. `ShelfAlloc` gives the place that its `Policy` chooses among those that are free, and
//! refuses only where none is free: the least address, the greatest, or the first one from a goal on, which a seed scatters over the
//! zone. `FailingAlloc` refuses, beside these, the calls that it is told to.
//!
//! At most 1,024 ranges are handed out, for which memory is reserved when an allocator begins; nothing else here takes any. A
//! placement goes once over the ranges that are handed out, in the order of their addresses (twice, where nothing is free from a
//! scatter's goal on), and then puts the new one among them, which goes over them once more and moves those behind it. So it costs
//! steps in proportion to their number, a few thousand at most.
#![tactic(auto)]

mod alloc;
mod chooser;
mod failing;
mod handed;
pub mod laws;
mod policy;
mod searching;
mod shelf;
mod words;
mod zone;
mod zones;

pub use alloc::{MOST_RANGES, NoRoom, Request, ZoneAlloc};
pub use failing::FailingAlloc;
pub use policy::Policy;
pub use shelf::ShelfAlloc;
pub use zone::Zone;
pub use zones::{Zones, zones_of};
