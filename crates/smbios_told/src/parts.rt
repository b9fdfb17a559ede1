ghost use Rattle.std.specs.Prelude.{◌≡◌, IfOk};
ghost use Rattle.smbios_model.specs.ToldParts.{all_told, socket_told, dimm_told, range_told, slot_told};
ghost use Rattle.smbios_model.specs.ToldParts.{oem_strings_in, the_system_in, the_firmware_in, the_chassis_in};
ghost use Rattle.smbios_told.specs.Parts.{parts_in};

use crate::oem_strings::oem_strings_in;
use crate::system::the_system_in;
use crate::told::{all_told, first_told};
use machine_desc::{Chassis, Dimm, Firmware, MemRange, Slot, Socket, System};
use smbios_model::Structure;
use std::alloc::Global;
use vt_outside::{List, OutOfMemory, Text};

/// The parts of a machine of which structures tell.
#[derive(Debug, Drop)]
pub struct SmbiosParts {
    /// Texts of its maker.
    pub oem_strings: List<Text>,
    /// The machine as a product, with empty texts where none is told.
    pub system: System,
    /// Its firmware, where it is told.
    pub firmware: Option<Firmware>,
    /// What it is housed in, where that is told.
    pub chassis: Option<Chassis>,
    /// Its sockets.
    pub sockets: List<Socket>,
    /// Its memory modules.
    pub dimms: List<Dimm>,
    /// The ranges in which memory stands, each on node 0, since no structure tells the node.
    pub ranges: List<MemRange>,
    /// Its slots.
    pub slots: List<Slot>,
}

/// Returns the parts that `structures` tell: of those that a machine has once the first, of the others all, in order. A structure that is
/// raw tells none. A number that doesn't fit its key is 0. Lists take their memory from `alloc`, and each copy of a text from that text's
/// allocator. Returns `OutOfMemory` when memory runs out.
pub fn parts_in(alloc: Global, structures: &[Structure]) -> Result<SmbiosParts, OutOfMemory>
    ensures { IfOk result (λ parts. parts ≡ parts_in structures.now) }
{
    // The product comes last, since the proof grows steeply with the texts that are owned at a `?`.
    let board = board_in(alloc, structures)?;
    let memory = memory_in(alloc, structures)?;
    let product = product_in(alloc, structures)?;
    Ok(joined(product, board, memory))
}

// The parts that a machine has once.
#[derive(Drop)]
struct Product {
    system: System,
    firmware: Option<Firmware>,
    chassis: Option<Chassis>,
}

fn product_in(alloc: Global, structures: &[Structure]) -> Result<Product, OutOfMemory>
    ensures system { IfOk result (λ product. product.system ≡ the_system_in structures.now) }
    ensures firmware { IfOk result (λ product. product.firmware ≡ the_firmware_in structures.now) }
    ensures chassis { IfOk result (λ product. product.chassis ≡ the_chassis_in structures.now) }
{
    Ok(Product {
        system: the_system_in(alloc, structures)?,
        firmware: first_told(alloc, structures)?,
        chassis: first_told(alloc, structures)?,
    })
}

// What is fitted into its board, and the texts of its maker.
#[derive(Drop)]
struct Board {
    oem_strings: List<Text>,
    sockets: List<Socket>,
    slots: List<Slot>,
}

fn board_in(alloc: Global, structures: &[Structure]) -> Result<Board, OutOfMemory>
    ensures oem_strings { IfOk result (λ board. board.oem_strings ≡ oem_strings_in structures.now) }
    ensures sockets { IfOk result (λ board. board.sockets ≡ all_told socket_told structures.now) }
    ensures slots { IfOk result (λ board. board.slots ≡ all_told slot_told structures.now) }
{
    Ok(Board {
        oem_strings: oem_strings_in(alloc, structures)?,
        sockets: all_told(alloc, structures)?,
        slots: all_told(alloc, structures)?,
    })
}

// Its memory.
#[derive(Drop)]
struct Memory {
    dimms: List<Dimm>,
    ranges: List<MemRange>,
}

fn memory_in(alloc: Global, structures: &[Structure]) -> Result<Memory, OutOfMemory>
    ensures dimms { IfOk result (λ memory. memory.dimms ≡ all_told dimm_told structures.now) }
    ensures ranges { IfOk result (λ memory. memory.ranges ≡ all_told range_told structures.now) }
{
    Ok(Memory {
        dimms: all_told(alloc, structures)?,
        ranges: all_told(alloc, structures)?,
    })
}

fn joined(product: Product, board: Board, memory: Memory) -> SmbiosParts
    ensures { result ≡ record {
      oem_strings = board.oem_strings;
      system = product.system;
      firmware = product.firmware;
      chassis = product.chassis;
      sockets = board.sockets;
      dimms = memory.dimms;
      ranges = memory.ranges;
      slots = board.slots;
    } }
{
    let Product {
        system,
        firmware,
        chassis,
    } = product;
    let Board {
        oem_strings,
        sockets,
        slots,
    } = board;
    let Memory { dimms, ranges } = memory;
    SmbiosParts {
        oem_strings,
        system,
        firmware,
        chassis,
        sockets,
        dimms,
        ranges,
        slots,
    }
}
