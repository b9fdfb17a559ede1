ghost use Rattle.std.specs.Prelude.{◌≡◌, ◌+◌, ◌-◌, ◌/◌, ◌≤◌, [], true, is_some, IfOk};
ghost use Rattle.acpi_model.specs.McfgKind.{mcfg_kind, mcfg_shape};
ghost use Rattle.acpi_model.specs.declared.acpi.Table.TheVariants.{Mcfg as McfgVariant};
ghost use Rattle.acpi_decode.specs.Seen.{is_ram, total_at};
ghost use Rattle.acpi_decode.specs.KindTests.{has_room};
ghost use Rattle.acpi_decode.specs.Read.{table_at};
ghost use Rattle.acpi_decode.specs.Allocations.{allocation_at, allocations_at};

use crate::view::MemView;
use acpi_model::{Mcfg, McfgAllocation, McfgFront};
use std::alloc::Global;
use vt_layout::{RecordReader, read_plain};
use vt_outside::{List, OutOfMemory};

// How many bytes an MCFG has in front of its allocations, and an allocation (PCI Firmware Specification 3.3, 4.1.2).
const MCFG_FRONT_SIZE: u32 = 44;

const ALLOCATION_SIZE: u32 = 16;

/// Tells whether an MCFG of `length` bytes is filled by whole allocations behind its front.
pub(crate) fn is_mcfg_length(length: u32) -> bool
    ensures { result ≡ is_some (mcfg_shape length) }
{
    length >= MCFG_FRONT_SIZE && (length - MCFG_FRONT_SIZE) % ALLOCATION_SIZE == 0
}

/// Reads the MCFG at `address`, which has `total` bytes, all of them RAM, and the form of one.
pub(crate) fn read_mcfg<V: MemView>(
    alloc: Global,
    view: &V,
    address: u64,
    total: u32,
) -> Result<Mcfg, OutOfMemory>
    requires told { total ≡ total_at (V.seen view.now) address }
    requires room { has_room mcfg_kind (V.seen view.now) address ≡ true }
    requires ram { is_ram (V.seen view.now) address total ≡ true }
    ensures { IfOk result (λ t. McfgVariant t ≡ table_at mcfg_kind (V.seen view.now) address []) }
{
    let mut bytes = [0; MCFG_FRONT_SIZE as usize];
    view.copy_out(address, &mut bytes);
    let front: McfgFront = read_plain(alloc, &bytes)?;
    let allocations = read_allocations(alloc, view, address, total)?;
    Ok(Mcfg::of(front, allocations))
}

// Reads the allocations that fill the MCFG at `table`, which has `total` bytes, all of them RAM, behind its front. The list's memory is
// taken from `alloc` once, at its size.
fn read_allocations<V: MemView>(
    alloc: Global,
    view: &V,
    table: u64,
    total: u32,
) -> Result<List<McfgAllocation>, OutOfMemory>
    requires within { 44 ≤ total }
    requires ram { is_ram (V.seen view.now) table total ≡ true }
    ensures { IfOk result (λ list. list ≡ allocations_at (V.seen view.now) (table + 44) ((total - 44) / 16)) }
{
    let count = (total - MCFG_FRONT_SIZE) / ALLOCATION_SIZE;
    let mut allocations = List::with_room(alloc, count as usize)?;
    let mut reader = RecordReader::new(alloc)?;
    for index in 0..count {
        let at = table + u64::from(MCFG_FRONT_SIZE + ALLOCATION_SIZE * index);
        allocations.push(read_allocation(view, &mut reader, at)?)?;
    }
    Ok(allocations)
}

// Reads the allocation at the address `at`, whose 16 bytes must be RAM.
fn read_allocation<V: MemView>(
    view: &V,
    reader: &mut RecordReader<McfgAllocation>,
    at: u64,
) -> Result<McfgAllocation, OutOfMemory>
    requires { is_ram (V.seen view.now) at 16 ≡ true }
    ensures { IfOk result (λ a. a ≡ allocation_at (V.seen view.now) at) }
{
    let mut bytes = [0; ALLOCATION_SIZE as usize];
    view.copy_out(at, &mut bytes);
    reader.read_plain(&bytes)
}
