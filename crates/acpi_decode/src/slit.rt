ghost use Rattle.std.specs.Prelude.{◌≡◌, [], true, is_some, IfOk};
ghost use Rattle.acpi_model.specs.SlitKind.{slit_kind, counted_shape, count_at};
ghost use Rattle.acpi_model.specs.declared.acpi.Table.TheVariants.{Slit as SlitVariant};
ghost use Rattle.acpi_decode.specs.Seen.{is_ram, total_at};
ghost use Rattle.acpi_decode.specs.KindTests.{has_room};
ghost use Rattle.acpi_decode.specs.Read.{table_at};

use crate::block::read_block;
use crate::view::MemView;
use acpi_model::{Slit, SlitFront};
use std::alloc::Global;
use vt_bytes::get_le;
use vt_layout::read_plain;
use vt_outside::OutOfMemory;

// How many bytes a SLIT has in front of its distances (ACPI 6.5, 5.2.17).
const SLIT_FRONT_SIZE: u32 = 44;

// The most nodes of a SLIT that is read.
const MOST_NODES: u64 = 1024;

/// Returns the count of nodes that the SLIT at `address` tells, or 0 where the count isn't RAM. Its header must be RAM.
pub(crate) fn count_at<V: MemView>(view: &V, address: u64) -> u64
    requires { is_ram (V.seen view.now) address 36 ≡ true }
    ensures { result ≡ count_at (V.seen view.now) address }
{
    if !view.is_ram_range(address, SLIT_FRONT_SIZE) {
        return 0;
    }
    let mut bytes = [0; SLIT_FRONT_SIZE as usize];
    view.copy_out(address, &mut bytes);
    get_le(&bytes, 36, 8)
}

/// Tells whether a SLIT of `length` bytes has room for the distances of `count` nodes, of which there may be 1,024.
pub(crate) fn is_slit_length(length: u32, count: u64) -> bool
    ensures { result ≡ is_some (counted_shape length count) }
{
    count <= MOST_NODES && u64::from(SLIT_FRONT_SIZE) + count * count <= u64::from(length)
}

/// Reads the SLIT at `address`, which must have the form of one, and be RAM as a whole.
pub(crate) fn read_slit<V: MemView>(
    alloc: Global,
    view: &V,
    address: u64,
) -> Result<Slit, OutOfMemory>
    requires room { has_room slit_kind (V.seen view.now) address ≡ true }
    requires ram { is_ram (V.seen view.now) address (total_at (V.seen view.now) address) ≡ true }
    ensures { IfOk result (λ t. SlitVariant t ≡ table_at slit_kind (V.seen view.now) address []) }
{
    let mut bytes = [0; SLIT_FRONT_SIZE as usize];
    view.copy_out(address, &mut bytes);
    let front: SlitFront = read_plain(alloc, &bytes)?;
    let count = front.count as u32;
    let end = SLIT_FRONT_SIZE + count * count;
    let distances = read_block(alloc, view, address, SLIT_FRONT_SIZE, end)?;
    Ok(Slit::of(front, distances))
}
