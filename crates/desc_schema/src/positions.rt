ghost use Rattle.std.specs.Prelude.{◌≡◌, replicate, IfOk};
ghost use Rattle.desc_schema.specs.Walk.{next_position, position, advanced};

use std::alloc::Global;
use vt_outside::{List, OutOfMemory};

/// Returns the positions before a document: 0 for each of `tables` tables.
pub(crate) fn first_positions(alloc: Global, tables: usize) -> Result<List<u32>, OutOfMemory>
    ensures { IfOk result (λ positions. positions ≡ replicate tables 0) }
{
    let mut positions = List::new(alloc);
    while positions.len() < tables {
        positions.push(0)?;
    }
    Ok(positions)
}

/// Returns the position of the next element of the table of this number, and counts the element. A table that `positions` doesn't
/// have isn't counted, and its position is 0.
pub(crate) fn take_position(positions: &mut List<u32>, table: u8) -> u32
    ensures given { result ≡ position table positions.old }
    ensures left { positions.new ≡ advanced table positions.old }
{
    let place = table as usize;
    if place < positions.len() {
        let index = *positions.get(place);
        positions.set(place, next_position(index));
        index
    } else {
        0
    }
}

fn next_position(position: u32) -> u32
    ensures { result ≡ next_position position }
{
    if position < u32::MAX {
        position + 1
    } else {
        position
    }
}
