ghost use Rattle.std.specs.Prelude.{◌≡◌, ◌+◌, ◌-◌, ◌≤◌, true, Some, IfOk};
ghost use Rattle.vt_bytes.specs.View.{bytes_in};
ghost use Rattle.acpi_decode.specs.Seen.{is_ram};

use crate::view::MemView;
use std::alloc::Global;
use vt_outside::{Bytes, OutOfMemory};

// How many bytes are copied at a time.
const PART_SIZE: u32 = 4096;

/// Copies the bytes of the table at `table` from the offset `from` up to the offset `end`. All of its bytes up to there must be RAM. The
/// copy's memory is taken from `alloc` once, at its size.
pub(crate) fn read_block<V: MemView>(
    alloc: Global,
    view: &V,
    table: u64,
    from: u32,
    end: u32,
) -> Result<Bytes, OutOfMemory>
    requires within { from ≤ end }
    requires ram { is_ram (V.seen view.now) table end ≡ true }
    ensures { IfOk result (λ bytes. bytes_in (V.seen view.now) (table + from) (end - from) ≡ Some bytes) }
{
    let mut bytes = Bytes::with_room(alloc, (end - from) as usize)?;
    let mut part = [0; PART_SIZE as usize];
    let mut place = from;
    while place < end {
        let size = PART_SIZE.min(end - place);
        view.copy_out(table + u64::from(place), &mut part[..size as usize]);
        bytes.extend(&part[..size as usize])?;
        place += size;
    }
    Ok(bytes)
}
