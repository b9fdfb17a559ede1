ghost use Rattle.std.specs.Prelude.{◌≡◌, ◌≤◌, ◌<◌, ◌^◌, OnOk, OnErr};
ghost use Rattle.loader_script.specs.Run.{pointer_sum, with_pointer, with_sum};
ghost use Rattle.loader_script.specs.Refusal.{AreDistinct};
ghost use Rattle.guest_memory.specs.Touched.{TouchesOnly};
ghost use Rattle.command_acts.specs.Touching.{IsInOne};
ghost use Rattle.command_acts.specs.Placing.{ArePlacements};
ghost use Rattle.command_acts.specs.FilesInMemory.{files_in, placed_ranges, ArePlaced, Stays, CanPoint, CanSum, pointed, summed};

use crate::placements::Placements;
use guest_memory::{GuestMemory, TooFar};
use vt_outside::Name;

/// Carries out an AddPointer: adds the guest address at which the file `src` stands to the little-endian number in the `size` bytes
/// at `offset` in the file `dest`. The placed files stand in RAM and apart, both files are among them, `size` is 1, 2, 4 or 8,
/// and these bytes lie in `dest`. Each other byte of memory stays. It takes no memory.
///
/// Returns `TooFar` where the sum doesn't fit in `size` bytes; then no byte changes. No other frames are touched than those of placed
/// files.
pub fn add_pointer(
    memory: &mut GuestMemory,
    placements: &Placements,
    dest: &Name,
    src: &Name,
    offset: u32,
    size: u8,
) -> Result<(), TooFar>
    requires are { ArePlacements placements.now }
    requires distinct { AreDistinct placements.now.infos.items }
    requires placed { ArePlaced memory.old.memory.top placements.now.placed.items }
    requires lawful { CanPoint (files_in memory.old.memory placements.now.placed.items) dest.now src.now offset size }
    ensures fits { OnOk result (pointer_sum (files_in memory.old.memory placements.now.placed.items) dest.now src.now offset size < 256 ^ size) }
    ensures after { OnOk result (files_in memory.new.memory placements.now.placed.items
        ≡ with_pointer dest.now src.now offset size (files_in memory.old.memory placements.now.placed.items)) }
    ensures stays { OnOk result (Stays memory.old.memory memory.new.memory placements.now.placed.items placements.now.placed.items) }
    ensures far { OnErr result (256 ^ size ≤ pointer_sum (files_in memory.old.memory placements.now.placed.items) dest.now src.now offset size) }
    ensures same { OnErr result (memory.new.memory ≡ memory.old.memory) }
    ensures exact { OnOk result (memory.new.memory ≡ pointed memory.old.memory placements.now.placed.items dest.now src.now offset size) }
    ensures touches { TouchesOnly (IsInOne (placed_ranges placements.now.placed.items)) memory.old.memory.top memory.old.touched memory.new.touched }
{
    let field = placements.place_of(dest) + u64::from(offset);
    let amount = placements.place_of(src);
    memory.patch_add(field, size, amount)
}

/// Carries out an AddChecksum: subtracts the sum of the `length` bytes at `start` in the file `name`, modulo 256, from the byte at
/// `offset` in it. The placed files stand in RAM and apart, the file is among them, and the byte and the range lie in it. Where
/// the byte lies in the range, the range then sums to zero. Each other byte of memory stays, and no other frames are touched than those
/// of placed files. It takes no memory.
pub fn add_checksum(
    memory: &mut GuestMemory,
    placements: &Placements,
    name: &Name,
    offset: u32,
    start: u32,
    length: u32,
)
    requires are { ArePlacements placements.now }
    requires distinct { AreDistinct placements.now.infos.items }
    requires placed { ArePlaced memory.old.memory.top placements.now.placed.items }
    requires lawful { CanSum (files_in memory.old.memory placements.now.placed.items) name.now offset start length }
    ensures after { files_in memory.new.memory placements.now.placed.items
        ≡ with_sum name.now offset start length (files_in memory.old.memory placements.now.placed.items) }
    ensures stays { Stays memory.old.memory memory.new.memory placements.now.placed.items placements.now.placed.items }
    ensures exact { memory.new.memory ≡ summed memory.old.memory placements.now.placed.items name.now offset start length }
    ensures touches { TouchesOnly (IsInOne (placed_ranges placements.now.placed.items)) memory.old.memory.top memory.old.touched memory.new.touched }
{
    let place = placements.place_of(name);
    let field = place + u64::from(offset);
    let range = place + u64::from(start);
    let byte = memory.read(field);
    let sum = memory.sum_range(range, length);
    memory.write(field, byte.wrapping_sub(sum));
}
