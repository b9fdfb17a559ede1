ghost use Rattle.std.specs.Prelude.{◌≡◌, ℕ, ◌+◌, ◌<◌, ◌≤◌, ◌^◌, [], ◌∷◌, ◌++◌, map, length, IfOk, IfSome};
ghost use Rattle.std.specs.List.{AllByRecursion};
ghost use Rattle.vt_outside.specs.Placement.{Apart};
ghost use Rattle.zone_alloc.specs.Places.{IsLeastPlaceFrom, IsGreatestPlace};
ghost use Rattle.zone_alloc.specs.Ranges.{range_of, IsPlaceInOrder};

use crate::alloc::MOST_RANGES;
use crate::searching::{AddressRange, greatest, least_from};
use std::alloc::Global;
use std::marker::Model;
use vt_outside::OutOfMemory;

/// The ranges that were handed out, each apart from the others.
#[derive(Debug, Drop)]
pub(crate) struct HandedRanges {
    // In the order in which they were handed out.
    in_turn: Vec<AddressRange>,
    // The same ranges in the order of their addresses.
    by_address: Vec<AddressRange>,
}

impl Model for HandedRanges {
    ghost use Rattle.std.specs.Prelude.{◌≤◌, map, List, vec_capacity};
    ghost use Rattle.vt_outside.specs.Placement.{Range};
    ghost use Rattle.zone_alloc.specs.Ranges.{range_of, AreKept};

    ghost Value = { List Range };

    ghost view = { λ h. map range_of h.in_turn.items };

    ghost invariant = { λ h. AreKept h.in_turn.items h.by_address.items × (1024 ≤ vec_capacity h.in_turn) × (1024 ≤ vec_capacity h.by_address) };
}

impl HandedRanges {
    /// Makes an empty list with room for [`MOST_RANGES`] ranges.
    pub(crate) fn new(alloc: Global) -> Result<HandedRanges, OutOfMemory>
        ensures { IfOk result (λ handed. handed ≡ []) }
    {
        let in_turn = Vec::with_capacity(alloc, MOST_RANGES)?;
        let by_address = Vec::with_capacity(alloc, MOST_RANGES)?;
        Ok(HandedRanges {
            in_turn,
            by_address,
        })
    }

    /// Hands nothing out any more.
    pub(crate) fn clear(&mut self)
        ensures { self.new ≡ [] }
    {
        self.in_turn.clear();
        self.by_address.clear();
    }

    /// Returns the least multiple of `align` at or above `goal` from which `size` bytes lie in `zone` and apart from these ranges, or
    /// `None` where there is none. `goal` is no lower than the zone, and `align` and `size` are at least 1.
    pub(crate) fn least_from(
        &self,
        goal: u64,
        zone: AddressRange,
        size: u64,
        align: u64,
    ) -> Option<u64>
        requires goal { zone.start ≤ goal }
        requires size { 0 < size }
        requires align { 0 < align }
        ensures least { IsLeastPlaceFrom goal (range_of zone) self.now size align result }
        ensures fits { IfSome result (λ place. place + size < 2 ^ 64) }
    {
        least_from(goal, zone, self.by_address.as_slice(), size, align)
    }

    /// Returns the greatest multiple of `align` from which `size` bytes lie in `zone` and apart from these ranges, or `None` where
    /// there is none. `align` and `size` are at least 1.
    pub(crate) fn greatest(&self, zone: AddressRange, size: u64, align: u64) -> Option<u64>
        requires size { 0 < size }
        requires align { 0 < align }
        ensures greatest { IsGreatestPlace (range_of zone) self.now size align result }
        ensures fits { IfSome result (λ place. place + size < 2 ^ 64) }
    {
        greatest(zone, self.by_address.as_slice(), size, align)
    }

    /// Hands out `range`, which has an address and is apart from the others. Fewer than [`MOST_RANGES`] must be handed out.
    pub(crate) fn push(&mut self, range: AddressRange)
        requires room { length self.old < 1024 }
        requires some { range.start < range.end }
        requires apart { AllByRecursion (Apart (range_of range)) self.old }
        ensures { self.new ≡ self.old ++ range_of range ∷ [] }
    {
        let index = first_behind(self.by_address.as_slice(), range.start);
        let Ok(()) = self.by_address.insert(index, range) else {
            unreachable!();
        };
        self.in_turn.push_reserved(range);
    }
}

// The number of `ranges` before the first one that begins at or above `start`.
fn first_behind(ranges: &[AddressRange], start: u64) -> usize
    ensures { IsPlaceInOrder start ranges.now result }
{
    for (index, range) in ranges.iter().enumerate() {
        if start <= range.start {
            return index;
        }
    }
    ranges.len()
}
