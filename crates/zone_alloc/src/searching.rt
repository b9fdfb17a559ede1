ghost use Rattle.std.specs.Prelude.{◌≡◌, true, false, ℕ, ◌+◌, ◌%◌, ◌<◌, ◌≤◌, ◌^◌, map, IfNone, IfSome};
ghost use Rattle.vt_outside.specs.Placement.{Apart};
ghost use Rattle.zone_alloc.specs.Places.{IsLeastPlaceFrom, IsGreatestPlace};
ghost use Rattle.zone_alloc.specs.Ranges.{range_of, Meet, AreInOrder, IsNextPlace, IsLastPlace, HasNoMultiple};

/// A range of addresses. The end isn't in it.
#[derive(Clone, Copy, Debug)]
pub(crate) struct AddressRange {
    pub(crate) start: u64,
    pub(crate) end: u64,
}

impl AddressRange {
    // Whether it has an address in common with the range from `start` to `end`, where each has one.
    fn meets(&self, start: u64, end: u64) -> bool
        ensures met { result ≡ true → Meet (record { start = start; end = end }) (range_of self.now) }
        ensures apart { result ≡ false → Apart (record { start = start; end = end }) (range_of self.now) }
    {
        self.start < end && start < self.end
    }
}

/// Returns the least multiple of `align` at or above `goal` from which `size` bytes lie in `zone` and apart from each of `ranges`,
/// or `None` where there is none. `goal` is no lower than the zone, `ranges` stand in the order of their addresses, and `align` and
/// `size` are at least 1.
pub(crate) fn least_from(
    goal: u64,
    zone: AddressRange,
    ranges: &[AddressRange],
    size: u64,
    align: u64,
) -> Option<u64>
    requires goal { zone.start ≤ goal }
    requires order { AreInOrder ranges.now }
    requires size { 0 < size }
    requires align { 0 < align }
    ensures least { IsLeastPlaceFrom goal (range_of zone) (map range_of ranges.now) size align result }
    ensures fits { IfSome result (λ place. place + size < 2 ^ 64) }
{
    let mut place = next_place(goal, zone.end, size, align)?;
    for range in ranges {
        if range.meets(place, place + size) {
            place = next_place(range.end, zone.end, size, align)?;
        }
    }
    Some(place)
}

/// Returns the greatest multiple of `align` from which `size` bytes lie in `zone` and apart from each of `ranges`, or `None` where
/// there is none. `ranges` stand in the order of their addresses, and `align` and `size` are at least 1.
pub(crate) fn greatest(
    zone: AddressRange,
    ranges: &[AddressRange],
    size: u64,
    align: u64,
) -> Option<u64>
    requires order { AreInOrder ranges.now }
    requires size { 0 < size }
    requires align { 0 < align }
    ensures greatest { IsGreatestPlace (range_of zone) (map range_of ranges.now) size align result }
    ensures fits { IfSome result (λ place. place + size < 2 ^ 64) }
{
    let mut place = last_place(zone.start, zone.end, size, align)?;
    for index in (0..ranges.len()).rev() {
        let range = ranges[index];
        if range.meets(place, place + size) {
            place = last_place(zone.start, range.start, size, align)?;
        }
    }
    Some(place)
}

// The least multiple of `align` at or above `from`, from which `size` bytes end at or below `end`.
fn next_place(from: u64, end: u64, size: u64, align: u64) -> Option<u64>
    requires { 0 < align }
    ensures next { IfSome result (λ place. IsNextPlace from end size align place) }
    ensures none { IfNone result (HasNoMultiple from end size align) }
{
    let place = from.checked_next_multiple_of(align)?;
    let last = end.checked_sub(size)?;
    if place <= last { Some(place) } else { None }
}

// The greatest multiple of `align` at or above `from`, from which `size` bytes end at or below `end`.
fn last_place(from: u64, end: u64, size: u64, align: u64) -> Option<u64>
    requires { 0 < align }
    ensures last { IfSome result (λ place. IsLastPlace from end size align place) }
    ensures none { IfNone result (HasNoMultiple from end size align) }
{
    let last = end.checked_sub(size)?;
    let place = last - last % align;
    if from <= place { Some(place) } else { None }
}
