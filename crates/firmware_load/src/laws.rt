//! Laws of the events of a seed. Each is the contract of a function that does nothing.

ghost use Rattle.std.specs.Prelude.{◌≡◌, ℕ, ◌<◌, length};
ghost use Rattle.std.specs.List.{AllByRecursion};
ghost use Rattle.firmware_load.specs.Schedules.{seeded_events, IsSeeded};

/// Says how many events a seed has: none where it is 0, and else 4,096.
pub fn seeds_have_so_many_events()
    ensures none { length (seeded_events 0) ≡ 0 }
    ensures some { (seed : ℕ) → 0 < seed → length (seeded_events seed) ≡ 4096 }
{}

/// Says which events a seed may have: a step of the firmware, a piece of 1 to 4,096 bytes, a byte that is written below 1 MiB, or a
/// reset.
pub fn seeded_events_are_small()
    ensures { (seed : ℕ) → AllByRecursion IsSeeded (seeded_events seed) }
{}
