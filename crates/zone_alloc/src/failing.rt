ghost use Rattle.std.specs.Prelude.{◌≡◌, true, ◌<◌, ◌≤◌, length, IfOk, OnErr, is_ok};
ghost use Rattle.std.specs.Int.{is_power_of_two};
ghost use Rattle.std.specs.Result.{result_ok};
ghost use Rattle.vt_outside.specs.Placement.{IsFree};
ghost use Rattle.vt_outside.specs.Stream.{next_count};
ghost use Rattle.zone_alloc.specs.Places.{range_in, HaveAddresses};
ghost use Rattle.zone_alloc.specs.Allocators.{before_begin, begun_as, reset_as, with_range, with_refusal, failing_gives};

use crate::alloc::{NoRoom, Request, ZoneAlloc};
use crate::policy::Policy;
use crate::shelf::ShelfAlloc;
use crate::zone::Zone;
use crate::zones::Zones;
use std::alloc::Global;
use std::marker::Model;
use vt_outside::{List, OutOfMemory, is_listed};

/// A [`ShelfAlloc`] that refuses some of the calls of `place`, where the caller says so.
#[derive(Debug, Drop)]
pub struct FailingAlloc {
    shelf: ShelfAlloc,
    fails: List<u32>,
    calls: u64,
}

impl Model for FailingAlloc {
    ghost use Rattle.zone_alloc.specs.Allocators.{FailingState};

    ghost Value = { FailingState };

    ghost view = { λ f. record { shelf = f.shelf; fails = f.fails; calls = f.calls } };
}

impl FailingAlloc {
    /// Makes an allocator that has no zones yet and has refused nothing. `fails` lists the calls of `place` that are refused, each
    /// by its number: all these calls are counted, from 0, and the count goes on over each `begin`. It takes no memory.
    pub fn new(fails: List<u32>) -> FailingAlloc
        ensures { result ≡ record { shelf = before_begin; fails = fails; calls = 0 } }
    {
        FailingAlloc {
            shelf: ShelfAlloc::new(),
            fails,
            calls: 0,
        }
    }
}

impl ZoneAlloc for FailingAlloc {
    ghost state = { λ f. f.shelf };

    ghost gives = { failing_gives };

    fn begin(&mut self, alloc: Global, within: Zones, by: Policy) -> Result<(), OutOfMemory>
        requires { HaveAddresses within }
        ensures { self.new ≡ record self.old { shelf = begun_as within by (is_ok result) self.old.shelf } }
    {
        self.shelf.begin(alloc, within, by)
    }

    fn reset(&mut self)
        requires { self.old.shelf.begun.ready ≡ true }
        // The calls are counted on.
        ensures { self.new ≡ record self.old { shelf = reset_as self.old.shelf } }
    {
        self.shelf.reset();
    }

    fn place(&mut self, zone: Zone, size: u32, align: u32) -> Result<u64, NoRoom>
        requires begun { self.old.shelf.begun.ready ≡ true }
        requires room { length self.old.shelf.handed < 1024 }
        requires size { 0 < size }
        requires align { is_power_of_two align ≡ true }
        // A listed call is refused, and another one is answered as by a `ShelfAlloc`.
        ensures gives { failing_gives self.old (record { zone = zone; size = size; align = align }) (result_ok result) }
        ensures lawful { IfOk result (λ place. IsFree (range_in self.old.shelf.begun.zones zone) self.old.shelf.handed size align place) }
        ensures ok { IfOk result (λ place. self.new ≡ record self.old {
          shelf = with_range (record { zone = zone; size = size; align = align }) place self.old.shelf;
          calls = next_count self.old.calls;
        }) }
        ensures err { OnErr result (self.new ≡ record self.old {
          shelf = with_refusal (record { zone = zone; size = size; align = align }) self.old.shelf;
          calls = next_count self.old.calls;
        }) }
        ensures never_falls { self.old.shelf.refusals ≤ self.new.shelf.refusals }
    {
        let call = self.calls;
        self.calls = self.calls.saturating_add(1);
        if is_listed(self.fails.as_slice(), call) {
            self.shelf.refuse(Request { zone, size, align });
            return Err(NoRoom);
        }
        self.shelf.place(zone, size, align)
    }
}
