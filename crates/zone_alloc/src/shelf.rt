ghost use Rattle.std.specs.Prelude.{◌≡◌, true, ◌+◌, ◌<◌, ◌≤◌, ◌^◌, ◌∷◌, length, IfSome};
ghost use Rattle.std.specs.Int.{is_power_of_two};
ghost use Rattle.std.specs.List.{AllByRecursion};
ghost use Rattle.vt_outside.specs.Placement.{Apart};
ghost use Rattle.zone_alloc.specs.Allocators.{before_begin, with_range, with_refusal, shelf_gives};

use crate::alloc::{NoRoom, Request, ZoneAlloc};
use crate::chooser::Chooser;
use crate::handed::HandedRanges;
use crate::policy::Policy;
use crate::searching::AddressRange;
use crate::zone::Zone;
use crate::zones::Zones;
use std::alloc::Global;
use std::marker::Model;
use vt_outside::OutOfMemory;

/// An allocator that gives each file the place that its policy chooses, and refuses only where none is free.
#[derive(Debug, Drop)]
pub struct ShelfAlloc {
    // None before `begin`, and after one that had no memory.
    handed: Option<HandedRanges>,
    zones: Zones,
    chooser: Chooser,
    refusals: u64,
    refused: Option<Request>,
}

impl Model for ShelfAlloc {
    ghost use Rattle.std.specs.Prelude.{[], length, is_some, IfSome};
    ghost use Rattle.std.specs.Option.{option_map_or};
    ghost use Rattle.zone_alloc.specs.Allocators.{AllocState};
    ghost use Rattle.zone_alloc.specs.Places.{HaveAddresses};
    ghost use Rattle.zone_alloc.specs.Words.{policy_of, IsAtWord};

    ghost Value = { AllocState };

    ghost view = { λ s. record {
      begun = record { zones = s.zones; policy = policy_of s.chooser; ready = is_some s.handed };
      handed = option_map_or (λ handed. handed) s.handed [];
      refusals = s.refusals;
      refused = s.refused;
    } };

    ghost invariant = { λ s. IfSome s.handed (λ handed. HaveAddresses s.zones × IsAtWord (length handed) s.chooser) };
}

impl ShelfAlloc {
    /// Makes an allocator that has no zones yet and has refused nothing. It takes no memory.
    pub fn new() -> ShelfAlloc
        ensures { result ≡ before_begin }
    {
        ShelfAlloc {
            handed: None,
            zones: Zones {
                high_start: 0,
                high_end: 0,
                fseg_start: 0,
                fseg_end: 0,
            },
            chooser: Chooser::Low,
            refusals: 0,
            refused: None,
        }
    }

    // The place that the policy chooses for what is asked, or `None` where none is free.
    fn choose(&self, asked: Request) -> Option<u64>
        requires begun { self.now.begun.ready ≡ true }
        requires size { 0 < asked.size }
        requires align { is_power_of_two asked.align ≡ true }
        ensures gives { shelf_gives self.now asked result }
        ensures fits { IfSome result (λ place. place + asked.size < 2 ^ 64) }
    {
        let Some(handed) = &self.handed else {
            unreachable!();
        };
        let range = AddressRange {
            start: self.zones.start_of(asked.zone),
            end: self.zones.end_of(asked.zone),
        };
        self.chooser.choose(handed, range, u64::from(asked.size), u64::from(asked.align))
    }

    // Hands out the range of what is asked, at least 1 byte, from `start` on. It is apart from the others.
    fn hand_out(&mut self, asked: Request, start: u64)
        requires begun { self.old.begun.ready ≡ true }
        requires room { length self.old.handed < 1024 }
        requires size { 0 < asked.size }
        requires fits { start + asked.size < 2 ^ 64 }
        requires apart { AllByRecursion (Apart (record { start = start; end = start + asked.size })) self.old.handed }
        ensures { self.new ≡ with_range asked start self.old }
    {
        self.refused = None;
        self.chooser.take_word();
        let Some(handed) = &mut self.handed else {
            unreachable!();
        };
        let end = start + u64::from(asked.size);
        handed.push(AddressRange { start, end });
    }

    /// Refuses what is asked, and counts the refusal.
    pub(crate) fn refuse(&mut self, asked: Request)
        ensures value { self.new ≡ with_refusal asked self.old }
        ensures never_falls { self.old.refusals ≤ self.new.refusals }
    {
        self.refusals = self.refusals.saturating_add(1);
        self.refused = Some(asked);
    }
}

impl ZoneAlloc for ShelfAlloc {
    ghost state = { λ s. s };

    // The place that the policy chooses is given, and NoRoom comes exactly where none is free.
    ghost gives = { shelf_gives };

    fn begin(&mut self, alloc: Global, within: Zones, by: Policy) -> Result<(), OutOfMemory> {
        self.handed = None;
        self.zones = within;
        self.chooser = Chooser::of(by);
        self.refused = None;
        self.handed = Some(HandedRanges::new(alloc)?);
        Ok(())
    }

    fn reset(&mut self) {
        self.refused = None;
        self.chooser.restart();
        if let Some(handed) = &mut self.handed {
            handed.clear();
        }
    }

    fn place(&mut self, zone: Zone, size: u32, align: u32) -> Result<u64, NoRoom> {
        let asked = Request { zone, size, align };
        match self.choose(asked) {
            Some(place) => {
                self.hand_out(asked, place);
                Ok(place)
            }
            None => {
                self.refuse(asked);
                Err(NoRoom)
            }
        }
    }
}
