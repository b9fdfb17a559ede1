ghost use Rattle.std.specs.Prelude.{◌≡◌, ◌≢◌, ◌≤◌, ◌⊎◌, ℕ, List, [], ◌++◌, true, false, Err};
ghost use Rattle.vt_outside.specs.Stream.{next_count};
ghost use Rattle.command_acts.specs.Allocators.{AreZonesOf, MayAnswer};
ghost use Rattle.command_acts.specs.Script.{IsAsked};
ghost use Rattle.load_states.specs.Loads.{IsBegun, stage_after, most_closing};
ghost use Rattle.load_states.specs.Runs.{has_ended, closing_events};
ghost use Rattle.load_states.specs.LoadState.{LoadState, Opening, opening_of};
ghost use Rattle.load_states.specs.declared.event.Event.{Event as EventOf};
ghost use Rattle.firmware_load.specs.World.{state_at, IsLoadOver, TouchesByPlan};
ghost use Rattle.firmware_load.specs.Inside.{load_of, IsInside, KeepsInside, StaysBegun, IsOnRun, IsTurn, AsksOnTheWay, TouchesOver, TouchesTaken};
ghost use Rattle.command_acts.specs.FilesInMemory.{placed_ranges};

use crate::loading::Loading;
use crate::schedule::Schedule;
use crate::state::State;
use command_acts::LoadFault;
use load_states::{Event, Stage};
use zone_alloc::ZoneAlloc;

impl Loading {
    /// Takes the events of a plan until the load has ended, and then others that end it.
    pub(crate) fn load<A: ZoneAlloc, C: Schedule>(
        &mut self,
        place: &mut A,
        plan: &mut C,
    ) -> Result<(), LoadFault>
        requires inside { KeepsInside self.old }
        requires fresh { IsBegun (opening_of (load_of self.old)) (load_of self.old) }
        requires begun { (A.state place.old).begun.ready ≡ true }
        requires zones { AreZonesOf self.old.guest.memory.memory.top (A.state place.old).begun.zones }
        requires handed { (A.state place.old).handed ≡ [] }
        ensures inside { KeepsInside self.new }
        ensures loaded { IsLoadOver (MayAnswer A.state A.gives (A.state place.old).begun) (load_of self.old)
            (C.plan plan.old).left (C.plan plan.new).left (A.state place.new).handed result (load_of self.new) }
        ensures plan { (C.plan plan.new).events ≡ (C.plan plan.old).events }
        ensures no_room { (index : ℕ) → result ≡ Err (LoadFault.NoRoom index)
            → ((A.state place.new).refusals ≡ next_count (A.state place.old).refusals)
            × IsAsked self.old.guest.device.items index (A.state place.new).refused }
        ensures sound { ((index : ℕ) → result ≢ Err (LoadFault.NoRoom index)) → (A.state place.new).refusals ≡ (A.state place.old).refusals }
        ensures begun { (A.state place.new).begun ≡ (A.state place.old).begun }
        ensures touches { TouchesByPlan self.old.guest.memory.memory.top (C.plan plan.old).left (C.plan plan.new).left (A.state place.new).handed
            self.old.guest.memory.touched self.new.guest.memory.touched }
    {
        self.follow(place, plan);
        self.close(place);
        self.answer()
    }

    // What a load answers that has ended.
    fn answer(&self) -> Result<(), LoadFault>
        requires { has_ended self.now.stage ≡ true }
        ensures { self.now.stage ≡ stage_after result }
    {
        match self.stage {
            Stage::Done => Ok(()),
            Stage::Refused(why) => Err(why),
            _ => unreachable!(),
        }
    }

    /// Returns the state of a world with this load.
    pub(crate) fn state(&self) -> State
        ensures { result ≡ state_at self.now.stage }
    {
        match self.stage {
            Stage::Done => State::Done,
            Stage::Refused(why) => State::Refused(why),
            _ => State::Running,
        }
    }

    // Whether the load has ended.
    fn has_ended(&self) -> bool
        ensures { result ≡ has_ended self.now.stage }
    {
        matches!(self.stage, Stage::Done | Stage::Refused(_))
    }

    // Takes the events of a plan until the load has ended, or the plan has no more.
    fn follow<A: ZoneAlloc, C: Schedule>(&mut self, place: &mut A, plan: &mut C)
        requires inside { KeepsInside self.old }
        requires begun { (A.state place.old).begun.ready ≡ true }
        requires zones { AreZonesOf self.old.guest.memory.memory.top (A.state place.old).begun.zones }
        requires handed { (A.state place.old).handed ≡ placed_ranges self.old.guest.placements.placed.items }
        ensures inside { KeepsInside self.new }
        ensures begun_so { StaysBegun self.old self.new }
        ensures follows { (begun : LoadState) (before : List EventOf) →
            IsOnRun (MayAnswer A.state A.gives (A.state place.old).begun) begun before (load_of self.old) →
            (taken : List EventOf) × ((C.plan plan.old).left ≡ taken ++ (C.plan plan.new).left)
            × IsOnRun (MayAnswer A.state A.gives (A.state place.old).begun) begun (before ++ taken) (load_of self.new) }
        ensures over { (has_ended self.new.stage ≡ true) ⊎ ((C.plan plan.new).left ≡ []) }
        ensures plan { (C.plan plan.new).events ≡ (C.plan plan.old).events }
        ensures asks { (its : Opening) → IsInside its self.old → AsksOnTheWay its.items self.old self.new (A.state place.old) (A.state place.new) }
        ensures handed { (A.state place.new).handed ≡ placed_ranges self.new.guest.placements.placed.items }
        ensures begun { (A.state place.new).begun ≡ (A.state place.old).begun }
        ensures touches { TouchesTaken (C.plan plan.old).left (C.plan plan.new).left self.old.guest self.new.guest }
    {
        while !self.has_ended() {
            match plan.next() {
                Some(event) => self.step(place, event),
                None => return,
            }
        }
    }

    // Takes a step of the firmware and a piece as long as any transfer, in turn, until the load has ended.
    fn close<A: ZoneAlloc>(&mut self, place: &mut A)
        requires inside { KeepsInside self.old }
        requires begun { (A.state place.old).begun.ready ≡ true }
        requires zones { AreZonesOf self.old.guest.memory.memory.top (A.state place.old).begun.zones }
        requires handed { (A.state place.old).handed ≡ placed_ranges self.old.guest.placements.placed.items }
        ensures inside { KeepsInside self.new }
        ensures begun_so { StaysBegun self.old self.new }
        ensures follows { (begun : LoadState) (before : List EventOf) →
            IsOnRun (MayAnswer A.state A.gives (A.state place.old).begun) begun before (load_of self.old) →
            (closing : ℕ) × (closing ≤ most_closing (opening_of begun).items) × (has_ended self.old.stage ≡ true → closing ≡ 0)
            × IsOnRun (MayAnswer A.state A.gives (A.state place.old).begun) begun
            (before ++ closing_events closing) (load_of self.new) }
        ensures over { has_ended self.new.stage ≡ true }
        ensures asks { (its : Opening) → IsInside its self.old → AsksOnTheWay its.items self.old self.new (A.state place.old) (A.state place.new) }
        ensures handed { (A.state place.new).handed ≡ placed_ranges self.new.guest.placements.placed.items }
        ensures begun { (A.state place.new).begun ≡ (A.state place.old).begun }
        ensures touches { TouchesOver [] self.old.guest self.new.guest }
    {
        while !self.has_ended() {
            self.take_turn(place);
        }
    }

    // Takes a step of the firmware and then, unless the load has ended, a piece as long as any transfer. The load hasn't ended before.
    fn take_turn<A: ZoneAlloc>(&mut self, place: &mut A)
        requires inside { KeepsInside self.old }
        requires running { has_ended self.old.stage ≡ false }
        requires begun { (A.state place.old).begun.ready ≡ true }
        requires zones { AreZonesOf self.old.guest.memory.memory.top (A.state place.old).begun.zones }
        requires handed { (A.state place.old).handed ≡ placed_ranges self.old.guest.placements.placed.items }
        ensures inside { KeepsInside self.new }
        ensures begun_so { StaysBegun self.old self.new }
        ensures turn { IsTurn (MayAnswer A.state A.gives (A.state place.old).begun) (load_of self.old) (load_of self.new) }
        ensures asks { (its : Opening) → IsInside its self.old → AsksOnTheWay its.items self.old self.new (A.state place.old) (A.state place.new) }
        ensures handed { (A.state place.new).handed ≡ placed_ranges self.new.guest.placements.placed.items }
        ensures begun { (A.state place.new).begun ≡ (A.state place.old).begun }
        ensures touches { TouchesOver [] self.old.guest self.new.guest }
    {
        self.step(place, Event::Firmware);
        if !self.has_ended() {
            self.step(place, Event::Device(u32::MAX));
        }
    }
}
