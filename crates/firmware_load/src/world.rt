ghost use Rattle.std.specs.Prelude.{◌≡◌, ◌≢◌, ℕ, List, [], ◌∷◌, ◌++◌, true, false, None, Ok, Err, IsSome, IfSome, IsSomeAnd, OnOk, OnErr};
ghost use Rattle.vt_outside.specs.Stream.{next_count};
ghost use Rattle.vt_bytes.specs.Memory.{IsTop};
ghost use Rattle.command_acts.specs.Allocators.{AreZonesOf, MayAnswer};
ghost use Rattle.command_acts.specs.FilesInMemory.{placed_ranges};
ghost use Rattle.command_acts.specs.Script.{IsAsked};
ghost use Rattle.load_states.specs.declared.event.Event.{Event as EventOf};
ghost use Rattle.load_states.specs.declared.event.Event.TheVariants.{Reset};
ghost use Rattle.zone_alloc.specs.Allocators.{reset_as};
ghost use Rattle.load_states.specs.Kept.{IsKept};
ghost use Rattle.load_states.specs.Loads.{IsBegun};
ghost use Rattle.load_states.specs.LoadState.{Opening, begun_with, memory_of, opening_of};
ghost use Rattle.load_states.specs.Runs.{NoAnswer, StepsTo, request_of};
ghost use Rattle.load_states.specs.Touching.{MayTouchOver};
ghost use Rattle.guest_memory.specs.Touched.{TouchesOnly, is_touched};
ghost use Rattle.firmware_load.specs.World.{idle_world, state_of, IsWithoutRoom, IsSound, IsLoadOver, TouchesByPlan};

use crate::loading::Loading;
use crate::schedule::Schedule;
use crate::state::State;
use cfg_directory::Items;
use cfg_dma::Device;
use command_acts::LoadFault;
use guest_memory::GuestMemory;
use load_states::Event;
use std::alloc::Global;
use std::marker::Model;
use vt_outside::OutOfMemory;
use zone_alloc::ZoneAlloc;

/// A guest's memory, the fw_cfg device that is attached to it, and a firmware that loads tables from it.
#[derive(Drop)]
pub struct World {
    loading: Option<Loading>,
}

impl Model for World {
    ghost use Rattle.std.specs.Prelude.{IfSome};
    ghost use Rattle.firmware_load.specs.World.{WorldState};
    ghost use Rattle.firmware_load.specs.Inside.{world_in, KeepsInside};

    ghost Value = { WorldState };

    ghost view = { λ w. world_in w.loading };

    ghost invariant = { λ w. IfSome w.loading KeepsInside };
}

impl World {
    /// Returns a world in which nothing was begun.
    pub fn idle() -> World
        ensures { result ≡ idle_world }
    {
        World { loading: None }
    }

    /// Begins a load of `items` into memory below the address `top`, in which every byte is `fill`. `top` is a multiple of 1 MiB
    /// from 0x4000000 to 0xC0000000. A load that was begun before is dropped. All memory that the load needs comes from `alloc`.
    /// Returns `OutOfMemory` when memory runs out; the world is then idle.
    ///
    /// Steps keep what the world keeps from here on, however places will be answered: none was asked for yet.
    pub fn begin(
        &mut self,
        alloc: Global,
        items: Items,
        top: u32,
        fill: u8,
    ) -> Result<(), OutOfMemory>
        requires { IsTop top }
        ensures ok { OnOk result (IsSomeAnd self.new.load (IsBegun (begun_with items top fill))) }
        ensures kept { OnOk result (IsSomeAnd self.new.load (IsKept NoAnswer (begun_with items top fill) [])) }
        ensures untouched { OnOk result ((frame : ℕ) → is_touched self.new.touched frame ≡ false) }
        ensures err { OnErr result (self.new ≡ idle_world) }
    {
        self.loading = None;
        self.loading = Some(Loading::begin(alloc, items, top, fill)?);
        Ok(())
    }

    /// Takes the step of one event: the device moves a piece of its transfer, the firmware takes a step, another processor writes a
    /// byte, or the guest is reset. A load was begun; `place` was begun with the zones of this memory, and has handed out the ranges of the
    /// files that are placed, and no others. It is asked for a place once where an Allocate is carried out, and else not at all. It takes no
    /// memory.
    ///
    /// A reset begins the load anew, whether it has ended or not: the device has the files that it began with, `place` hands nothing out any
    /// more, and the F segment holds the fill byte; the rest of memory stays. When the load has ended, an event of the firmware has no effect.
    /// Each frame that the step touches has an address of the work range, of a placed file, or that another processor writes.
    pub fn step<A: ZoneAlloc>(&mut self, place: &mut A, event: Event)
        requires some { IsSome self.old.load }
        requires begun { (A.state place.old).begun.ready ≡ true }
        requires zones { IfSome self.old.load (λ w. AreZonesOf (memory_of w).top (A.state place.old).begun.zones) }
        requires handed { IfSome self.old.load (λ w. (A.state place.old).handed ≡ placed_ranges w.placed) }

        // It is the one step of the load, with an answer that the allocator may give.
        ensures steps { IfSome self.old.load (λ old. IsSomeAnd self.new.load (StepsTo (MayAnswer A.state A.gives (A.state place.old).begun) event old)) }
        ensures kept { IfSome self.old.load (λ old. IsSomeAnd self.new.load (λ new. (its : Opening) (events : List EventOf)
            → IsKept (MayAnswer A.state A.gives (A.state place.old).begun) its events old
            → IsKept (MayAnswer A.state A.gives (A.state place.old).begun) its (events ++ event ∷ []) new)) }

        // So it is for the first event, before which no place was answered.
        ensures first { IfSome self.old.load (λ old. IsSomeAnd self.new.load (λ new. (its : Opening) (events : List EventOf)
            → IsKept NoAnswer its events old
            → IsKept (MayAnswer A.state A.gives (A.state place.old).begun) its (events ++ event ∷ []) new)) }

        // What the allocator was asked, where it refused, and what it keeps.
        ensures handed { IfSome self.new.load (λ w. (A.state place.new).handed ≡ placed_ranges w.placed) }
        ensures unasked { event ≢ Reset → IfSome self.old.load (λ w. request_of event w ≡ None → place.new ≡ place.old) }
        ensures given_back { event ≡ Reset → A.state place.new ≡ reset_as (A.state place.old) }
        ensures no_room { IfSome self.old.load (λ old. IsSomeAnd self.new.load (λ new. IsWithoutRoom event old new (A.state place.old) (A.state place.new))) }
        ensures sound { IfSome self.old.load (λ old. IsSomeAnd self.new.load (λ new. IsSound old new (A.state place.old) (A.state place.new))) }
        ensures begun { (A.state place.new).begun ≡ (A.state place.old).begun }

        // Which frames it touches.
        ensures touches { IfSome self.old.load (λ old. IsSomeAnd self.new.load (λ new. TouchesOnly
            (MayTouchOver (memory_of old).top (event ∷ []) (placed_ranges new.placed)) (memory_of old).top self.old.touched self.new.touched)) }
    {
        match &mut self.loading {
            Some(loading) => loading.step(place, event),
            None => unreachable!(),
        }
    }

    /// Takes the events of `plan` until the load has ended, and after their end a step of the firmware and a piece as long as any
    /// transfer, in turn, so that it always ends. A reset begins the load anew, and gives back to `place` what it has handed out; what
    /// came before the last one is then forgotten, but for memory. The load was just begun; `place` was begun with the zones of this
    /// memory, and has handed nothing out since. It is asked once for each Allocate that isn't refused: for the zone and the align of the
    /// command, and the file's size. It takes no memory.
    ///
    /// Returns `NoScript` where no file has the script's name, `ScriptLength` where its length is no script's, `Command` at the first
    /// command that is refused, with its first cause, and `NoRoom` at the first one for whose file `place` has no room. No list of
    /// events changes the answer but through the places that are given. Each frame that is then touched has an address of the work range, of
    /// a range that was handed out, or that an event of another processor has written.
    pub fn load<A: ZoneAlloc, C: Schedule>(
        &mut self,
        place: &mut A,
        plan: &mut C,
    ) -> Result<(), LoadFault>
        requires fresh { IsSomeAnd self.old.load (λ w. IsBegun (opening_of w) w) }
        requires begun { (A.state place.old).begun.ready ≡ true }
        requires zones { IfSome self.old.load (λ w. AreZonesOf (memory_of w).top (A.state place.old).begun.zones) }
        requires handed { (A.state place.old).handed ≡ [] }

        // It is the run over the plan's events that it has taken and, behind their end, over some that end it; and no shorter run has ended.
        ensures loaded { IfSome self.old.load (λ old. IsSomeAnd self.new.load (IsLoadOver (MayAnswer A.state A.gives (A.state place.old).begun) old
            (C.plan plan.old).left (C.plan plan.new).left (A.state place.new).handed result)) }
        ensures plan { (C.plan plan.new).events ≡ (C.plan plan.old).events }

        // Where the allocator refused, and what it keeps.
        ensures no_room { (index : ℕ) → result ≡ Err (LoadFault.NoRoom index)
            → ((A.state place.new).refusals ≡ next_count (A.state place.old).refusals)
            × IfSome self.old.load (λ w. IsAsked w.attached.device.items index (A.state place.new).refused) }
        ensures sound { ((index : ℕ) → result ≢ Err (LoadFault.NoRoom index)) → (A.state place.new).refusals ≡ (A.state place.old).refusals }
        ensures begun { (A.state place.new).begun ≡ (A.state place.old).begun }

        // Which frames it has touched, whatever it answers.
        ensures touches { IfSome self.old.load (λ old. TouchesByPlan (memory_of old).top (C.plan plan.old).left (C.plan plan.new).left
            (A.state place.new).handed self.old.touched self.new.touched) }
    {
        match &mut self.loading {
            Some(loading) => loading.load(place, plan),
            None => unreachable!(),
        }
    }

    /// Returns how far the world is.
    pub fn state(&self) -> State
        ensures { result ≡ state_of self.now.load }
    {
        match &self.loading {
            None => State::Idle,
            Some(loading) => loading.state(),
        }
    }

    /// Returns the guest's memory, borrowed. A load was begun.
    pub fn memory(&self) -> &GuestMemory
        requires { IsSome self.now.load }
        ensures memory { IsSomeAnd self.now.load (λ w. result.now.memory ≡ memory_of w) }
        ensures touched { result.now.touched ≡ self.now.touched }
    {
        match &self.loading {
            Some(loading) => &loading.guest.memory,
            None => unreachable!(),
        }
    }

    /// Returns the fw_cfg device, borrowed. A load was begun.
    pub fn device(&self) -> &Device
        requires { IsSome self.now.load }
        ensures { IsSomeAnd self.now.load (λ w. result.now ≡ w.attached.device) }
    {
        match &self.loading {
            Some(loading) => &loading.guest.device,
            None => unreachable!(),
        }
    }
}
