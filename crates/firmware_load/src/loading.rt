ghost use Rattle.std.specs.Prelude.{◌≡◌, ◌≢◌, ℕ, [], ◌∷◌, true, false, None, IfOk};
ghost use Rattle.vt_bytes.specs.Memory.{IsTop};
ghost use Rattle.command_acts.specs.Allocators.{AreZonesOf, MayAnswer};
ghost use Rattle.command_acts.specs.FilesInMemory.{placed_ranges};
ghost use Rattle.load_states.specs.declared.event.Event.TheVariants.{Device as Moved, Firmware as Stepped, Other as Written, Reset};
ghost use Rattle.load_states.specs.Guarded.{is_guarded, written_by_other};
ghost use Rattle.load_states.specs.Kept.{IsKept};
ghost use Rattle.load_states.specs.Loads.{IsBegun};
ghost use Rattle.load_states.specs.LoadState.{begun_with};
ghost use Rattle.load_states.specs.Runs.{NoAnswer, StepsTo, request_of};
ghost use Rattle.load_states.specs.Steps.{restarted, step};
ghost use Rattle.firmware_load.specs.Inside.{Nowhere};
ghost use Rattle.zone_alloc.specs.Allocators.{reset_as};
ghost use Rattle.firmware_load.specs.World.{IsWithoutRoom, IsSound};
ghost use Rattle.firmware_load.specs.Inside.{load_of, KeepsInside, StaysBegun, SameRooms, TouchesOver};
ghost use Rattle.guest_memory.specs.Touched.{TouchesOnly, is_touched};

use crate::guest::Guest;
use crate::rooms::{most_transfers, script_len};
use cfg_directory::{Items, Listed};
use cfg_dma::Device;
use command_acts::{Placements, infos_of};
use guest_memory::GuestMemory;
use load_states::{Event, Reading, Stage};
use loader_script::Entry;
use std::alloc::Global;
use vt_outside::OutOfMemory;
use zone_alloc::ZoneAlloc;

/// A load that was begun: what its firmware works on, how far it is, and the files of the directory and the commands of the script
/// that it has taken.
#[derive(Drop)]
pub(crate) struct Loading {
    pub(crate) guest: Guest,
    pub(crate) stage: Stage,
    pub(crate) listed: Vec<Listed>,
    pub(crate) script: Vec<Entry>,
}

impl Loading {
    /// Begins a load of `items` into memory below `top`, in which every byte is `fill`. All memory that it needs comes from
    /// `alloc`.
    pub(crate) fn begin(
        alloc: Global,
        items: Items,
        top: u32,
        fill: u8,
    ) -> Result<Loading, OutOfMemory>
        requires { IsTop top }
        ensures begun { IfOk result (λ l. IsBegun (begun_with items top fill) (load_of l)) }
        ensures kept { IfOk result (λ l. IsKept NoAnswer (begun_with items top fill) [] (load_of l)) }
        ensures inside { IfOk result KeepsInside }
        ensures untouched { IfOk result (λ l. (frame : ℕ) → is_touched l.guest.memory.touched frame ≡ false) }
    {
        let transfers = most_transfers(&items);
        let listed = Vec::with_capacity(alloc, items.all().len())?;
        let script = Vec::with_capacity(alloc, script_len(&items))?;
        let infos = infos_of(alloc, items.all())?;
        let placements = Placements::begin(alloc, infos)?;
        let memory = GuestMemory::begin(alloc, top, fill)?;
        let device = Device::begin(alloc, items, transfers)?;
        Ok(Loading {
            guest: Guest {
                device,
                memory,
                placements,
            },
            stage: Stage::Asks(Reading::Count),
            listed,
            script,
        })
    }

    /// Takes the step of an event. `place` is asked once, where the firmware carries out an Allocate, and else not at all; a reset gives back
    /// what it has handed out.
    pub(crate) fn step<A: ZoneAlloc>(&mut self, place: &mut A, event: Event)
        requires inside { KeepsInside self.old }
        requires begun { (A.state place.old).begun.ready ≡ true }
        requires zones { AreZonesOf self.old.guest.memory.memory.top (A.state place.old).begun.zones }
        requires handed { (A.state place.old).handed ≡ placed_ranges self.old.guest.placements.placed.items }
        ensures inside { KeepsInside self.new }
        ensures begun_so { StaysBegun self.old self.new }
        ensures steps { StepsTo (MayAnswer A.state A.gives (A.state place.old).begun) event
            (load_of self.old) (load_of self.new) }
        ensures handed { (A.state place.new).handed ≡ placed_ranges self.new.guest.placements.placed.items }
        ensures unasked { event ≢ Reset → request_of event (load_of self.old) ≡ None → place.new ≡ place.old }
        ensures given_back { event ≡ Reset → A.state place.new ≡ reset_as (A.state place.old) }
        ensures no_room { IsWithoutRoom event (load_of self.old) (load_of self.new) (A.state place.old) (A.state place.new) }
        ensures sound { IsSound (load_of self.old) (load_of self.new) (A.state place.old) (A.state place.new) }
        ensures begun { (A.state place.new).begun ≡ (A.state place.old).begun }
        ensures touches { TouchesOver (event ∷ []) self.old.guest self.new.guest }
    {
        match event {
            Event::Device(bytes) => self.move_piece(bytes),
            Event::Firmware => self.firmware_step(place),
            Event::Other { addr, byte } => self.write_by_other(addr, byte),
            Event::Reset => self.restart(place),
        }
    }

    // The device moves a piece of its transfer.
    fn move_piece(&mut self, bytes: u32)
        requires { KeepsInside self.old }
        ensures steps { load_of self.new ≡ step (Moved bytes) None (load_of self.old) }
        ensures rooms { SameRooms self.old self.new }
        ensures touches { TouchesOver [] self.old.guest self.new.guest }
    {
        self.guest.device.piece(&mut self.guest.memory, bytes);
    }

    // The guest is reset: the firmware begins again, and what `place` has handed out is given back.
    fn restart<A: ZoneAlloc>(&mut self, place: &mut A)
        requires inside { KeepsInside self.old }
        requires begun { (A.state place.old).begun.ready ≡ true }
        ensures steps { load_of self.new ≡ restarted (load_of self.old) }
        ensures rooms { SameRooms self.old self.new }
        ensures given_back { A.state place.new ≡ reset_as (A.state place.old) }
        ensures touches { TouchesOnly Nowhere self.old.guest.memory.memory.top self.old.guest.memory.touched self.new.guest.memory.touched }
    {
        self.guest.reset();
        self.stage = Stage::Asks(Reading::Count);
        self.listed.clear();
        self.script.clear();
        place.reset();
    }

    // Another processor writes a byte, unless the address is no RAM or is guarded.
    fn write_by_other(&mut self, addr: u64, byte: u8)
        requires { KeepsInside self.old }
        ensures steps { load_of self.new ≡ step (Written addr byte) None (load_of self.old) }
        ensures rooms { SameRooms self.old self.new }
        ensures touches { TouchesOver (Written addr byte ∷ []) self.old.guest self.new.guest }
    {
        self.guest.write_by_other(addr, byte);
    }
}
