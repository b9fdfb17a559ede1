ghost use Rattle.std.specs.Prelude.{◌≡◌, ◌≢◌, ℕ, ◌+◌, ◌++◌, ◌-◌, ◌*◌, ◌/◌, ◌%◌, ◌<◌, ◌≤◌, ◌^◌, ◌==◌, [], true, false, length};
ghost use Rattle.std.specs.Prelude.{None, Some, List, vec_len, vec_capacity, if◌then◌else◌};
ghost use Rattle.std.specs.Option.{option_copied};
ghost use Rattle.vt_bytes.specs.Numbers.{be};
ghost use Rattle.cfg_directory.specs.declared.listed.Listed.{Listed as ListedFile};
ghost use Rattle.loader_script.specs.Spelling.{entries_of};
ghost use Rattle.loader_script.specs.LoaderName.{loader_name};
ghost use Rattle.cfg_dma.specs.Reads.{selected_read, next_read};
ghost use Rattle.command_acts.specs.Allocators.{AreZonesOf, MayAnswer};
ghost use Rattle.command_acts.specs.FilesInMemory.{placed_ranges};
ghost use Rattle.load_states.specs.declared.event.Event.TheVariants.{Firmware};
ghost use Rattle.load_states.specs.declared.reading.Reading.TheVariants.{Count, Entries, Commands};
ghost use Rattle.load_states.specs.declared.stage.Stage.TheVariants.{Asks, Awaits, AtCommand, AsksWrite};
ghost use Rattle.load_states.specs.Guarded.{buffer_at};
ghost use Rattle.load_states.specs.Kept.{IsLeft};
ghost use Rattle.load_states.specs.LoadState.{LoadState, listed_named};
ghost use Rattle.load_states.specs.Runs.{StepsTo, request_of};
ghost use Rattle.load_states.specs.Steps.{asked, asking_for, is_over, script_control, stage_for, taken_of, firmware_step};
ghost use Rattle.firmware_load.specs.World.{IsWithoutRoom, IsSound};
ghost use Rattle.firmware_load.specs.Inside.{load_of, KeepsInside, SameRooms, TouchesOver};

use crate::guest::{BUFFER, BUFFER_BYTES, Guest, NEXT_READ, selected_read};
use crate::loading::Loading;
use cfg_directory::{ENTRY_SIZE, Listed, list_entries};
use command_acts::LoadFault;
use load_states::{Reading, Stage};
use loader_script::{ENTRY_BYTES, Entry, LONGEST_SCRIPT, decode_entry, loader_name};
use vt_bytes::get_be;
use vt_outside::Name;
use zone_alloc::ZoneAlloc;

// The selector of the directory.
const DIRECTORY: u16 = 0x19;

impl Loading {
    /// Takes a step of the firmware.
    pub(crate) fn firmware_step<A: ZoneAlloc>(&mut self, place: &mut A)
        requires inside { KeepsInside self.old }
        requires begun { (A.state place.old).begun.ready ≡ true }
        requires zones { AreZonesOf self.old.guest.memory.memory.top (A.state place.old).begun.zones }
        requires handed { (A.state place.old).handed ≡ placed_ranges self.old.guest.placements.placed.items }
        ensures steps { StepsTo (MayAnswer A.state A.gives (A.state place.old).begun) Firmware
            (load_of self.old) (load_of self.new) }
        ensures rooms { SameRooms self.old self.new }
        ensures handed { (A.state place.new).handed ≡ placed_ranges self.new.guest.placements.placed.items }
        ensures unasked { request_of Firmware (load_of self.old) ≡ None → place.new ≡ place.old }
        ensures no_room { IsWithoutRoom Firmware (load_of self.old) (load_of self.new)
            (A.state place.old) (A.state place.new) }
        ensures sound { IsSound (load_of self.old) (load_of self.new) (A.state place.old) (A.state place.new) }
        ensures begun { (A.state place.new).begun ≡ (A.state place.old).begun }
        ensures touches { TouchesOver [] self.old.guest self.new.guest }
    {
        match self.stage {
            Stage::Asks(reading) => self.ask(reading),
            Stage::Awaits(reading) => self.look(reading),
            Stage::AtCommand(index) => self.come_to(index, place),
            Stage::AwaitsSkip(index) => self.pass_when_over(Stage::AsksWrite(index)),
            Stage::AsksWrite(index) => self.ask_write(index),
            Stage::AwaitsWrite(index) => self.pass_when_over(Stage::AtCommand(index + 1)),
            Stage::Done | Stage::Refused(_) => {}
        }
    }

    // Asks for the transfer of a reading.
    fn ask(&mut self, reading: Reading)
        requires inside { KeepsInside self.old }
        requires stage { self.old.stage ≡ Asks reading }
        ensures after { load_of self.new ≡ firmware_step (Asks reading) None (load_of self.old) }
        ensures rooms { SameRooms self.old self.new }
        ensures touches { TouchesOver [] self.old.guest self.new.guest }
    {
        let (control, size) = asking_for(reading);
        self.guest.start(control, size, BUFFER);
        self.stage = Stage::Awaits(reading);
    }

    // Looks whether the transfer of a reading is over, and then takes what it has read.
    fn look(&mut self, reading: Reading)
        requires inside { KeepsInside self.old }
        requires stage { self.old.stage ≡ Awaits reading }
        ensures after { load_of self.new ≡ firmware_step (Awaits reading) None (load_of self.old) }
        ensures rooms { SameRooms self.old self.new }
        ensures guest { self.new.guest ≡ self.old.guest }
    {
        if self.guest.is_over() {
            match reading {
                Reading::Count => self.take_count(),
                Reading::Entries { size, taken } => self.take_entries(size, taken),
                Reading::Commands {
                    select,
                    size,
                    taken,
                } => self.take_script(select, size, taken),
                Reading::File(index) => self.stage = Stage::AtCommand(index + 1),
            }
        }
    }

    // Looks whether a transfer is over of which nothing is taken, and then passes to a stage.
    fn pass_when_over(&mut self, next: Stage)
        requires inside { KeepsInside self.old }
        ensures after { load_of self.new
            ≡ (if is_over (load_of self.old) then record (load_of self.old) { stage = next } else load_of self.old) }
        ensures rooms { SameRooms self.old self.new }
        ensures guest { self.new.guest ≡ self.old.guest }
    {
        if !self.guest.is_over() {
            return;
        }
        self.stage = next;
    }

    // Puts the number of a WritePointer into the buffer, and asks for its write.
    fn ask_write(&mut self, index: u32)
        requires inside { KeepsInside self.old }
        requires stage { self.old.stage ≡ AsksWrite index }
        ensures after { load_of self.new ≡ firmware_step (AsksWrite index) None (load_of self.old) }
        ensures rooms { SameRooms self.old self.new }
        ensures touches { TouchesOver [] self.old.guest self.new.guest }
    {
        match self.script.get(index as usize) {
            Some(entry) => match entry {
                Entry::WritePointer {
                    src,
                    src_offset,
                    size,
                    ..
                } => {
                    self.guest.write_number(src, *src_offset, *size);
                    self.stage = Stage::AwaitsWrite(index);
                }
                // None but a WritePointer comes here.
                Entry::Allocate { .. }
                | Entry::AddPointer { .. }
                | Entry::AddChecksum { .. }
                | Entry::Misnamed(_)
                | Entry::Skipped(_) => unreachable!(),
            },
            None => unreachable!(),
        }
    }

    // Takes the number of files.
    fn take_count(&mut self)
        requires inside { KeepsInside self.old }
        requires stage { self.old.stage ≡ Awaits Count }
        requires over { is_over (load_of self.old) ≡ true }
        ensures after { load_of self.new ≡ taken_of Count (load_of self.old) }
        ensures rooms { SameRooms self.old self.new }
        ensures guest { self.new.guest ≡ self.old.guest }
    {
        let count = get_be(self.guest.buffered(4), 0, 4) as u32;
        self.stage = if count == 0 {
            Stage::Refused(LoadFault::NoScript)
        } else {
            Stage::Asks(Reading::Entries {
                size: ENTRY_SIZE as u32 * count,
                taken: 0,
            })
        };
    }

    // Takes entries of the directory.
    fn take_entries(&mut self, size: u32, taken: u32)
        requires inside { KeepsInside self.old }
        requires stage { self.old.stage ≡ Awaits (Entries size taken) }
        ensures after { load_of self.new ≡ taken_of (Entries size taken) (load_of self.old) }
        ensures rooms { SameRooms self.old self.new }
        ensures guest { self.new.guest ≡ self.old.guest }
    {
        let count = asked(size - taken);
        let entries = self.guest.buffered(count);
        list_entries(count / ENTRY_SIZE as u32, entries, &mut self.listed);
        self.stage = if taken + count == size {
            stage_for(&self.listed)
        } else {
            Stage::Asks(Reading::Entries {
                size,
                taken: taken + count,
            })
        };
    }

    // Takes commands of the script.
    fn take_script(&mut self, select: u16, size: u32, taken: u32)
        requires inside { KeepsInside self.old }
        requires stage { self.old.stage ≡ Awaits (Commands select size taken) }
        ensures after { load_of self.new ≡ taken_of (Commands select size taken) (load_of self.old) }
        ensures rooms { SameRooms self.old self.new }
        ensures guest { self.new.guest ≡ self.old.guest }
    {
        let bytes = asked(size - taken);
        take_commands(self.guest.buffered(bytes), &mut self.script);
        self.stage = if taken + bytes == size {
            Stage::AtCommand(0)
        } else {
            Stage::Asks(Reading::Commands {
                select,
                size,
                taken: taken + bytes,
            })
        };
    }

    // Carries out the command of an index, or ends the load behind the last one.
    fn come_to<A: ZoneAlloc>(&mut self, index: u32, place: &mut A)
        requires inside { KeepsInside self.old }
        requires stage { self.old.stage ≡ AtCommand index }
        requires begun { (A.state place.old).begun.ready ≡ true }
        requires zones { AreZonesOf self.old.guest.memory.memory.top (A.state place.old).begun.zones }
        requires handed { (A.state place.old).handed ≡ placed_ranges self.old.guest.placements.placed.items }
        ensures steps { StepsTo (MayAnswer A.state A.gives (A.state place.old).begun) Firmware
            (load_of self.old) (load_of self.new) }
        ensures rooms { SameRooms self.old self.new }
        ensures handed { (A.state place.new).handed ≡ placed_ranges self.new.guest.placements.placed.items }
        ensures unasked { request_of Firmware (load_of self.old) ≡ None → place.new ≡ place.old }
        ensures no_room { IsWithoutRoom Firmware (load_of self.old) (load_of self.new)
            (A.state place.old) (A.state place.new) }
        ensures sound { IsSound (load_of self.old) (load_of self.new) (A.state place.old) (A.state place.new) }
        ensures begun { (A.state place.new).begun ≡ (A.state place.old).begun }
        ensures touches { TouchesOver [] self.old.guest self.new.guest }
    {
        match self.script.get(index as usize) {
            Some(entry) => {
                self.stage = self.guest.carry_out(entry, index, &self.listed, place);
            }
            None => {
                self.guest.clear();
                self.stage = Stage::Done;
            }
        }
    }
}

// The control word that asks for a reading which goes through the buffer, and how many bytes it asks for.
fn asking_for(reading: Reading) -> (u32, u32)
    requires { IsLeft reading }
    ensures { (w : LoadState) → asking_for reading w ≡ record { control = result.0; size = result.1; address = buffer_at } }
{
    match reading {
        Reading::Count => (selected_read(DIRECTORY), 4),
        Reading::Entries { size, taken } => (NEXT_READ, asked(size - taken)),
        Reading::Commands {
            select,
            size,
            taken,
        } => (script_control(select, taken), asked(size - taken)),
        // A file is asked for where it is placed.
        Reading::File(_) => unreachable!(),
    }
}

// How many bytes the next read asks for, where so many are still to come.
fn asked(left: u32) -> u32
    ensures { result ≡ asked left }
{
    BUFFER_BYTES.min(left)
}

// The control word of the next read of the script: its first one selects the script's file.
fn script_control(select: u16, taken: u32) -> u32
    ensures { result ≡ script_control select taken }
{
    if taken == 0 {
        selected_read(select)
    } else {
        NEXT_READ
    }
}

// How far the firmware is when it knows the files of the directory.
fn stage_for(listed: &[Listed]) -> Stage
    ensures { result ≡ stage_for (listed_named listed.now loader_name) }
{
    match find_listed(listed, &loader_name()) {
        None => Stage::Refused(LoadFault::NoScript),
        Some(file) => stage_of_script(file.select, file.size),
    }
}

// The listed file of the name, if there is one.
fn find_listed<'a>(listed: &'a [Listed], name: &Name) -> Option<&'a Listed>
    ensures { option_copied result ≡ listed_named listed.now name.now }
{
    listed.iter().find(|file| file.name == *name)
}

// How far it is when it has found the script.
fn stage_of_script(select: u16, size: u32) -> Stage
    ensures { (name : List ℕ) → result ≡ stage_for (Some (record { name = name; select = select; size = size })) }
{
    if !size.is_multiple_of(ENTRY_BYTES as u32) || size > LONGEST_SCRIPT as u32 {
        Stage::Refused(LoadFault::ScriptLength)
    } else if size == 0 {
        Stage::AtCommand(0)
    } else {
        Stage::Asks(Reading::Commands {
            select,
            size,
            taken: 0,
        })
    }
}

// Takes the commands that bytes spell behind those of a script, in which there is room for them.
fn take_commands(bytes: &[u8], script: &mut Vec<Entry>)
    requires whole { length bytes.now % 128 ≡ 0 }
    requires room { vec_len script.old + length bytes.now / 128 ≤ vec_capacity script.old }
    ensures after { script.new.items ≡ script.old.items ++ entries_of (length bytes.now / 128) bytes.now }
    ensures capacity { vec_capacity script.new ≡ vec_capacity script.old }
{
    let (commands, _rest) = bytes.as_chunks::<ENTRY_BYTES>();
    for command in commands {
        script.push_reserved(decode_entry(command));
    }
}
