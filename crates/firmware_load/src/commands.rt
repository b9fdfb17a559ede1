ghost use Rattle.std.specs.Prelude.{◌≡◌, ◌≢◌, ℕ, ◌+◌, ◌<◌, ◌^◌, List, [], ◌∷◌, ◌++◌, true, Some, None, IsSome};
ghost use Rattle.vt_outside.specs.Stream.{next_count};
ghost use Rattle.loader_script.specs.declared.entry.Entry.{Entry};
ghost use Rattle.vt_bytes.specs.Memory.{with_bytes};
ghost use Rattle.vt_bytes.specs.Numbers.{le_bytes};
ghost use Rattle.vt_layout.specs.Rows.{IsPointerSize};
ghost use Rattle.loader_script.specs.declared.entry.Entry.TheVariants.{Allocate, AddPointer, AddChecksum};
ghost use Rattle.command_acts.specs.Allocators.{AreZonesOf, MayAnswer};
ghost use Rattle.command_acts.specs.declared.fault.LoadFault.TheVariants.{NoRoom};
ghost use Rattle.command_acts.specs.FilesInMemory.{placed_ranges, placed_named, place_of, IsLoading};
ghost use Rattle.command_acts.specs.Placing.{ArePlacements};
ghost use Rattle.cfg_directory.specs.declared.listed.Listed.{Listed as ListedFile};
ghost use Rattle.loader_script.specs.Refusal.{info_of, AreDistinct};
ghost use Rattle.cfg_directory.specs.Files.{files_of};
ghost use Rattle.cfg_dma.specs.Reads.{started, selected_read};
ghost use Rattle.cfg_dma.specs.Transfers.{attached};
ghost use Rattle.cfg_dma.specs.Writes.{next_write};
ghost use Rattle.load_states.specs.Guarded.{descriptor_at, buffer_at};
ghost use Rattle.load_states.specs.LoadState.{listed_named};
ghost use Rattle.load_states.specs.Steps.{at_command, skips};
ghost use Rattle.load_states.specs.declared.stage.Stage.TheVariants.{AtCommand, Refused};
ghost use Rattle.load_states.specs.Runs.{request_for};
ghost use Rattle.command_acts.specs.Runs.{early_cause};
ghost use Rattle.firmware_load.specs.Inside.{load_at, progress_now, IsReady, GoesByCommand, TouchesOver};

use crate::guest::{BUFFER, Guest, NEXT_WRITE, selected_read, selected_skip};
use cfg_directory::Listed;
use command_acts::{LoadFault, PlacedFile, add_checksum, add_pointer};
use guest_memory::TooFar;
use load_states::{Reading, Stage};
use loader_script::{Cause, Entry};
use vt_outside::Name;
use zone_alloc::{Zone, ZoneAlloc};

impl Guest {
    /// Carries out the command of an index, or refuses it, and returns how far the firmware is then. `place` is asked once, for an
    /// Allocate that isn't refused. The caller says that the guest is ready for a command.
    pub(crate) fn carry_out<A: ZoneAlloc>(
        &mut self,
        entry: &Entry,
        index: u32,
        listed: &[Listed],
        place: &mut A,
    ) -> Stage
        requires ready { IsReady self.old listed.now }
        requires index { index + 1 < 2 ^ 32 }
        requires begun { (A.state place.old).begun.ready ≡ true }
        requires zones { AreZonesOf self.old.memory.memory.top (A.state place.old).begun.zones }
        requires handed { (A.state place.old).handed ≡ placed_ranges self.old.placements.placed.items }
        ensures goes { (script : List Entry) → GoesByCommand
            (MayAnswer A.state A.gives (A.state place.old).begun) index entry.now
            (load_at self.old (AtCommand index) listed.now script) (load_at self.new result listed.now script) }
        ensures placements { ArePlacements self.new.placements }
        ensures infos { self.new.placements.infos ≡ self.old.placements.infos }
        ensures handed { (A.state place.new).handed ≡ placed_ranges self.new.placements.placed.items }
        ensures unasked { request_for entry.now (load_at self.old (AtCommand index) listed.now []) ≡ None → place.new ≡ place.old }
        ensures no_room { (at : ℕ) → result ≡ Refused (NoRoom at) → (at ≡ index)
            × ((A.state place.new).refusals ≡ next_count (A.state place.old).refusals)
            × ((A.state place.new).refused ≡ request_for entry.now (load_at self.old (AtCommand index) listed.now [])) }
        ensures sound { ((at : ℕ) → result ≢ Refused (NoRoom at)) → (A.state place.new).refusals ≡ (A.state place.old).refusals }
        ensures begun { (A.state place.new).begun ≡ (A.state place.old).begun }
        ensures touches { TouchesOver [] self.old self.new }
    {
        if let Some(cause) = self.placements.refusal(entry) {
            return Stage::Refused(LoadFault::Command { index, cause });
        }
        match entry {
            Entry::Allocate { file, align, zone } => {
                self.allocate(file, *align, *zone, index, listed, place)
            }
            Entry::AddPointer {
                dest,
                src,
                offset,
                size,
            } => self.add_pointer(dest, src, *offset, *size, index),
            Entry::AddChecksum {
                file,
                offset,
                start,
                length,
            } => self.add_checksum(file, *offset, *start, *length, index),
            Entry::WritePointer {
                dest,
                dst_offset,
                ..
            } => self.skip_to(dest, *dst_offset, index, listed),
            Entry::Skipped(_) => Stage::AtCommand(index + 1),
            // A misnamed command is refused above.
            Entry::Misnamed(_) => unreachable!(),
        }
    }

    // Asks for a place for a file, and starts the read that brings the file there.
    fn allocate<A: ZoneAlloc>(
        &mut self,
        name: &Name,
        align: u32,
        zone: u8,
        index: u32,
        listed: &[Listed],
        place: &mut A,
    ) -> Stage
        requires ready { IsReady self.old listed.now }
        requires early { early_cause (Allocate name.now align zone) (progress_now self.old) ≡ None }
        requires begun { (A.state place.old).begun.ready ≡ true }
        requires zones { AreZonesOf self.old.memory.memory.top (A.state place.old).begun.zones }
        requires handed { (A.state place.old).handed ≡ placed_ranges self.old.placements.placed.items }
        ensures goes { (script : List Entry) → GoesByCommand
            (MayAnswer A.state A.gives (A.state place.old).begun) index (Allocate name.now align zone)
            (load_at self.old (AtCommand index) listed.now script) (load_at self.new result listed.now script) }
        ensures placements { ArePlacements self.new.placements }
        ensures infos { self.new.placements.infos ≡ self.old.placements.infos }
        ensures handed { (A.state place.new).handed ≡ placed_ranges self.new.placements.placed.items }
        ensures asked { request_for (Allocate name.now align zone) (load_at self.old (AtCommand index) listed.now []) ≢ None }
        ensures no_room { (at : ℕ) → result ≡ Refused (NoRoom at) → (at ≡ index)
            × ((A.state place.new).refusals ≡ next_count (A.state place.old).refusals)
            × ((A.state place.new).refused ≡ request_for (Allocate name.now align zone) (load_at self.old (AtCommand index) listed.now [])) }
        ensures sound { ((at : ℕ) → result ≢ Refused (NoRoom at)) → (A.state place.new).refusals ≡ (A.state place.old).refusals }
        ensures begun { (A.state place.new).begun ≡ (A.state place.old).begun }
        ensures touches { TouchesOver [] self.old self.new }
    {
        let file = self.listed_of(listed, name);
        match place.place(Zone::numbered(zone), file.size, align) {
            Ok(at) => {
                self.bring(file, at);
                Stage::Awaits(Reading::File(index))
            }
            Err(_) => Stage::Refused(LoadFault::NoRoom { index }),
        }
    }

    // The listed file of the name. There is one. The directory lists it at the index that it has among the placements' files.
    fn listed_of<'a>(&self, listed: &'a [Listed], name: &Name) -> &'a Listed
        requires ready { IsReady self.now listed.now }
        requires there { IsSome (listed_named listed.now name.now) }
        ensures { listed_named listed.now name.now ≡ Some result.now }
    {
        let index = self.placements.index_of(name).unwrap();
        &listed[index]
    }

    // Places a file, and starts the read of all of it, straight to its place.
    fn bring(&mut self, file: &Listed, at: u64)
        requires idle { self.old.device.flight ≡ None }
        requires room { 0 < self.old.device.spare }
        requires are { ArePlacements self.old.placements }
        requires distinct { AreDistinct self.old.placements.infos.items }
        requires there { IsSome (info_of self.old.placements.infos.items file.now.name) }
        requires fresh { placed_named self.old.placements.placed.items file.now.name ≡ None }
        ensures after { attached self.new.device self.new.memory.memory
            ≡ started descriptor_at (selected_read file.now.select) file.now.size at (attached self.old.device self.old.memory.memory) }
        ensures placed { self.new.placements.placed.items
            ≡ self.old.placements.placed.items ++ record { name = file.now.name; place = at; size = file.now.size } ∷ [] }
        ensures are { ArePlacements self.new.placements }
        ensures infos { self.new.placements.infos ≡ self.old.placements.infos }
        ensures touches { TouchesOver [] self.old self.new }
    {
        self.start(selected_read(file.select), file.size, at);
        self.placements.put(PlacedFile {
            name: file.name,
            place: at,
            size: u64::from(file.size),
        });
    }

    // Adds the place of `src` to a number in `dest`, or refuses to where the sum doesn't fit.
    fn add_pointer(&mut self, dest: &Name, src: &Name, offset: u32, size: u8, index: u32) -> Stage
        requires are { ArePlacements self.old.placements }
        requires distinct { AreDistinct self.old.placements.infos.items }
        requires loading { IsLoading self.old.memory.memory.top (files_of self.old.device.items) self.old.placements.placed.items }
        requires early { early_cause (AddPointer dest.now src.now offset size) (progress_now self.old) ≡ None }
        requires index { index + 1 < 2 ^ 32 }
        ensures goes { (listed : List ListedFile) (script : List Entry) →
            load_at self.new result listed script
            ≡ at_command index (Some (AddPointer dest.now src.now offset size)) None (load_at self.old (AtCommand index) listed script) }
        ensures placements { self.new.placements ≡ self.old.placements }
        ensures roomy { (at : ℕ) → result ≢ Refused (NoRoom at) }
        ensures touches { TouchesOver [] self.old self.new }
    {
        match add_pointer(&mut self.memory, &self.placements, dest, src, offset, size) {
            Ok(()) => Stage::AtCommand(index + 1),
            Err(TooFar) => Stage::Refused(LoadFault::Command {
                index,
                cause: Cause::TooFar,
            }),
        }
    }

    // Starts the skip to an offset in the file `dest`.
    fn skip_to(&mut self, dest: &Name, offset: u32, index: u32, listed: &[Listed]) -> Stage
        requires ready { IsReady self.old listed.now }
        requires there { IsSome (listed_named listed.now dest.now) }
        ensures goes { (script : List Entry) →
            load_at self.new result listed.now script
            ≡ skips index offset (listed_named listed.now dest.now) (load_at self.old (AtCommand index) listed.now script) }
        ensures placements { self.new.placements ≡ self.old.placements }
        ensures roomy { (at : ℕ) → result ≢ Refused (NoRoom at) }
        ensures touches { TouchesOver [] self.old self.new }
    {
        let file = self.listed_of(listed, dest);
        self.start(selected_skip(file.select), offset, 0);
        Stage::AwaitsSkip(index)
    }

    /// Puts the number of a WritePointer, the place of the file `src` and an offset in it, into the buffer, and starts its write. The
    /// file is placed, and the number fits in `size` bytes.
    pub(crate) fn write_number(&mut self, src: &Name, src_offset: u32, size: u8)
        requires idle { self.old.device.flight ≡ None }
        requires room { 0 < self.old.device.spare }
        requires are { ArePlacements self.old.placements }
        requires distinct { AreDistinct self.old.placements.infos.items }
        requires placed { IsSome (placed_named self.old.placements.placed.items src.now) }
        requires size { IsPointerSize size }
        requires fits { place_of self.old.placements.placed.items src.now + src_offset < 256 ^ size }
        ensures after { attached self.new.device self.new.memory.memory
            ≡ started descriptor_at next_write size buffer_at (attached self.old.device
            (with_bytes self.old.memory.memory buffer_at (le_bytes size (place_of self.old.placements.placed.items src.now + src_offset)))) }
        ensures placements { self.new.placements ≡ self.old.placements }
        ensures touches { TouchesOver [] self.old self.new }
    {
        let number = self.placements.place_of(src) + u64::from(src_offset);
        self.put_number(size, number);
        self.start(NEXT_WRITE, u32::from(size), BUFFER);
    }

    // Subtracts the sum of a range of a file from a byte of it.
    fn add_checksum(
        &mut self,
        name: &Name,
        offset: u32,
        start: u32,
        length: u32,
        index: u32,
    ) -> Stage
        requires are { ArePlacements self.old.placements }
        requires distinct { AreDistinct self.old.placements.infos.items }
        requires loading { IsLoading self.old.memory.memory.top (files_of self.old.device.items) self.old.placements.placed.items }
        requires early { early_cause (AddChecksum name.now offset start length) (progress_now self.old) ≡ None }
        requires index { index + 1 < 2 ^ 32 }
        ensures goes { (listed : List ListedFile) (script : List Entry) →
            load_at self.new result listed script
            ≡ at_command index (Some (AddChecksum name.now offset start length)) None (load_at self.old (AtCommand index) listed script) }
        ensures placements { self.new.placements ≡ self.old.placements }
        ensures roomy { (at : ℕ) → result ≢ Refused (NoRoom at) }
        ensures touches { TouchesOver [] self.old self.new }
    {
        add_checksum(
            &mut self.memory,
            &self.placements,
            name,
            offset,
            start,
            length,
        );
        Stage::AtCommand(index + 1)
    }
}
