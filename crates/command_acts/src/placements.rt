ghost use Rattle.std.specs.Prelude.{◌≡◌, ◌++◌, ◌<◌, ◌^◌, [], ◌∷◌, length, replicate, None, IfOk, IsSome};
ghost use Rattle.std.specs.List.{position};
ghost use Rattle.std.specs.Str.{bytes_eq};
ghost use Rattle.cfg_directory.specs.Items.{IsItems};
ghost use Rattle.loader_script.specs.Run.{infos_of};
ghost use Rattle.cfg_directory.specs.Files.{files_of};
ghost use Rattle.loader_script.specs.Refusal.{info_of, causes_of, first_cause, AreDistinct, EndLow};
ghost use Rattle.command_acts.specs.Placing.{ArePlacements, places_in};
ghost use Rattle.command_acts.specs.FilesInMemory.{placed_named, place_of};

use crate::placed::PlacedFile;
use cfg_directory::Item;
use loader_script::{Cause, Entry, FileInfo, NameOrder, refusal};
use std::alloc::Global;
use vt_outside::{Name, OutOfMemory};

/// Keeps which files of a device are placed, and where.
#[derive(Drop)]
pub struct Placements {
    /// The files, in the order of the directory.
    pub infos: Vec<FileInfo>,
    /// The guest address at which each of them is placed, if it is, in the same order.
    pub places: Vec<Option<u64>>,
    /// Those that are placed, in the order in which they were. It has room for all files.
    pub placed: Vec<PlacedFile>,
    /// The order of the files' names.
    pub order: NameOrder,
}

impl Placements {
    /// Makes the placements of these files, none of which is placed yet. Room for all of them comes from `alloc`. Returns
    /// `OutOfMemory` when memory runs out.
    pub fn begin(alloc: Global, infos: Vec<FileInfo>) -> Result<Placements, OutOfMemory>
        ensures are { IfOk result ArePlacements }
        ensures infos { IfOk result (λ p. p.infos.items ≡ infos.items) }
        ensures none { IfOk result (λ p. p.placed.items ≡ []) }
    {
        let places = nowhere(alloc, infos.len())?;
        let placed = Vec::with_capacity(alloc, infos.len())?;
        let order = NameOrder::of(alloc, &infos)?;
        Ok(Placements {
            infos,
            places,
            placed,
            order,
        })
    }

    /// Returns the first cause to refuse `entry` that can be told without the bytes in memory, or `None`. The names of the files
    /// differ, and each placed file ends at or below 4 GiB. An AddPointer for which it returns `None` is refused still where its
    /// sum doesn't fit, which `add_pointer` tells. It takes no memory.
    pub fn refusal(&self, entry: &Entry) -> Option<Cause>
        requires are { ArePlacements self.now }
        requires distinct { AreDistinct self.now.infos.items }
        requires low { EndLow self.now.infos.items (places_in self.now.placed.items self.now.infos.items) }
        ensures { result ≡ first_cause (causes_of entry.now self.now.infos.items (places_in self.now.placed.items self.now.infos.items)) }
    {
        refusal(entry, &self.infos, &self.places, &self.order)
    }

    /// Returns the index of the file `name` in the directory, or `None` where no file has that name. The names of the files differ. It
    /// takes no memory.
    pub fn index_of(&self, name: &Name) -> Option<usize>
        requires are { ArePlacements self.now }
        requires distinct { AreDistinct self.now.infos.items }
        ensures { result ≡ position (λ info. bytes_eq info.name name.now) self.now.infos.items }
    {
        self.order.index_of(name)
    }

    /// Returns the guest address at which the file `name` is placed. It is placed, and the names of the files differ. It takes no memory.
    pub fn place_of(&self, name: &Name) -> u64
        requires are { ArePlacements self.now }
        requires distinct { AreDistinct self.now.infos.items }
        requires placed { IsSome (placed_named self.now.placed.items name.now) }
        ensures { result ≡ place_of self.now.placed.items name.now }
    {
        let index = self.index_of(name).unwrap();
        self.places[index].unwrap()
    }

    /// Notes that `file` is placed. It is one of the files, whose names differ, and none of that name was placed. Behind those that
    /// were placed it is then the last one. It takes no memory.
    pub fn put(&mut self, file: PlacedFile)
        requires are { ArePlacements self.old }
        requires distinct { AreDistinct self.old.infos.items }
        requires there { IsSome (info_of self.old.infos.items file.name) }
        requires fresh { placed_named self.old.placed.items file.name ≡ None }
        ensures are { ArePlacements self.new }
        ensures infos { self.new.infos ≡ self.old.infos }
        ensures placed { self.new.placed.items ≡ self.old.placed.items ++ file ∷ [] }
    {
        let index = self.index_of(&file.name).unwrap();
        self.places[index] = Some(file.place);
        self.placed.push_reserved(file);
    }

    /// Notes that no file is placed any more. It takes no memory.
    pub fn clear(&mut self)
        requires are { ArePlacements self.old }
        ensures are { ArePlacements self.new }
        ensures infos { self.new.infos ≡ self.old.infos }
        ensures none { self.new.placed.items ≡ [] }
    {
        put_nowhere(&mut self.places);
        self.placed.clear();
    }
}

/// Lists what the causes of a refusal need to know of the files of a device: the name, the size and the writable mark of each item,
/// in their order. The items are a device's, as `Items::all` lends them. Room for the list comes from `alloc`. Returns `OutOfMemory`
/// when memory runs out.
pub fn infos_of(alloc: Global, items: &[Item]) -> Result<Vec<FileInfo>, OutOfMemory>
    requires { IsItems items.now }
    ensures { IfOk result (λ infos. infos.items ≡ infos_of (files_of items.now)) }
{
    let mut infos = Vec::with_capacity(alloc, items.len())?;
    for item in items {
        infos.push_reserved(info_of(item));
    }
    Ok(infos)
}

// What they need to know of one file.
fn info_of(item: &Item) -> FileInfo
    requires { length item.now.bytes < 2 ^ 32 }
    ensures { result ≡ record { name = item.now.name; size = length item.now.bytes; writable = item.now.writable } }
{
    FileInfo {
        name: item.name,
        size: item.bytes.len() as u32,
        writable: item.writable,
    }
}

// Puts each file nowhere.
fn put_nowhere(places: &mut Vec<Option<u64>>)
    ensures { places.new.items ≡ replicate (length places.old.items) None }
{
    let mut index = 0;
    while index < places.len() {
        places[index] = None;
        index += 1;
    }
}

// So many places of files that are placed nowhere.
fn nowhere(alloc: Global, len: usize) -> Result<Vec<Option<u64>>, OutOfMemory>
    ensures { IfOk result (λ places. places.items ≡ replicate len None) }
{
    Ok(vec![in alloc; None; len]?)
}
