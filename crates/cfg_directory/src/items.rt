ghost use Rattle.std.specs.Prelude.{◌≡◌, ◌≢◌, ◌==◌, ◌+◌, ◌<◌, ◌≤◌, [], ◌∷◌, ◌++◌, length, Some, None, true, IsSomeAnd, IfOk, OnOk, OnErr};
ghost use Rattle.std.specs.Option.{option_copied};
ghost use Rattle.std.specs.List.{position};
ghost use Rattle.cfg_directory.specs.Items.{IsItems, HasNoName, HasNoSelect, IsFileSelect, AreNumberedFrom, total_size, file_limit};
ghost use Rattle.cfg_directory.specs.Items.{bytes_limit, named, selected, with_bytes_at, with_bytes_behind};
ghost use Rattle.cfg_directory.specs.Restored.{AreKept, kept_bytes, kept_of, restored, restored_item};

use crate::item::Item;
use std::alloc::Global;
use std::marker::Model;
use vt_outside::{Bytes, List, Name, OutOfMemory};

// The selector of the first file, where selectors are given in order.
const FIRST_SELECT: u16 = 0x20;

/// The files of a device, in the order in which they were added.
#[derive(Debug, Drop)]
pub struct Items {
    items: List<Item>,
}

impl Model for Items {
    ghost use Rattle.std.specs.Prelude.{List as ListOf};
    ghost use Rattle.cfg_directory.specs.declared.item.Item.{Item};
    ghost use Rattle.cfg_directory.specs.Items.{IsItems};

    ghost Value = { ListOf Item };

    ghost view = { λ i. i.items };

    ghost invariant = { λ i. IsItems i.items };
}

impl Items {
    /// Makes a device of no files, which will take its memory from `alloc`. It takes none yet.
    pub fn new(alloc: Global) -> Items
        ensures { result ≡ [] }
    {
        Items {
            items: List::new(alloc),
        }
    }

    /// Makes a device of the files in a list.
    pub(crate) fn of(items: List<Item>) -> Items
        requires { IsItems items }
        ensures { result ≡ items }
    {
        Items { items }
    }

    /// Adds a file last, with the selector 0x20 plus its index, and returns that selector. No file may have the name `name`
    /// yet, and each one must have the selector 0x20 plus its index. There must be fewer than 1,024 files yet, and with
    /// `bytes`, the contents, they may have at most 67,108,864 bytes. `writable` says whether the guest may write the file. It
    /// fails with `OutOfMemory` only where memory runs out, and then the files are unchanged.
    pub fn add(&mut self, name: Name, writable: bool, bytes: Bytes) -> Result<u16, OutOfMemory>
        requires name { HasNoName self.old name }
        requires numbered { AreNumberedFrom 0x20 self.old }
        requires few { length self.old < file_limit }
        requires small { total_size self.old + length bytes ≤ bytes_limit }
        ensures select { IfOk result (λ select. select ≡ 0x20 + length self.old) }
        ensures ok { IfOk result (λ select. self.new ≡ self.old ++ record { name = name; select = select; writable = writable; bytes = bytes } ∷ []) }
        ensures err { OnErr result (self.new ≡ self.old) }
    {
        let select = FIRST_SELECT + self.items.len() as u16;
        self.add_at(name, select, writable, bytes)?;
        Ok(select)
    }

    /// Adds a file last, with the selector `select`, from 0x20 to 0x3FFF. No file may have the name `name` or the selector yet.
    /// There must be fewer than 1,024 files yet, and with `bytes`, the contents, they may have at most 67,108,864 bytes.
    /// `writable` says whether the guest may write the file. It fails with `OutOfMemory` only where memory runs out, and then
    /// the files are unchanged.
    pub fn add_at(
        &mut self,
        name: Name,
        select: u16,
        writable: bool,
        bytes: Bytes,
    ) -> Result<(), OutOfMemory>
        requires name { HasNoName self.old name }
        requires select { IsFileSelect select × HasNoSelect self.old select }
        requires few { length self.old < file_limit }
        requires small { total_size self.old + length bytes ≤ bytes_limit }
        ensures ok { OnOk result (self.new ≡ self.old ++ record { name = name; select = select; writable = writable; bytes = bytes } ∷ []) }
        ensures err { OnErr result (self.new ≡ self.old) }
    {
        self.items.push(Item {
            name,
            select,
            writable,
            bytes,
        })
    }

    /// Returns the file with the name `name`, or `None`.
    pub fn find(&self, name: &Name) -> Option<&Item>
        ensures { option_copied result ≡ named self.now name.now }
    {
        self.items.as_slice().iter().find(|item| item.name == *name)
    }

    /// Returns the file with the selector `select`, or `None`.
    pub fn by_select(&self, select: u16) -> Option<&Item>
        ensures { option_copied result ≡ selected self.now select }
    {
        self.items
            .as_slice()
            .iter()
            .find(|item| item.select == select)
    }

    /// Writes `bytes` into the file with the selector `select`, from `offset` on, in bytes from the file's start. There must be
    /// such a file, and they must fit in it, so its size stays. Each other byte stays. It takes no memory, and doesn't test
    /// whether the guest may write the file.
    pub fn write_at(&mut self, select: u16, offset: u32, bytes: &[u8])
        requires { IsSomeAnd (selected self.old select) (λ item. offset + length bytes.now ≤ length item.bytes) }
        ensures { self.new ≡ with_bytes_at self.old select offset bytes.now }
    {
        if let Some(place) = index_of(self.items.as_slice(), select) {
            let item = self.items.get_mut(place);
            item.bytes.put(offset as usize, bytes);
        }
    }

    /// Adds `bytes` at the end of the file with the selector `select`. There must be such a file, and with `bytes` the files may have at most
    /// 67,108,864 bytes. It doesn't test whether the guest may write the file. It fails with `OutOfMemory` only where memory runs out, and
    /// then the files are unchanged.
    pub fn extend(&mut self, select: u16, bytes: &[u8]) -> Result<(), OutOfMemory>
        requires there { selected self.old select ≢ None }
        requires small { total_size self.old + length bytes.now ≤ bytes_limit }
        ensures ok { OnOk result (self.new ≡ with_bytes_behind self.old select bytes.now) }
        ensures err { OnErr result (self.new ≡ self.old) }
    {
        match index_of(self.items.as_slice(), select) {
            Some(place) => self.items.get_mut(place).bytes.extend(bytes),
            None => Ok(()),
        }
    }

    /// Returns a copy of the files, with all memory from `alloc`. It fails with `OutOfMemory` only where memory runs out.
    pub fn copy(&self, alloc: Global) -> Result<Items, OutOfMemory>
        ensures { IfOk result (λ copy. copy ≡ self.now) }
    {
        let items = self.items.as_slice();
        let mut copies = List::with_room(alloc, items.len())?;
        for item in items {
            copies.push(copy_of(alloc, item)?)?;
        }
        Ok(Items::of(copies))
    }

    /// Returns what each file that may be written holds, and no bytes for each other one, in the files' order: what `restore`
    /// puts back. All memory comes from `alloc`. It fails with `OutOfMemory` only where memory runs out.
    pub fn kept(&self, alloc: Global) -> Result<List<Bytes>, OutOfMemory>
        ensures kept { IfOk result (λ kept. kept ≡ kept_of self.now) }
        ensures may_be_restored { IfOk result (AreKept self.now) }
    {
        let items = self.items.as_slice();
        let mut kept = List::with_room(alloc, items.len())?;
        for item in items {
            kept.push(kept_of(alloc, item)?)?;
        }
        Ok(kept)
    }

    /// Puts back what `kept` gave, in files that may be written. Each other one stays. There must be bytes for each file, as many as
    /// it has where it may be written. It takes no memory.
    pub fn restore(&mut self, kept: &[Bytes])
        requires { AreKept self.old kept.now }
        ensures { self.new ≡ restored self.old kept.now }
    {
        restore_all(&mut self.items, kept);
    }

    /// Lends the files, in the order in which they were added.
    pub fn all(&self) -> &[Item]
        ensures items { result.now ≡ self.now }
        ensures kept { IsItems self.now }
    {
        self.items.as_slice()
    }
}

// The index of the file of a selector.
fn index_of(items: &[Item], select: u16) -> Option<usize>
    ensures { result ≡ position (λ item. item.select == select) items.now }
{
    items.iter().position(|item| item.select == select)
}

// A copy of an item.
fn copy_of(alloc: Global, item: &Item) -> Result<Item, OutOfMemory>
    ensures { IfOk result (λ copy. copy ≡ item.now) }
{
    let mut bytes = Bytes::new(alloc);
    bytes.extend(item.bytes.as_slice())?;
    Ok(Item {
        name: item.name,
        select: item.select,
        writable: item.writable,
        bytes,
    })
}

// What an item holds that may be written, and no bytes of any other.
fn kept_of(alloc: Global, item: &Item) -> Result<Bytes, OutOfMemory>
    ensures { IfOk result (λ bytes. bytes ≡ kept_bytes item.now) }
{
    let bytes = if item.writable {
        item.bytes.as_slice()
    } else {
        &[]
    };
    let mut kept = Bytes::new(alloc);
    kept.extend(bytes)?;
    Ok(kept)
}

// Puts these bytes back in items that may be written.
fn restore_all(items: &mut List<Item>, kept: &[Bytes])
    requires { AreKept items.old kept.now }
    ensures { items.new ≡ restored items.old kept.now }
{
    let mut place = 0;
    while place < kept.len() {
        restore_item(items.get_mut(place), &kept[place]);
        place += 1;
    }
}

// Puts these bytes back where the item may be written.
fn restore_item(item: &mut Item, kept: &Bytes)
    requires { item.old.writable ≡ true → length kept.now ≡ length item.old.bytes }
    ensures { item.new ≡ restored_item item.old kept.now }
{
    if item.writable {
        item.bytes.put(0, kept.as_slice());
    }
}
