ghost use Rattle.std.specs.Prelude.{◌≡◌, ◌<◌, ◌≤◌, [], ◌∷◌, ◌++◌, ◌+◌, length, take, drop, IfOk, OnOk, OnErr, slice_get, slice_set, Some};
ghost use Rattle.std.specs.Borrow.{Lends, sem};
ghost use Rattle.vt_outside.specs.contracts.list.List.{the_row};

use crate::fault::OutOfMemory;
use std::alloc::Global;
use std::marker::Model;

/// A growing list, which keeps its allocator. Contracts see the list of its items.
#[derive(Debug, Drop)]
pub struct List<T> {
    items: Vec<T>,
}

impl<T> Model for List<T> {
    ghost use Rattle.std.specs.Prelude.{List as ListOf};

    ghost Value = { ListOf T };

    ghost view = { λ l. l.items.items };
}

impl<T: Drop> List<T> {
    /// Makes an empty list, which will take its memory from `alloc`. It takes none yet, so it can't fail.
    pub fn new(alloc: Global) -> List<T>
        ensures { result ≡ [] }
    {
        List {
            items: Vec::new(alloc),
        }
    }

    /// Makes an empty list, and takes memory for `count` items from `alloc` at once: so many are added without taking more. On
    /// `OutOfMemory` no list is made.
    pub fn with_room(alloc: Global, count: usize) -> Result<List<T>, OutOfMemory>
        ensures { IfOk result (λ list. list ≡ []) }
    {
        Ok(List {
            items: Vec::with_capacity(alloc, count)?,
        })
    }

    /// Takes room for `count` items more at once: so many are added without taking more. The items stay. It fails with `OutOfMemory`
    /// only where memory runs out.
    pub fn reserve(&mut self, count: usize) -> Result<(), OutOfMemory>
        ensures { self.new ≡ self.old }
    {
        self.items.reserve_exact(count)?;
        Ok(())
    }

    /// Adds `item` at the end. On `OutOfMemory` it isn't added, and the list is what it was.
    pub fn push(&mut self, item: T) -> Result<(), OutOfMemory>
        ensures ok { OnOk result (self.new ≡ self.old ++ item ∷ []) }
        ensures err { OnErr result (self.new ≡ self.old) }
    {
        self.items.push(item)?;
        Ok(())
    }

    /// Returns the number of items.
    pub fn len(&self) -> usize
        ensures { result ≡ length self.now }
    {
        self.items.len()
    }

    /// Returns the item at `place`, counted from 0, which must be below the number of items.
    pub fn get(&self, place: usize) -> &T
        requires { place < length self.now }
        ensures { slice_get self.now place ≡ Some result.now }
    {
        &self.items[place]
    }

    /// Replaces the item at `place`, counted from 0, with `item`. `place` must be below the number of items.
    pub fn set(&mut self, place: usize, item: T)
        requires { place < length self.old }
        ensures { self.new ≡ slice_set self.old place item }
    {
        self.items[place] = item;
    }

    /// Lends the item at `place`, counted from 0, to be changed. `place` must be below the number of items. What the borrower
    /// leaves there is the list's item at `place`, and the other items are what they were.
    pub fn get_mut(&mut self, place: usize) -> &mut T
        requires { place < length self.old }
        ensures* lends { sem 𝓛 (Lends (the_row T.row) T.row self.entry result (slice_set self.old place)) }
        ensures item { slice_get self.old place ≡ Some result.now }
    {
        &mut self.items[place]
    }

    /// Keeps the first `count` items and drops the rest. `count` must be at most the number of items.
    pub fn cut(&mut self, count: usize)
        requires { count ≤ length self.old }
        ensures { self.new ≡ take count self.old }
    {
        self.items.truncate(count);
    }

    /// Returns the allocator that the list takes its memory from, so that what is made beside it may take its own there too.
    pub fn allocator(&self) -> Global {
        *self.items.allocator()
    }

    /// Returns all the items, in order, as a slice.
    pub fn as_slice(&self) -> &[T]
        ensures { result.now ≡ self.now }
    {
        self.items.as_slice()
    }
}

impl<T: Copy> List<T> {
    /// Adds copies of all of `items` at the end, in order. On `OutOfMemory` none is added, and the list is what it was.
    pub fn extend(&mut self, items: &[T]) -> Result<(), OutOfMemory>
        ensures ok { OnOk result (self.new ≡ self.old ++ items.now) }
        ensures err { OnErr result (self.new ≡ self.old) }
    {
        self.items.extend_from_slice(items)?;
        Ok(())
    }

    /// Overwrites the items from `place` on, counted from 0, with copies of all of `items`. They must end within the list: its
    /// length doesn't change.
    pub fn put(&mut self, place: usize, items: &[T])
        requires { place + length items.now ≤ length self.old }
        ensures { self.new ≡ take place self.old ++ items.now ++ drop (place + length items.now) self.old }
    {
        self.items[place..place + items.len()].copy_from_slice(items);
    }

    /// Makes another list with the same items and the same allocator. On `OutOfMemory` no copy is made.
    pub fn copy(&self) -> Result<List<T>, OutOfMemory>
        ensures { IfOk result (λ list. list ≡ self.now) }
    {
        let mut items = Vec::new(self.allocator());
        items.extend_from_slice(self.items.as_slice())?;
        Ok(List { items })
    }
}
