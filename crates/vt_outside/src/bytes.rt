ghost use Rattle.std.specs.Prelude.{◌≡◌, ◌<◌, ◌≤◌, [], ◌∷◌, ◌++◌, ◌+◌, length, take, drop, IfOk, OnOk, OnErr, slice_get, slice_set, Some};

use crate::fault::OutOfMemory;
use crate::list::List;
use std::alloc::Global;
use std::marker::Model;

/// A growing list of bytes, which keeps its allocator. Contracts see the list.
#[derive(Debug, Drop)]
pub struct Bytes {
    bytes: List<u8>,
}

impl Model for Bytes {
    ghost use Rattle.std.specs.Prelude.{ℕ, List as ListOf};

    ghost Value = { ListOf ℕ };

    ghost view = { λ t. t.bytes };
}

impl Bytes {
    /// Makes an empty list of bytes, which will take its memory from `alloc`. It takes none yet, so it can't fail.
    pub fn new(alloc: Global) -> Bytes
        ensures { result ≡ [] }
    {
        Bytes {
            bytes: List::new(alloc),
        }
    }

    /// Makes an empty list of bytes, and takes memory for `count` bytes from `alloc` at once: so many are added without taking more.
    /// On `OutOfMemory` no list is made.
    pub fn with_room(alloc: Global, count: usize) -> Result<Bytes, OutOfMemory>
        ensures { IfOk result (λ bytes. bytes ≡ []) }
    {
        Ok(Bytes {
            bytes: List::with_room(alloc, count)?,
        })
    }

    /// Takes room for `count` bytes more at once: so many are added without taking more. The bytes stay. It fails with `OutOfMemory`
    /// only where memory runs out.
    pub fn reserve(&mut self, count: usize) -> Result<(), OutOfMemory>
        ensures { self.new ≡ self.old }
    {
        self.bytes.reserve(count)
    }

    /// Adds `byte` at the end. On `OutOfMemory` nothing is added, and the bytes are what they were.
    pub fn push(&mut self, byte: u8) -> Result<(), OutOfMemory>
        ensures ok { OnOk result (self.new ≡ self.old ++ byte ∷ []) }
        ensures err { OnErr result (self.new ≡ self.old) }
    {
        self.bytes.push(byte)
    }

    /// Adds all of `bytes` at the end, in order. On `OutOfMemory` none is added, and the bytes are what they were.
    pub fn extend(&mut self, bytes: &[u8]) -> Result<(), OutOfMemory>
        ensures ok { OnOk result (self.new ≡ self.old ++ bytes.now) }
        ensures err { OnErr result (self.new ≡ self.old) }
    {
        self.bytes.extend(bytes)
    }

    /// Returns the number of bytes.
    pub fn len(&self) -> usize
        ensures { result ≡ length self.now }
    {
        self.bytes.len()
    }

    /// Returns the allocator that the bytes take their memory from, so that what is made beside them may take its own there too.
    pub fn allocator(&self) -> Global {
        self.bytes.allocator()
    }

    /// Returns the byte at `place`, counted from 0, which must be below the number of bytes.
    pub fn get(&self, place: usize) -> &u8
        requires { place < length self.now }
        ensures { slice_get self.now place ≡ Some result.now }
    {
        self.bytes.get(place)
    }

    /// Replaces the byte at `place`, counted from 0, with `byte`. `place` must be below the number of bytes.
    pub fn set(&mut self, place: usize, byte: u8)
        requires { place < length self.old }
        ensures { self.new ≡ slice_set self.old place byte }
    {
        self.bytes.set(place, byte);
    }

    /// Overwrites the bytes from `place` on, counted from 0, with all of `bytes`. They must end within the list: its length
    /// doesn't change.
    pub fn put(&mut self, place: usize, bytes: &[u8])
        requires { place + length bytes.now ≤ length self.old }
        ensures { self.new ≡ take place self.old ++ bytes.now ++ drop (place + length bytes.now) self.old }
    {
        self.bytes.put(place, bytes);
    }

    /// Keeps the first `count` bytes and drops the rest. `count` must be at most the number of bytes.
    pub fn cut(&mut self, count: usize)
        requires { count ≤ length self.old }
        ensures { self.new ≡ take count self.old }
    {
        self.bytes.cut(count);
    }

    /// Returns all the bytes, in order, as a slice.
    pub fn as_slice(&self) -> &[u8]
        ensures { result.now ≡ self.now }
    {
        self.bytes.as_slice()
    }

    /// Makes another list of bytes with the same bytes and the same allocator. On `OutOfMemory` no copy is made.
    pub fn copy(&self) -> Result<Bytes, OutOfMemory>
        ensures { IfOk result (λ copy. copy ≡ self.now) }
    {
        Ok(Bytes {
            bytes: self.bytes.copy()?,
        })
    }
}
