ghost use Rattle.std.specs.Prelude.{◌≡◌, ◌<◌, ◌≤◌, [], ◌∷◌, ◌++◌, length, take, IfOk, OnOk, OnErr, slice_get, slice_set, Some};

use crate::fault::OutOfMemory;
use crate::list::List;
use std::alloc::Global;
use std::marker::Model;

/// Text, as bytes and not as characters. It keeps its allocator. Contracts see the list of its bytes.
#[derive(Debug, Drop)]
pub struct Text {
    bytes: List<u8>,
}

impl Model for Text {
    ghost use Rattle.std.specs.Prelude.{ℕ, List as ListOf};

    ghost Value = { ListOf ℕ };

    ghost view = { λ t. t.bytes };
}

impl Text {
    /// Makes an empty text, which will take its memory from `alloc`. It takes none yet, so it can't fail.
    pub fn new(alloc: Global) -> Text
        ensures { result ≡ [] }
    {
        Text {
            bytes: List::new(alloc),
        }
    }

    /// Adds `byte` at the end. On `OutOfMemory` nothing is added, and the bytes are what they were.
    pub fn push(&mut self, byte: u8) -> Result<(), OutOfMemory>
        ensures ok { OnOk result (self.new ≡ self.old ++ byte ∷ []) }
        ensures err { OnErr result (self.new ≡ self.old) }
    {
        self.bytes.push(byte)
    }

    /// Adds all of `bytes` at the end, in order. On `OutOfMemory` none is added, and the bytes are what they were.
    pub fn extend(&mut self, bytes: &[u8]) -> Result<(), OutOfMemory>
        ensures ok { OnOk result (self.new ≡ self.old ++ bytes.now) }
        ensures err { OnErr result (self.new ≡ self.old) }
    {
        self.bytes.extend(bytes)
    }

    /// Returns the number of bytes.
    pub fn len(&self) -> usize
        ensures { result ≡ length self.now }
    {
        self.bytes.len()
    }

    /// Returns the byte at `place`, counted from 0, which must be below the number of bytes.
    pub fn get(&self, place: usize) -> &u8
        requires { place < length self.now }
        ensures { slice_get self.now place ≡ Some result.now }
    {
        self.bytes.get(place)
    }

    /// Replaces the byte at `place`, counted from 0, with `byte`. `place` must be below the number of bytes.
    pub fn set(&mut self, place: usize, byte: u8)
        requires { place < length self.old }
        ensures { self.new ≡ slice_set self.old place byte }
    {
        self.bytes.set(place, byte);
    }

    /// Keeps the first `count` bytes and drops the rest. `count` must be at most the number of bytes.
    pub fn cut(&mut self, count: usize)
        requires { count ≤ length self.old }
        ensures { self.new ≡ take count self.old }
    {
        self.bytes.cut(count);
    }

    /// Returns all the bytes, in order, as a slice.
    pub fn as_slice(&self) -> &[u8]
        ensures { result.now ≡ self.now }
    {
        self.bytes.as_slice()
    }

    /// Makes another text with the same bytes and the same allocator. On `OutOfMemory` no copy is made.
    pub fn copy(&self) -> Result<Text, OutOfMemory>
        ensures { IfOk result (λ copy. copy ≡ self.now) }
    {
        Ok(Text {
            bytes: self.bytes.copy()?,
        })
    }
}
