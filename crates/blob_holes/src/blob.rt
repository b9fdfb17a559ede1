ghost use Rattle.std.specs.Prelude.{◌≡◌, ◌+◌, ◌<◌, ◌^◌, [], ◌∷◌, ◌++◌, length, IfOk, OnOk, OnErr, IsTrue, slice_set};
ghost use Rattle.std.specs.Int.{is_power_of_two};
ghost use Rattle.vt_bytes.specs.Numbers.{le_bytes};
ghost use Rattle.vt_bytes.specs.Parts.{put_at};
ghost use Rattle.vt_layout.specs.Rows.{IsRow, width_of, bytes_of};
ghost use Rattle.blob_holes.specs.Blob.{BlobState, IsBlob, FitsPointer, FitsSum, next_place, aligned};

use crate::hole::{PointerHole, SumHole};
use std::alloc::Global;
use std::marker::Model;
use vt_layout::{Row, put_row};
use vt_outside::{Bytes, List, Name, OutOfMemory};

/// A file with holes that grows at its end.
#[derive(Drop)]
pub struct Blob {
    alloc: Global,
    bytes: Bytes,
    pointers: List<PointerHole>,
    sums: List<SumHole>,
}

impl Model for Blob {
    ghost use Rattle.blob_holes.specs.Blob.{BlobState, IsBlob};

    ghost Value = { BlobState };

    ghost view = { λ b. record { bytes = b.bytes; pointers = b.pointers; sums = b.sums } };

    ghost invariant = { λ b. IsBlob (record { bytes = b.bytes; pointers = b.pointers; sums = b.sums }) };
}

/// The parts of a blob.
#[derive(Drop)]
pub struct Parts {
    /// The file, with each pointer's offset in its field and zeros in the sums' bytes.
    pub bytes: Bytes,
    /// The pointer holes, in the order in which they were made.
    pub pointers: List<PointerHole>,
    /// The sum holes, in the order in which they were made.
    pub sums: List<SumHole>,
}

impl Blob {
    /// Makes an empty file with no holes, which will take its memory from `alloc`. It takes none yet.
    pub fn new(alloc: Global) -> Blob
        ensures { result ≡ record { bytes = []; pointers = []; sums = [] } }
    {
        Blob {
            alloc,
            bytes: Bytes::new(alloc),
            pointers: List::new(alloc),
            sums: List::new(alloc),
        }
    }

    /// Returns the allocator that the file takes memory from.
    pub fn alloc(&self) -> Global {
        self.alloc
    }

    /// Returns the size of the file in bytes.
    pub fn len(&self) -> u32
        ensures value { result ≡ length self.now.bytes }
        ensures blob { IsBlob self.now }
    {
        self.bytes.len() as u32
    }

    /// Appends `bytes`, and returns the offset in the file at which they stand. The file must stay below 2^32 bytes. It fails
    /// with `OutOfMemory` only where memory runs out, and then the file is unchanged.
    pub fn append(&mut self, bytes: &[u8]) -> Result<u32, OutOfMemory>
        requires { length self.old.bytes + length bytes.now < 2 ^ 32 }
        ensures place { IfOk result (λ place. place ≡ length self.old.bytes) }
        ensures ok { OnOk result (self.new ≡ record self.old { bytes = self.old.bytes ++ bytes.now }) }
        ensures err { OnErr result (self.new ≡ self.old) }
    {
        let place = self.bytes.len() as u32;
        self.bytes.extend(bytes)?;
        Ok(place)
    }

    /// Appends the bytes that a row is written as. It makes no hole.
    pub(crate) fn append_bytes_of(&mut self, row: &Row) -> Result<(), OutOfMemory>
        requires row { IsRow row.now }
        requires short { length self.old.bytes + width_of row.now < 2 ^ 32 }
        ensures ok { OnOk result (self.new ≡ record self.old { bytes = self.old.bytes ++ bytes_of row.now }) }
        ensures err { OnErr result (self.new ≡ self.old) }
    {
        put_row(&mut self.bytes, row)
    }

    /// Appends zeros up to a multiple of `to` bytes, a power of two, or none where the file ends at one. The file must stay
    /// below 2^32 bytes. It fails with `OutOfMemory` only where memory runs out, and then the file is unchanged.
    pub fn align(&mut self, to: u32) -> Result<(), OutOfMemory>
        requires power { IsTrue (is_power_of_two to) }
        requires short { next_place to self.old < 2 ^ 32 }
        ensures ok { OnOk result (self.new ≡ aligned to self.old) }
        ensures err { OnErr result (self.new ≡ self.old) }
    {
        let len = self.bytes.len() as u32;
        let count = len.next_multiple_of(to) - len;
        let zeros = vec![in self.alloc; 0; count as usize]?;
        self.bytes.extend(&zeros)?;
        Ok(())
    }

    /// Makes a hole of the `size` bytes at the offset `at` of the file, to which the address of the file `target` is added
    /// later, and writes `offset` there, low byte first. `size` must be 1, 2, 4 or 8, and `offset`, a number of bytes from the
    /// target's start, must fit in it. The field must lie in the file, share no byte with another pointer's field, and hold no
    /// sum's byte. It may lie in the range of a sum. It fails with `OutOfMemory` only where memory runs out, and then the file
    /// and its holes are unchanged.
    pub fn hole_pointer(
        &mut self,
        at: u32,
        size: u8,
        target: Name,
        offset: u32,
    ) -> Result<(), OutOfMemory>
        requires fits { FitsPointer self.old (record { at = at; size = size; target = target }) }
        requires offset { offset < 256 ^ size }
        ensures ok { OnOk result (self.new ≡ record self.old {
          bytes = put_at self.old.bytes at (le_bytes size offset);
          pointers = self.old.pointers ++ record { at = at; size = size; target = target } ∷ [];
        }) }
        ensures err { OnErr result (self.new ≡ self.old) }
    {
        self.pointers.push(PointerHole { at, size, target })?;
        let bytes = u64::from(offset).to_le_bytes();
        self.bytes.put(at as usize, &bytes[..usize::from(size)]);
        Ok(())
    }

    /// Makes a hole of the byte at the offset `at` of the file, which later makes the `length` bytes from the offset `start` on
    /// sum to zero, and writes 0 there. The range must lie in the file and hold the byte. The byte must be no other sum's, and
    /// lie in no pointer's field. It fails with `OutOfMemory` only where memory runs out, and then the file and its holes are
    /// unchanged.
    pub fn hole_sum(&mut self, at: u32, start: u32, length: u32) -> Result<(), OutOfMemory>
        requires { FitsSum self.old (record { at = at; start = start; length = length }) }
        ensures ok { OnOk result (self.new ≡ record self.old {
          bytes = slice_set self.old.bytes at 0;
          sums = self.old.sums ++ record { at = at; start = start; length = length } ∷ [];
        }) }
        ensures err { OnErr result (self.new ≡ self.old) }
    {
        self.sums.push(SumHole { at, start, length })?;
        self.bytes.set(at as usize, 0);
        Ok(())
    }

    /// Returns the bytes of the file and its holes, and ends the blob. It takes no memory.
    pub fn finish(self) -> Parts
        ensures bytes { result.bytes ≡ self.bytes }
        ensures pointers { result.pointers ≡ self.pointers }
        ensures sums { result.sums ≡ self.sums }
        ensures blob { IsBlob self }
    {
        let Blob {
            alloc: _,
            bytes,
            pointers,
            sums,
        } = self;
        Parts {
            bytes,
            pointers,
            sums,
        }
    }
}
