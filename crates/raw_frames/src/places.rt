//! The block behind its pointer, and all that is `unsafe`.
//!
//! The block is a row of places, one for each frame. A place is empty or holds a frame, and `Places` knows of each which it is: it owns
//! the bytes of a frame, and of an empty place the room for them. So a place is written only while it is empty, and read only while it
//! holds a frame, and both follow from what a caller shows of the list `slots`. The pointer itself, `Start`, owns nothing and is copied.
//! `Claim` is what the allocator wants to see when the block goes back.
//!
//! Five functions touch the pointer, and a proof by hand follows each: `take` makes a row of empty places of the block, `put` fills one,
//! `see` lends one, `part_mut` lends a part of one to be changed, and `give_back` makes one block of all places again. Their
//! callers see clauses on lists alone. None checks anything when it runs.
ghost use Rattle.std.specs.Prelude.{◌≡◌, ℕ, ◌+◌, ◌*◌, ◌^◌, ◌<◌, ◌≤◌, List, Option, Some, None, length, replicate, get_or, slice_set, IfOk};
ghost use Rattle.std.specs.Borrow.{sem};
ghost use denote.RawPtr.{Ptr};
ghost use Rattle.vt_bytes.specs.Parts.{part};
ghost use Rattle.raw_frames.specs.Ownership.{block_owns, block_lends, claim_owns};
ghost use Rattle.raw_frames.specs.Places.{IsFilled};
ghost use Rattle.raw_frames.specs.Windows.{frame_at};

use crate::frames::FRAME_BYTES;
use std::alloc::{AllocError, Allocator};
use std::marker::{Model, PhantomData};
use std::slice;

/// Points to the first place. It owns nothing.
#[derive(Clone, Copy)]
pub struct Start {
    first: *mut [u8; FRAME_BYTES],
}

/// Owns what lies in the places from `at` on. It takes no bytes: what it knows is seen by proofs alone.
pub struct Places {
    ghost at: { Ptr },
    ghost slots: { List (Option (List ℕ)) },
}

impl Model for Places {
    ghost also_owns = { λ places. block_owns places.at places.slots };

    ghost also_shares = { λ places _ κ. block_lends places.at places.slots κ };
}

/// Permits to give the block of `count` places at `at` back to `alloc`. It takes no bytes.
pub struct Claim<A: Allocator> {
    by: PhantomData<*const A>,
    ghost at: { Ptr },
    ghost count: { ℕ },
    ghost alloc: { A },
}

impl<A: Allocator> Model for Claim<A> {
    ghost also_owns = { λ claim. claim_owns (A.dealloc_token claim.alloc) claim.at claim.count };
}

/// Takes a block of `count` places from `alloc`, which are all empty, and writes none of it. Fails where `alloc` has no memory.
pub(crate) fn take<A: Allocator>(
    alloc: &A,
    count: usize,
) -> Result<(Start, Places, Claim<A>), AllocError>
    requires { count * 4096 < 2 ^ 63 }
    ensures { IfOk result (λ r. (r.1.at ≡ r.0.first) × (r.1.slots ≡ replicate count None)
        × (r.2.at ≡ r.0.first) × (r.2.count ≡ count) × (r.2.alloc ≡ alloc.now)) }
{
    // A byte may lie anywhere, so the block is aligned to one byte.
    match alloc.allocate(count * FRAME_BYTES, 1) {
        Ok(block) => {
            let start = Start {
                first: block as *mut [u8; FRAME_BYTES],
            };
            Ok((start, Places {}, Claim { by: PhantomData }))
        }
        Err(error) => Err(error),
    }
}

/// Gives the block of `count` places back to `alloc`, which it was taken from. Places that hold a frame are given back as they are: bytes
/// need no drop.
pub(crate) fn give_back<A: Allocator>(
    alloc: &A,
    start: Start,
    count: usize,
    places: Places,
    claim: Claim<A>,
)
    requires { (places.at ≡ start.first) × (length places.slots ≡ count) × (claim.at ≡ start.first) × (claim.count ≡ count) × (claim.alloc ≡ alloc.now) }
{
    let Places {} = places;
    let Claim { by: _ } = claim;
    unsafe {
        alloc.deallocate(start.first as *mut u8, count * FRAME_BYTES, 1);
    }
}

impl Places {
    ghost use Rattle.raw_frames.specs.WindowLends.{lends_part};

    /// Writes `bytes` to the place at `index`, which is empty.
    pub(crate) fn put(&mut self, start: Start, index: usize, bytes: [u8; FRAME_BYTES])
        requires { (start.first ≡ self.old.at) × (index < length self.old.slots) × (get_or self.old.slots index None ≡ None) }
        ensures { (self.new.at ≡ self.old.at) × (self.new.slots ≡ slice_set self.old.slots index (Some bytes)) }
    {
        unsafe { start.first.add(index).write(bytes) }
    }

    /// Lends the frame in the place at `index`, which holds one.
    pub(crate) fn see(&self, start: Start, index: usize) -> &[u8; FRAME_BYTES]
        requires { (start.first ≡ self.now.at) × IsFilled self.now.slots index }
        ensures { get_or self.now.slots index None ≡ Some result.now }
    {
        unsafe { &*start.first.add(index) }
    }

    /// Lends, to be changed, the `len` bytes from `place` on of the frame in the place at `index`, which holds one.
    // In one step: the checker doesn't follow a part of `&mut [u8; FRAME_BYTES]` that is behind a `&mut` itself.
    pub(crate) fn part_mut(
        &mut self,
        start: Start,
        index: usize,
        place: usize,
        len: usize,
    ) -> &mut [u8]
        requires { (start.first ≡ self.old.at) × IsFilled self.old.slots index × (place + len ≤ 4096) }
        ensures* lends { sem 𝓛 (lends_part self.entry index place len result) }
        ensures value { (result.now ≡ part (frame_at self.old.slots index) place len) × (length result.now ≡ len) }
    {
        unsafe { slice::from_raw_parts_mut((start.first.add(index) as *mut u8).add(place), len) }
    }
}
