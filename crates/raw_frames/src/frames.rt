//! The frames: 8,448 of 4,096 bytes each, in one block. Nothing here is `unsafe`.
ghost use Rattle.std.specs.Prelude.{◌≡◌, ◌+◌, ◌<◌, ◌≤◌, Some, None, replicate, get_or, slice_set, IfOk, length};
ghost use Rattle.std.specs.Borrow.{sem};
ghost use Rattle.vt_bytes.specs.Parts.{part};
ghost use Rattle.raw_frames.specs.Places.{IsFilled};
ghost use Rattle.raw_frames.specs.Windows.{frame_at};

use crate::places::{Claim, Places, Start, give_back, take};
use std::alloc::Global;
use std::marker::Model;
use vt_outside::OutOfMemory;

/// Counts the frames: 256 for the first MiB, and 8,192 for the 32 MiB at the top.
pub const FRAME_COUNT: usize = 8448;

/// Counts the bytes of a frame.
pub const FRAME_BYTES: usize = 4096;

/// Holds the frames. Contracts see of each its bytes, or none before it is filled.
pub struct Frames {
    start: Start,
    places: Places,
    claim: Claim<Global>,
    alloc: Global,
}

impl Model for Frames {
    ghost use Rattle.std.specs.Prelude.{ℕ, List, Option};
    ghost use Rattle.raw_frames.specs.Block.{IsBlock};

    ghost Value = { List (Option (List ℕ)) };

    ghost view = { λ f. f.places.slots };

    ghost invariant = { λ f. IsBlock f.start f.places f.claim f.alloc };
}

impl Frames {
    ghost use Rattle.raw_frames.specs.FrameLends.{lends_window};

    /// Takes the block from `alloc`. No frame is filled, and no byte is written. Fails where `alloc` has no memory for it.
    pub fn begin(alloc: Global) -> Result<Frames, OutOfMemory>
        ensures { IfOk result (λ frames. frames ≡ replicate 8448 None) }
    {
        let (start, places, claim) = take(&alloc, FRAME_COUNT)?;
        Ok(Frames {
            start,
            places,
            claim,
            alloc,
        })
    }

    /// Fills the frame at the index `frame`, which isn't filled, with 4,096 times `byte`.
    pub fn fill(&mut self, frame: usize, byte: u8)
        requires frame { frame < 8448 }
        requires empty { get_or self.old frame None ≡ None }
        ensures { self.new ≡ slice_set self.old frame (Some (replicate 4096 byte)) }
    {
        self.places.put(self.start, frame, [byte; FRAME_BYTES]);
    }

    /// Lends the bytes of the frame at the index `frame`, which is filled.
    pub fn frame(&self, frame: usize) -> &[u8; FRAME_BYTES]
        requires { IsFilled self.now frame }
        ensures { result.now ≡ frame_at self.now frame }
    {
        self.places.see(self.start, frame)
    }

    /// Lends the `len` bytes from the byte `place` on of the frame at the index `frame`, which is filled. They lie within the frame.
    pub fn window(&self, frame: usize, place: usize, len: usize) -> &[u8]
        requires filled { IsFilled self.now frame }
        requires within { place + len ≤ 4096 }
        ensures value { result.now ≡ part (frame_at self.now frame) place len }
        ensures len { length result.now ≡ len }
    {
        &self.frame(frame)[place..place + len]
    }

    /// Lends, to be changed, the `len` bytes from the byte `place` on of the frame at the index `frame`, which is filled. They lie within
    /// the frame.
    pub fn window_mut(&mut self, frame: usize, place: usize, len: usize) -> &mut [u8]
        requires filled { IsFilled self.old frame }
        requires within { place + len ≤ 4096 }
        ensures* lends { sem 𝓛 (lends_window self.entry frame place len result) }
        ensures value { result.now ≡ part (frame_at self.old frame) place len }
        ensures len { length result.now ≡ len }
    {
        self.places.part_mut(self.start, frame, place, len)
    }
}

impl Drop for Frames {
    fn drop(self) {
        let Frames {
            start,
            places,
            claim,
            alloc,
        } = self;
        give_back(&alloc, start, FRAME_COUNT, places, claim);
    }
}
