//! The frames of a memory with a flag for each, and one frame of fill bytes, which is lent wherever a frame isn't touched.

ghost use Rattle.std.specs.Prelude.{◌≡◌, ℕ, ◌+◌, ◌<◌, ◌≤◌, [], Some, None, replicate, slice_index, slice_set, length, IfOk};
ghost use Rattle.std.specs.Borrow.{sem};
ghost use Rattle.vt_bytes.specs.Parts.{part};
ghost use Rattle.raw_frames.specs.Block.{AreFrames};
ghost use Rattle.guest_memory.specs.Store.{in_frame, is_held};
ghost use Rattle.guest_memory.specs.StoreLends.{lends_part, lends_nothing};

use raw_frames::{FRAME_BYTES, FRAME_COUNT, Frames};
use std::alloc::Global;
use std::marker::Model;
use vt_outside::OutOfMemory;

/// Holds 8,448 frames of 4,096 bytes, each of which is filled with one byte when it is first touched. Contracts see that byte, and of each
/// frame its bytes, or none before it is touched.
#[derive(Drop)]
pub(crate) struct Store {
    fill: u8,
    // A frame of fill bytes, lent in place of one that isn't touched.
    blank: Vec<u8>,
    flags: Vec<bool>,
    frames: Frames,
    // Lent, to be changed, where no byte is asked for.
    no_bytes: [u8; 0],
}

impl Model for Store {
    ghost use Rattle.guest_memory.specs.Store.{Stored, IsStore};

    ghost Value = { Stored };

    ghost view = { λ s. record { fill = s.fill; frames = s.frames } };

    ghost invariant = { λ s. IsStore s.fill s.blank.items s.flags.items s.frames };
}

impl Store {
    /// Takes the memory of all frames from `alloc`. None is touched, and what a touched one holds first is `fill`.
    pub(crate) fn begin(alloc: Global, fill: u8) -> Result<Store, OutOfMemory>
        ensures fill { IfOk result (λ store. store.fill ≡ fill) }
        ensures frames { IfOk result (λ store. store.frames ≡ replicate 8448 None) }
    {
        Ok(Store {
            fill,
            blank: vec![in alloc; fill; FRAME_BYTES]?,
            flags: vec![in alloc; false; FRAME_COUNT]?,
            frames: Frames::begin(alloc)?,
            no_bytes: [],
        })
    }

    /// Returns the byte that each byte was at the beginning.
    pub(crate) fn fill(&self) -> u8
        ensures fill { result ≡ self.now.fill }
        ensures lawful { AreFrames self.now.frames }
    {
        self.fill
    }

    /// Tells whether a frame is touched. There are 8,448.
    pub(crate) fn is_touched(&self, frame: usize) -> bool
        requires { frame < 8448 }
        ensures { result ≡ is_held self.now frame }
    {
        self.flags[frame]
    }

    /// Lends the `len` bytes of a frame from `place` on, all of which lie in it.
    pub(crate) fn window(&self, frame: usize, place: usize, len: usize) -> &[u8]
        requires some { frame < 8448 }
        requires within { place + len ≤ 4096 }
        ensures value { result.now ≡ part (in_frame self.now frame) place len }
        ensures len { length result.now ≡ len }
    {
        if self.flags[frame] {
            self.frames.window(frame, place, len)
        } else {
            &self.blank[place..place + len]
        }
    }

    /// Lends the `len` bytes of a frame from `place` on, all of which lie in it, to be changed, and touches the frame.
    pub(crate) fn window_mut(&mut self, frame: usize, place: usize, len: usize) -> &mut [u8]
        requires some { frame < 8448 }
        requires within { place + len ≤ 4096 }
        ensures* lends { sem 𝓛 (lends_part self.entry frame place len result) }
        ensures value { result.now ≡ part (in_frame self.old frame) place len }
        ensures len { length result.now ≡ len }
    {
        self.touch(frame);
        self.frames.window_mut(frame, place, len)
    }

    /// Lends no bytes, to be changed, and touches no frame.
    pub(crate) fn nothing_mut(&mut self) -> &mut [u8]
        ensures* lends { sem 𝓛 (lends_nothing self.entry result) }
        ensures value { result.now ≡ [] }
    {
        self.no_bytes.as_mut_slice()
    }

    /// States that the fill byte and each byte of a frame is below 256. It does nothing that is seen.
    pub(crate) fn holds_bytes(&self)
        ensures fill { self.now.fill < 256 }
        ensures each { (frame place : ℕ) → frame < 8448 → slice_index (in_frame self.now frame) place < 256 }
    {
        let _fill = self.fill();
        for frame in 0..FRAME_COUNT {
            are_bytes(self.window(frame, 0, FRAME_BYTES));
        }
    }

    // Fills a frame, if it isn't touched.
    fn touch(&mut self, frame: usize)
        requires { frame < 8448 }
        ensures fill { self.new.fill ≡ self.old.fill }
        ensures frames { self.new.frames ≡ slice_set self.old.frames frame (Some (in_frame self.old frame)) }
        ensures lawful { AreFrames self.new.frames }
    {
        if !self.flags[frame] {
            self.frames.fill(frame, self.fill);
            self.flags[frame] = true;
        }
    }
}

// States that each byte of a slice is below 256, which is known of a slice that is given.
fn are_bytes(bytes: &[u8])
    ensures { (i : ℕ) → slice_index bytes.now i < 256 }
{}
