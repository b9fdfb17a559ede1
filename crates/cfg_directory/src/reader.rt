//! A container that is read as it comes.

ghost use Rattle.std.specs.Prelude.{◌≡◌, []};
ghost use Rattle.cfg_directory.specs.Fed.{Takes, IsFed, answer_of, finished};
ghost use Rattle.cfg_directory.specs.Container.{read_so};
ghost use Rattle.cfg_directory.specs.Held.{Gathers, LacksBytes, bytes_of};

use crate::container::ImageFault;
use crate::gathering::take_piece;
use crate::head::Head;
use crate::held::{Held, Stage};
use crate::items::Items;
use std::alloc::Global;
use std::marker::Model;
use vt_outside::List;

/// Reads a container in pieces, as they come. Contracts see the bytes of all pieces so far until a refusal was given, and from then
/// on that refusal alone.
#[derive(Drop)]
pub struct ImageReader {
    alloc: Global,
    stage: Stage,
    held: Held,
}

impl Model for ImageReader {
    ghost use Rattle.cfg_directory.specs.Fed.{Fed};

    ghost Value = { Fed };

    ghost use Rattle.cfg_directory.specs.Held.{fed_by, KeepsHeld};

    ghost view = { λ r. fed_by r.stage r.held };

    ghost invariant = { λ r. KeepsHeld r.stage r.held };
}

impl ImageReader {
    /// Makes a reader that was fed nothing, which will take its memory from `alloc`. It takes none yet.
    pub fn new(alloc: Global) -> ImageReader
        ensures { result ≡ Takes [] }
    {
        ImageReader {
            alloc,
            stage: Stage::Count,
            held: Held {
                head: Head::new(),
                listed: List::new(alloc),
                items: List::new(alloc),
                next: 0,
            },
        }
    }

    /// Reads a piece more, which may be empty. It fails once the bytes so far can begin no container, whatever follows: with the first
    /// fault of the parts that are there whole. It fails with `OutOfMemory` where memory runs out, but only once all entries are
    /// there. After a failure it gives the same fault to every piece.
    pub fn feed(&mut self, piece: &[u8]) -> Result<(), ImageFault>
        // What it was fed then: this piece too, unless it refuses.
        ensures fed { IsFed self.old piece.now self.new }
        // The answer tells which.
        ensures answer { result ≡ answer_of self.new }
    {
        match take_piece(self.alloc, &mut self.held, self.stage, piece) {
            Ok(stage) => {
                self.stage = stage;
                Ok(())
            }
            Err(fault) => {
                self.stage = Stage::Refused(fault);
                Err(fault)
            }
        }
    }

    /// Ends the container, and returns its items. It fails with the fault that was given to a piece, or where the bytes are no
    /// container, with `Truncated`. It takes no memory.
    pub fn finish(self) -> Result<Items, ImageFault>
        ensures { result ≡ finished self }
    {
        let ImageReader { stage, held, .. } = self;
        match stage {
            Stage::Contents => finished_items(held),
            Stage::Refused(fault) => Err(fault),
            _ => Err(ImageFault::Truncated),
        }
    }
}

// The files, if each has all of its bytes.
fn finished_items(held: Held) -> Result<Items, ImageFault>
    requires gathers { Gathers held }
    requires lacks { LacksBytes held }
    ensures { result ≡ read_so (bytes_of held) }
{
    let Held {
        listed,
        items,
        next,
        ..
    } = held;
    if next < listed.len() {
        return Err(ImageFault::Truncated);
    }
    Ok(Items::of(items))
}
