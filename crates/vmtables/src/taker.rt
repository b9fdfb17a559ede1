//! What takes the bytes of an input as they come.

ghost use Rattle.std.specs.Prelude.{◌≡◌, ◌++◌, ℕ, List, [], OnOk};
ghost use Rattle.cfg_directory.specs.Fed.{judged};

use cfg_directory::{ImageFault, ImageReader};
use vt_outside::{Bytes, OutOfMemory};

/// Takes the bytes of an input in pieces.
pub(crate) trait Taker {
    ghost use Rattle.std.specs.Prelude.{ℕ, List};

    // That it was given these bytes so far.
    ghost took: { Self → List ℕ → Type 0 };

    /// Takes a piece more. It fails with `OutOfMemory` only where memory runs out.
    fn take(&mut self, piece: &[u8]) -> Result<(), OutOfMemory>
        ensures { OnOk result ((bytes : List ℕ) → took self.old bytes → took self.new (bytes ++ piece.now)) };
}

impl Taker for Bytes {
    ghost took = { λ taken bytes. taken ≡ bytes };

    fn take(&mut self, piece: &[u8]) -> Result<(), OutOfMemory> {
        self.extend(piece)
    }
}

/// A container that is refused is read on, so that a fault of the source, or too long an input, is told before the container's.
impl Taker for ImageReader {
    ghost took = { λ reader bytes. reader ≡ judged bytes };

    fn take(&mut self, piece: &[u8]) -> Result<(), OutOfMemory> {
        if self.feed(piece) == Err(ImageFault::OutOfMemory) {
            return Err(OutOfMemory);
        }
        Ok(())
    }
}
