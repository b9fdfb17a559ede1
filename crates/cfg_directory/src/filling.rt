//! The bytes of one file, as they come.

ghost use Rattle.std.specs.Prelude.{◌≡◌, ◌-◌, ◌<◌, ◌++◌, length, take, drop, IfOk, OnOk};
ghost use Rattle.cfg_directory.specs.Held.{Gathers, IsFilled};

use crate::held::Held;
use vt_outside::{Bytes, OutOfMemory};

/// Gives the next file what it lacks of `piece`, goes on to the file behind it where it is whole then, and returns what is left.
pub(crate) fn fill_next<'a>(held: &mut Held, piece: &'a [u8]) -> Result<&'a [u8], OutOfMemory>
    requires gathers { Gathers held.old }
    requires some { held.old.next < length held.old.listed }
    ensures { IfOk result (λ left. IsFilled held.old held.new piece.now left.now) }
{
    let size = held.listed.as_slice()[held.next].size as usize;
    let item = held.items.get_mut(held.next);
    let left = fill_file(&mut item.bytes, size, piece)?;
    if item.bytes.len() == size {
        held.next += 1;
    }
    Ok(left)
}

// Adds what lacks to so many bytes, and returns what is left of the piece. The room is taken with the first byte.
fn fill_file<'a>(bytes: &mut Bytes, size: usize, piece: &'a [u8]) -> Result<&'a [u8], OutOfMemory>
    ensures taken { OnOk result (bytes.new ≡ bytes.old ++ take (size - length bytes.old) piece.now) }
    ensures left { IfOk result (λ left. left.now ≡ drop (size - length bytes.old) piece.now) }
{
    let count = size.saturating_sub(bytes.len()).min(piece.len());
    let (taken, left) = piece.split_at(count);
    if bytes.len() == 0 && count > 0 {
        bytes.reserve(size)?;
    }
    bytes.extend(taken)?;
    Ok(left)
}
