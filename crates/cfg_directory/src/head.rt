//! The head of a container: the number of files, the entries and the flags.

ghost use Rattle.std.specs.Prelude.{◌≡◌, ◌-◌, ◌≤◌, [], ◌++◌, length, take, drop};

use std::marker::Model;

// How many bytes a head may have: the number of files, and an entry of 64 bytes and a flag for each of 1,024.
const HEAD_LIMIT: usize = 66_564;

/// The bytes of a head so far, as they came. It takes no memory. Contracts see the list.
#[derive(Drop)]
pub(crate) struct Head {
    bytes: [u8; HEAD_LIMIT],
    len: usize,
}

impl Model for Head {
    ghost use Rattle.std.specs.Prelude.{ℕ, List as ListOf, take, ◌≤◌};

    ghost Value = { ListOf ℕ };

    ghost view = { λ h. take h.len h.bytes };

    ghost invariant = { λ h. h.len ≤ 66564 };
}

impl Head {
    /// Makes a head of no bytes.
    pub(crate) fn new() -> Head
        ensures { result ≡ [] }
    {
        Head {
            bytes: [0; HEAD_LIMIT],
            len: 0,
        }
    }

    /// Returns the number of bytes.
    pub(crate) fn len(&self) -> usize
        ensures { result ≡ length self.now }
    {
        self.len
    }

    /// Returns all the bytes, in order.
    pub(crate) fn as_slice(&self) -> &[u8]
        ensures { result.now ≡ self.now }
    {
        &self.bytes[..self.len]
    }

    /// Takes of `piece` what lacks to a head of `size` bytes, which may be at most 66,564, and returns what is left of it.
    pub(crate) fn fill<'a>(&mut self, size: usize, piece: &'a [u8]) -> &'a [u8]
        requires { size ≤ 66564 }
        ensures taken { self.new ≡ self.old ++ take (size - length self.old) piece.now }
        ensures left { result.now ≡ drop (size - length self.old) piece.now }
    {
        let count = size.saturating_sub(self.len).min(piece.len());
        let (taken, left) = piece.split_at(count);
        self.bytes[self.len..self.len + count].copy_from_slice(taken);
        self.len += count;
        left
    }
}
