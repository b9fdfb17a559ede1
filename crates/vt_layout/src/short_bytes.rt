ghost use Rattle.std.specs.Prelude.{◌≡◌, ◌≤◌, length};

use std::marker::Model;

// The most bytes that are held.
const LONGEST: usize = 16;

/// Up to 16 bytes of a row, as a signature, an identifier or a UUID. Contracts see the list.
#[derive(Drop)]
pub struct ShortBytes {
    size: u8,
    bytes: [u8; 16],
}

impl Model for ShortBytes {
    ghost use Rattle.std.specs.Prelude.{ℕ, List, take, ◌≤◌};

    ghost Value = { List ℕ };

    ghost view = { λ t. take t.size t.bytes };

    ghost invariant = { λ t. t.size ≤ 16 };
}

impl ShortBytes {
    /// Holds a copy of `bytes`, which must be at most 16. It takes no memory.
    pub fn of(bytes: &[u8]) -> ShortBytes
        requires { length bytes.now ≤ 16 }
        ensures { result ≡ bytes.now }
    {
        let mut all = [0; LONGEST];
        all[..bytes.len()].copy_from_slice(bytes);
        ShortBytes {
            size: bytes.len() as u8,
            bytes: all,
        }
    }

    /// Returns the bytes held, in order, as a slice.
    pub fn as_slice(&self) -> &[u8]
        ensures { result.now ≡ self.now }
    {
        &self.bytes[..usize::from(self.size)]
    }
}
