//! A small memory: a few pieces of RAM with gaps between them, anywhere up to the last address.

ghost use Rattle.std.specs.Prelude.{◌≡◌, find};
ghost use Rattle.test_scan.specs.Pieces.{is_in, seen_in};
ghost use Rattle.test_scan.specs.Unseen.{unseen_beyond};

use acpi_decode::MemView;

/// A piece of RAM.
#[derive(Clone, Copy, Debug)]
pub struct Piece {
    /// The address of its first byte.
    pub start: u64,
    /// How many bytes it has.
    pub size: u32,
    /// Where its first byte stands among the bytes of the memory.
    pub place: u32,
}

/// A memory whose bytes are lent.
#[derive(Clone, Copy)]
pub struct Pieces<'a> {
    /// Its pieces, which don't overlap.
    pub pieces: &'a [Piece],
    /// The bytes of all pieces.
    pub bytes: &'a [u8],
}

impl Piece {
    // Whether an address is one of its own.
    fn contains(&self, address: u64) -> bool
        ensures { result ≡ is_in self.now address }
    {
        self.start <= address && address - self.start < u64::from(self.size)
    }
}

impl MemView for Pieces<'_> {
    ghost seen = { λ m. seen_in m.pieces.now m.bytes.now };

    fn byte(&self, address: u64) -> Option<u8> {
        let piece = piece_with(self.pieces, address)?;
        let bytes = self.bytes.get(piece.place as usize..)?;
        bytes
            .get(address.saturating_sub(piece.start) as usize)
            .copied()
    }

    ghost bounded = { λ m address beyond. unseen_beyond m.pieces.now m.bytes.now address beyond };
}

// The first piece that has an address.
fn piece_with(pieces: &[Piece], address: u64) -> Option<Piece>
    ensures { result ≡ find (λ piece. is_in piece address) pieces.now }
{
    pieces.iter().copied().find(|piece| piece.contains(address))
}

/// Returns where the byte of an address stands among the bytes of a memory of these pieces, or `None` where it is no RAM.
pub fn place_of(pieces: &[Piece], address: u64) -> Option<usize> {
    let piece = piece_with(pieces, address)?;
    let offset = address.saturating_sub(piece.start) as usize;
    Some((piece.place as usize).saturating_add(offset))
}
