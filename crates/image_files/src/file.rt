ghost use Rattle.std.specs.Prelude.{◌≡◌, false, length, Some};

use blob_holes::Parts;
use std::marker::Model;
use vt_outside::Name;
use zone_alloc::Zone;

/// Where a script asks for a place for a file.
#[derive(Clone, Copy, Debug, PartialEq, Eq)]
pub struct Placing {
    /// The zone of memory.
    pub zone: Zone,
    /// The place is a multiple of this power of two, in bytes.
    pub align: u32,
}

/// A file of fw_cfg that a script can place and link.
#[derive(Drop)]
pub struct ImageFile {
    pub(crate) name: Name,
    pub(crate) parts: Parts,
    pub(crate) placing: Option<Placing>,
    pub(crate) writable: bool,
}

impl Model for ImageFile {
    ghost use Rattle.image_files.specs.Files.{ImageFile as File};

    ghost Value = { File };

    ghost view = { λ f. record {
      name = f.name;
      blob = record { bytes = f.parts.bytes; pointers = f.parts.pointers; sums = f.parts.sums };
      placing = f.placing;
      writable = f.writable;
    } };
}

impl ImageFile {
    /// Makes a file of this name, of `parts`, the bytes and their holes. A place is asked for it where `placing` says, or it isn't
    /// placed and must have no holes. `writable` says whether a guest may write it in fw_cfg.
    pub fn new(name: Name, parts: Parts, placing: Option<Placing>, writable: bool) -> ImageFile
        ensures { result ≡ record {
          name = name;
          blob = record { bytes = parts.bytes; pointers = parts.pointers; sums = parts.sums };
          placing = placing;
          writable = writable;
        } }
    {
        ImageFile {
            name,
            parts,
            placing,
            writable,
        }
    }
}
