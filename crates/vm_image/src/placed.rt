ghost use Rattle.std.specs.Prelude.{◌≡◌, []};
ghost use Rattle.vm_image.specs.Image.{placed_file};

use blob_holes::Parts;
use image_files::{ImageFile, Placing};
use std::alloc::Global;
use vt_outside::{Bytes, List, Name};
use zone_alloc::Zone;

// A file that a guest can't write in fw_cfg, and for which a place is asked in a zone, at a multiple of `align`.
pub(crate) fn placed_file(name: Name, parts: Parts, zone: Zone, align: u32) -> ImageFile
    ensures { result ≡ placed_file name (record { bytes = parts.bytes; pointers = parts.pointers; sums = parts.sums }) zone align }
{
    ImageFile::new(name, parts, Some(Placing { zone, align }), false)
}

// The parts of a file that has no holes.
pub(crate) fn without_holes(alloc: Global, bytes: Bytes) -> Parts
    ensures bytes { result.bytes ≡ bytes }
    ensures pointers { result.pointers ≡ [] }
    ensures sums { result.sums ≡ [] }
{
    Parts {
        bytes,
        pointers: List::new(alloc),
        sums: List::new(alloc),
    }
}
