//! Containers of which a byte is another, fed in pieces that a generator draws: the same answer as at once.

ghost use Rattle.std.specs.Prelude.{◌<◌};

use crate::directory::containers::are_bytes;
use crate::directory::images::two_files;
use cfg_directory::{ImageFault, ImageReader, Items, read_image, write_image};
use rand_core::SeedableRng;
use rand_core::utils::NextWord;
use rand_pcg::Pcg32;
use std::alloc::Global;
use std::process::Abort;
use std::test::Fail;

#[test]
fn changed_containers(rt: HostRuntime) -> Result<(), Fail> {
    let mut random = Pcg32::seed_from_u64(1);
    for case in 0..1000 {
        is_read_alike(&rt, rt.alloc(), case, &mut random)?;
    }
    Ok(())
}

fn is_read_alike(
    rt: &impl Abort,
    alloc: Global,
    case: u32,
    random: &mut Pcg32,
) -> Result<(), Fail> {
    let mut image = two_files();
    image[below(random, 137)] = USUAL[below(random, 8)];
    let in_pieces = read_drawn(alloc, random, &image);
    is_alike(rt, alloc, case, read_image(alloc, &image), in_pieces)
}

// Bytes that make a count, a size, a selector, a name or a flag another one.
static USUAL: [u8; 8] = [0, 1, 2, 3, 0x1F, 0x20, 0x41, 0xFF];

// Reads a container in pieces of 0 to 40 bytes, and what is left in one.
fn read_drawn(alloc: Global, random: &mut Pcg32, image: &[u8]) -> Result<Items, ImageFault> {
    let mut reader = ImageReader::new(alloc);
    feed_drawn(&mut reader, random, image)?;
    reader.finish()
}

fn feed_drawn(
    reader: &mut ImageReader,
    random: &mut Pcg32,
    image: &[u8],
) -> Result<(), ImageFault> {
    let mut rest = image;
    for _piece in 0..20 {
        let (piece, behind) = rest.split_at(below(random, 41).min(rest.len()));
        reader.feed(piece)?;
        rest = behind;
    }
    reader.feed(rest)
}

// A number below another.
fn below(random: &mut Pcg32, limit: u32) -> usize
    requires { 0 < limit }
    ensures { result < limit }
{
    (random.next_word() % limit) as usize
}

fn is_alike(
    rt: &impl Abort,
    alloc: Global,
    case: u32,
    at_once: Result<Items, ImageFault>,
    in_pieces: Result<Items, ImageFault>,
) -> Result<(), Fail> {
    match (at_once, in_pieces) {
        (Ok(at_once), Ok(in_pieces)) => are_written_alike(rt, alloc, &at_once, &in_pieces),
        (at_once, in_pieces) => {
            assert_eq!(rt; at_once.err(), in_pieces.err(), "{case}");
            Ok(())
        }
    }
}

// The items are written as one container.
fn are_written_alike(
    rt: &impl Abort,
    alloc: Global,
    at_once: &Items,
    in_pieces: &Items,
) -> Result<(), Fail> {
    let wanted = write_image(alloc, at_once)?;
    let written = write_image(alloc, in_pieces)?;
    are_bytes(rt, "two files", written.as_slice(), wanted.as_slice());
    Ok(())
}
