//! Containers that are fed in pieces: the same answer as at once, and a fault with the last byte that it takes.

use crate::directory::images::one_file;
use cfg_directory::{ImageFault, ImageReader, Items};
use std::alloc::Global;
use std::process::Abort;
use std::test::Fail;

/// How many bytes a piece has: about as many as an entry, few, and more than a small container.
pub(crate) static SIZES: [usize; 6] = [1, 3, 63, 64, 65, 1024];

/// Reads a container in pieces of so many bytes.
pub(crate) fn read_by(
    rt: &impl Abort,
    alloc: Global,
    image: &[u8],
    size: usize,
) -> Result<Items, ImageFault> {
    let mut reader = ImageReader::new(alloc);
    feed_by(rt, &mut reader, image, size)?;
    reader.finish()
}

fn feed_by(
    rt: &impl Abort,
    reader: &mut ImageReader,
    image: &[u8],
    size: usize,
) -> Result<(), ImageFault> {
    assert!(rt; size > 0);
    for piece in image.chunks(size) {
        reader.feed(piece)?;
    }
    Ok(())
}

// What is changed in the container of one file and a byte more from a place on, how many bytes the fault takes, and the fault.
static FAULTS: [(&str, usize, &[u8], usize, ImageFault); 7] = [
    ("1,025 files", 2, &[4], 4, ImageFault::TooMany),
    ("no file", 0, &[0; 4], 5, ImageFault::TrailingBytes),
    (
        "a name without a NUL",
        12,
        &[0x41; 56],
        68,
        ImageFault::BadName(0),
    ),
    (
        "a selector of 0x1F",
        9,
        &[0x1F],
        68,
        ImageFault::BadSelect(0),
    ),
    ("a flag of 2", 68, &[2], 69, ImageFault::BadFlag(0)),
    (
        "67,108,865 bytes",
        4,
        &[4, 0, 0, 1],
        69,
        ImageFault::TooLarge,
    ),
    ("a byte more", 0, &[], 73, ImageFault::TrailingBytes),
];

#[test]
fn faults_come_with_their_last_byte(rt: HostRuntime) {
    for (case, place, bytes, at, fault) in &FAULTS {
        comes_where_changed(&rt, rt.alloc(), case, *place, bytes, *at, *fault);
    }
}

fn comes_where_changed(
    rt: &impl Abort,
    alloc: Global,
    case: &str,
    place: usize,
    bytes: &[u8],
    at: usize,
    fault: ImageFault,
) {
    assert!(rt; place <= 73 && bytes.len() <= 73 - place, "{case}");
    let mut image = [0; 73];
    image[..72].copy_from_slice(&one_file());
    image[place..place + bytes.len()].copy_from_slice(bytes);
    for size in &SIZES {
        comes_in_pieces(rt, alloc, case, &image, *size, at, fault);
    }
}

fn comes_in_pieces(
    rt: &impl Abort,
    alloc: Global,
    case: &str,
    image: &[u8],
    size: usize,
    at: usize,
    fault: ImageFault,
) {
    let mut reader = ImageReader::new(alloc);
    comes_at(rt, &mut reader, case, image, size, at, fault);
    let end = reader.finish().err();
    assert_eq!(rt; end, Some(fault), "{case}, in pieces of {size}");
}

// Pieces that end before the last byte that the fault takes are taken, and each other one is refused.
fn comes_at(
    rt: &impl Abort,
    reader: &mut ImageReader,
    case: &str,
    image: &[u8],
    size: usize,
    at: usize,
    fault: ImageFault,
) {
    assert!(rt; size > 0);
    let mut fed = 0usize;
    for piece in image.chunks(size) {
        fed = fed.saturating_add(piece.len());
        let told = if fed < at { None } else { Some(fault) };
        is_told(rt, reader, case, piece, told);
    }
}

// An empty piece gets the answer that the last one got.
fn is_told(
    rt: &impl Abort,
    reader: &mut ImageReader,
    case: &str,
    piece: &[u8],
    fault: Option<ImageFault>,
) {
    let told = (reader.feed(piece).err(), reader.feed(&[]).err());
    assert_eq!(rt; told, (fault, fault), "{case}");
}

// A fault stays while as many bytes follow as files may have, and at the end.
#[test]
fn faults_stay(rt: HostRuntime) -> Result<(), Fail> {
    let rest = vec![in rt.alloc(); 0; 67_108_864]?;
    stays(&rt, rt.alloc(), rest.as_slice());
    Ok(())
}

fn stays(rt: &impl Abort, alloc: Global, rest: &[u8]) {
    let fault = Some(ImageFault::TooMany);
    let mut reader = ImageReader::new(alloc);
    is_told(rt, &mut reader, "1,025 files", &[0, 0, 4, 1], fault);
    for piece in rest.chunks(65_536) {
        is_told(
            rt,
            &mut reader,
            "1,025 files, and a piece more",
            piece,
            fault,
        );
    }
    let end = reader.finish().err();
    assert_eq!(rt; end, fault, "1,025 files, at the end");
}
