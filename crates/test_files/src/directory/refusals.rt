//! Bytes that are refused as a container, at once or in pieces.

use crate::directory::images::{one_file, two_files};
use crate::directory::pieces::{SIZES, read_by};
use cfg_directory::{ImageFault, read_image};
use std::alloc::Global;
use std::process::Abort;
use std::test::Fail;
use vt_outside::{Bytes, OutOfMemory};

#[test]
fn a_container_and_its_fronts(rt: HostRuntime) {
    let image = one_file();
    has_fault(&rt, rt.alloc(), "a whole container", &image, None);
    for size in 0..72 {
        let truncated = Some(ImageFault::Truncated);
        has_fault(&rt, rt.alloc(), "a front", &image[..size], truncated);
    }
}

fn has_fault(rt: &impl Abort, alloc: Global, case: &str, bytes: &[u8], fault: Option<ImageFault>) {
    let at_once = read_image(alloc, bytes).err();
    assert_eq!(rt; at_once, fault, "{case}, of {} bytes", bytes.len());
    for size in &SIZES {
        has_fault_by(rt, alloc, case, bytes, *size, fault);
    }
}

fn has_fault_by(
    rt: &impl Abort,
    alloc: Global,
    case: &str,
    bytes: &[u8],
    size: usize,
    fault: Option<ImageFault>,
) {
    let in_pieces = read_by(rt, alloc, bytes, size).err();
    assert_eq!(rt;
        in_pieces,
        fault,
        "{case}, of {} bytes, in pieces of {size}",
        bytes.len()
    );
}

#[test]
fn a_longer_container(rt: HostRuntime) -> Result<(), Fail> {
    let longer = longer(rt.alloc())?;
    has_fault(
        &rt,
        rt.alloc(),
        "a byte more",
        longer.as_slice(),
        Some(ImageFault::TrailingBytes),
    );
    Ok(())
}

fn longer(alloc: Global) -> Result<Bytes, OutOfMemory> {
    let mut bytes = Bytes::new(alloc);
    bytes.extend(&one_file())?;
    bytes.push(0)?;
    Ok(bytes)
}

// What is changed in the container of one file from a place on, and its fault then.
static CHANGED: [(&str, usize, &[u8], ImageFault); 5] = [
    ("1,025 files", 2, &[4], ImageFault::TooMany),
    ("2 ^ 32 - 1 files", 0, &[0xFF; 4], ImageFault::TooMany),
    ("a file of 67,108,867 bytes", 4, &[4], ImageFault::TooLarge),
    (
        "a name of 56 bytes without a NUL",
        4,
        &[0x41; 68],
        ImageFault::BadName(0),
    ),
    ("a selector of 0x1F", 9, &[0x1F], ImageFault::BadSelect(0)),
];

#[test]
fn changed_containers(rt: HostRuntime) {
    for (case, place, bytes, fault) in &CHANGED {
        has_fault_where_changed(&rt, rt.alloc(), case, *place, bytes, *fault);
    }
}

fn has_fault_where_changed(
    rt: &impl Abort,
    alloc: Global,
    case: &str,
    place: usize,
    bytes: &[u8],
    fault: ImageFault,
) {
    assert!(rt; place <= 72 && bytes.len() <= 72 - place, "{case}");
    let mut image = one_file();
    image[place..place + bytes.len()].copy_from_slice(bytes);
    has_fault(rt, alloc, case, &image, Some(fault));
}

// In each the fault before is still there, and the new one comes first.
#[test]
fn refusals(rt: HostRuntime) {
    let mut image = two_files();
    has_fault(
        &rt,
        rt.alloc(),
        "a byte too few",
        image.split_at(136).0,
        Some(ImageFault::Truncated),
    );
    image[132] = 2;
    has_fault(
        &rt,
        rt.alloc(),
        "a flag of 2",
        &image,
        Some(ImageFault::BadFlag(0)),
    );
    image[76] = b'a';
    has_fault(
        &rt,
        rt.alloc(),
        "a name twice",
        &image,
        Some(ImageFault::TwiceNamed(1)),
    );
}
