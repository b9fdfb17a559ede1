//! How files are linked.

ghost use Rattle.std.specs.Prelude.{◌≡◌, ◌<◌, [], ◌∷◌, ◌++◌, length, codes, IfOk, OnOk};
ghost use Rattle.std.specs.List.{AllByRecursion};
ghost use Rattle.loader_script.specs.Spelling.{CanBeWritten};
ghost use Rattle.loader_script.specs.LoaderName.{loader_name};
ghost use Rattle.image_files.specs.Linkable.{HasNoName, AreDistinct};

use crate::images::told::is_image;
use blob_holes::{Parts, PointerHole, SumHole};
use image_files::{Image, ImageBuildFault, ImageFile, Placing, Zone, link};
use loader_script::Entry;
use std::alloc::Global;
use std::test::Fail;
use vt_outside::{Bytes, List, Name, OutOfMemory};

// How many bytes an image may have.
const LIMIT: usize = 409_600;

#[test]
fn as_many_bytes_as_an_image_may_have(rt: HostRuntime) -> Result<(), Fail> {
    let image = image_of_one(rt.alloc(), LIMIT)?;
    is_image(
        rt.alloc(),
        "a file of 409,600 bytes",
        image,
        &["20 a read 409600", "21 etc/table-loader read 0"],
        &[],
    )
}

#[test]
fn one_byte_more_than_an_image_may_have(rt: HostRuntime) -> Result<(), Fail> {
    match image_of_one(rt.alloc(), LIMIT + 1) {
        Err(ImageBuildFault::ImageTooLarge) => Ok(()),
        Err(ImageBuildFault::OutOfMemory) => Err(Fail::from("no memory")),
        Ok(_) => Err(Fail::from("an image of a file of 409,601 bytes")),
    }
}

// The image of a file that has so many bytes and isn't placed.
fn image_of_one(alloc: Global, size: usize) -> Result<Image, ImageBuildFault> {
    let parts = whole(alloc, zeros(alloc, size)?);
    let files = one_file(alloc, ImageFile::new(a(), parts, None, false))?;
    link(alloc, files, &[])
}

fn one_file(alloc: Global, file: ImageFile) -> Result<Vec<ImageFile>, OutOfMemory>
    ensures { IfOk result (λ files. files.items ≡ file ∷ []) }
{
    let mut files = Vec::new(alloc);
    files.push(file)?;
    Ok(files)
}

fn zeros(alloc: Global, count: usize) -> Result<Bytes, OutOfMemory> {
    let mut bytes = Bytes::new(alloc);
    for _ in 0..count {
        bytes.push(0)?;
    }
    Ok(bytes)
}

// Bytes without holes.
fn whole(alloc: Global, bytes: Bytes) -> Parts {
    Parts {
        bytes,
        pointers: List::new(alloc),
        sums: List::new(alloc),
    }
}

#[test]
fn no_files(rt: HostRuntime) -> Result<(), Fail> {
    let image = link(rt.alloc(), Vec::new(rt.alloc()), &[])?;
    is_image(
        rt.alloc(),
        "no files",
        image,
        &["20 etc/table-loader read 0"],
        &[],
    )
}

// The files are linked in the order "c", "a", "b".
static THREE_ITEMS: [&str; 4] = [
    "20 a read 5",
    "21 b written 3",
    "22 c read 16",
    "23 etc/table-loader read 1024",
];

static THREE_COMMANDS: [&str; 8] = [
    "place c 64 1",
    "place a 16 2",
    "point a 1 4 to c",
    "point c 8 8 to a",
    "sum c 3 2 5",
    "sum a 0 0 5",
    "point b 1 2 to a",
    "skipped 0",
];

#[test]
fn files_in_another_order(rt: HostRuntime) -> Result<(), Fail> {
    let image = image_of_three(rt.alloc())?;
    is_image(
        rt.alloc(),
        "three files",
        image,
        &THREE_ITEMS,
        &THREE_COMMANDS,
    )
}

fn image_of_three(alloc: Global) -> Result<Image, ImageBuildFault> {
    let files = three_files(alloc)?;
    link(alloc, files, &later())
}

fn three_files(alloc: Global) -> Result<Vec<ImageFile>, OutOfMemory>
    ensures distinct { IfOk result (λ files. AreDistinct files.items) }
    ensures others { IfOk result (λ files. HasNoName files.items loader_name) }
    ensures few { IfOk result (λ files. length files.items < 1024) }
{
    let mut files = one_file(alloc, first(alloc)?)?;
    push(&mut files, second(alloc)?)?;
    push(&mut files, third(alloc)?)?;
    Ok(files)
}

fn push(files: &mut Vec<ImageFile>, file: ImageFile) -> Result<(), OutOfMemory>
    ensures { OnOk result (files.new.items ≡ files.old.items ++ file ∷ []) }
{
    Ok(files.push(file)?)
}

// The address of "a" is added to a number in "b", and the other command changes nothing.
fn later() -> [Entry; 2]
    ensures { AllByRecursion CanBeWritten result }
{
    [
        Entry::AddPointer {
            dest: b(),
            src: a(),
            offset: 1,
            size: 2,
        },
        Entry::Skipped(0),
    ]
}

fn first(alloc: Global) -> Result<ImageFile, OutOfMemory>
    ensures { IfOk result (λ file. file.name ≡ codes "c") }
{
    let pointer = PointerHole {
        at: 8,
        size: 8,
        target: a(),
    };
    let sum = SumHole {
        at: 3,
        start: 2,
        length: 5,
    };
    let placing = Placing {
        zone: Zone::High,
        align: 64,
    };
    Ok(ImageFile::new(
        c(),
        with_holes(alloc, 16, pointer, sum)?,
        Some(placing),
        false,
    ))
}

fn second(alloc: Global) -> Result<ImageFile, OutOfMemory>
    ensures { IfOk result (λ file. file.name ≡ codes "a") }
{
    let pointer = PointerHole {
        at: 1,
        size: 4,
        target: c(),
    };
    let sum = SumHole {
        at: 0,
        start: 0,
        length: 5,
    };
    let placing = Placing {
        zone: Zone::Fseg,
        align: 16,
    };
    Ok(ImageFile::new(
        a(),
        with_holes(alloc, 5, pointer, sum)?,
        Some(placing),
        false,
    ))
}

fn third(alloc: Global) -> Result<ImageFile, OutOfMemory>
    ensures { IfOk result (λ file. file.name ≡ codes "b") }
{
    let parts = whole(alloc, zeros(alloc, 3)?);
    Ok(ImageFile::new(b(), parts, None, true))
}

// So many zeros, with two holes.
fn with_holes(
    alloc: Global,
    size: usize,
    pointer: PointerHole,
    sum: SumHole,
) -> Result<Parts, OutOfMemory> {
    let mut parts = whole(alloc, zeros(alloc, size)?);
    push_holes(&mut parts, pointer, sum)?;
    Ok(parts)
}

fn push_holes(parts: &mut Parts, pointer: PointerHole, sum: SumHole) -> Result<(), OutOfMemory> {
    parts.pointers.push(pointer)?;
    parts.sums.push(sum)
}

fn a() -> Name
    ensures { result ≡ codes "a" }
{
    Name::of("a").unwrap()
}

fn b() -> Name
    ensures { result ≡ codes "b" }
{
    Name::of("b").unwrap()
}

fn c() -> Name
    ensures { result ≡ codes "c" }
{
    Name::of("c").unwrap()
}
