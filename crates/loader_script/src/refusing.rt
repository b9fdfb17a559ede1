ghost use Rattle.std.specs.Prelude.{◌≡◌, ◌^◌, true, length, None, MatchOption, nat_lt};
ghost use Rattle.loader_script.specs.Refusal.{causes_of, first_cause, info_of, IsFound, AreDistinct, EndLow};
ghost use Rattle.loader_script.specs.Order.{IsOrderOf};
ghost use Rattle.vt_layout.specs.PointerSize.{is_pointer_size};
ghost use Rattle.loader_script.specs.declared.entry.Entry.TheVariants.{Allocate, AddPointer, AddChecksum, WritePointer};

use crate::entry::Entry;
use crate::order::NameOrder;
use vt_layout::is_pointer_size;
use vt_outside::Name;

/// Why a command is refused. Of several causes the first one in this order is told.
#[derive(Clone, Copy, Debug, PartialEq, Eq)]
pub enum Cause {
    /// The field of one of its names holds no file name.
    BadName,
    /// A file that it names isn't in the directory.
    NoFile,
    /// The file is placed already.
    AlreadyPlaced,
    /// A file whose place it needs isn't placed.
    NotPlaced,
    /// The file has no bytes.
    Empty,
    /// The alignment isn't a power of two.
    BadAlign,
    /// The zone isn't 1 or 2.
    BadZone,
    /// The size isn't 1, 2, 4 or 8.
    BadSize,
    /// The file that it writes isn't writable.
    ReadOnly,
    /// A field, a checksum's byte or a range isn't in its file, or `src_offset` isn't below the size of `src`.
    OutOfRange,
    /// The number doesn't fit in `size` bytes.
    TooFar,
}

/// What a command needs to know of a file.
#[derive(Clone, Copy, Debug)]
pub struct FileInfo {
    /// Its name.
    pub name: Name,
    /// How many bytes it has.
    pub size: u32,
    /// Whether the guest may write it.
    pub writable: bool,
}

/// Returns the first cause to refuse `entry`, or `None`. `files` lists the files of the directory, no two with one name, and `order`
/// was made of them. `placed[i]` is the address of `files[i]`, if it was allocated, and the file must then end at or below 2^32; both
/// lists must have one length. It takes no memory. Whether the sum of an `AddPointer` fits in its field depends on what the memory holds, and
/// isn't tested here. For a `WritePointer` it is, with `TooFar` as the cause.
pub fn refusal(
    entry: &Entry,
    files: &[FileInfo],
    placed: &[Option<u64>],
    order: &NameOrder,
) -> Option<Cause>
    requires places { length placed.now ≡ length files.now }
    requires distinct { AreDistinct files.now }
    requires order { IsOrderOf files.now order.now }
    requires low { EndLow files.now placed.now }
    ensures { result ≡ first_cause (causes_of entry.now files.now placed.now) }
{
    match entry {
        Entry::Allocate { file, align, zone } => {
            allocate_refusal(files, placed, order, file, *align, *zone)
        }
        Entry::AddPointer {
            dest,
            src,
            offset,
            size,
        } => add_pointer_refusal(files, placed, order, dest, src, *offset, *size),
        Entry::AddChecksum {
            file,
            offset,
            start,
            length,
        } => add_checksum_refusal(files, placed, order, file, *offset, *start, *length),
        Entry::WritePointer {
            dest,
            src,
            dst_offset,
            src_offset,
            size,
        } => write_pointer_refusal(
            files,
            placed,
            order,
            dest,
            src,
            *dst_offset,
            *src_offset,
            *size,
        ),
        Entry::Misnamed(_) => Some(Cause::BadName),
        Entry::Skipped(_) => None,
    }
}

fn allocate_refusal(
    files: &[FileInfo],
    placed: &[Option<u64>],
    order: &NameOrder,
    name: &Name,
    align: u32,
    zone: u8,
) -> Option<Cause>
    requires places { length placed.now ≡ length files.now }
    requires distinct { AreDistinct files.now }
    requires order { IsOrderOf files.now order.now }
    ensures { result ≡ first_cause (causes_of (Allocate name.now align zone) files.now placed.now) }
{
    let Some((file, place)) = file_of(files, placed, order, name) else {
        return Some(Cause::NoFile);
    };
    if place.is_some() {
        return Some(Cause::AlreadyPlaced);
    }
    if file.size == 0 {
        return Some(Cause::Empty);
    }
    if !align.is_power_of_two() {
        return Some(Cause::BadAlign);
    }
    if zone != 1 && zone != 2 {
        return Some(Cause::BadZone);
    }
    None
}

fn add_pointer_refusal(
    files: &[FileInfo],
    placed: &[Option<u64>],
    order: &NameOrder,
    dest: &Name,
    src: &Name,
    offset: u32,
    size: u8,
) -> Option<Cause>
    requires places { length placed.now ≡ length files.now }
    requires distinct { AreDistinct files.now }
    requires order { IsOrderOf files.now order.now }
    ensures { result ≡ first_cause (causes_of (AddPointer dest.now src.now offset size) files.now placed.now) }
{
    let Some((dest, dest_place)) = file_of(files, placed, order, dest) else {
        return Some(Cause::NoFile);
    };
    let Some((_, src_place)) = file_of(files, placed, order, src) else {
        return Some(Cause::NoFile);
    };
    if dest_place.is_none() || src_place.is_none() {
        return Some(Cause::NotPlaced);
    }
    if !is_pointer_size(size) {
        return Some(Cause::BadSize);
    }
    if u64::from(offset) + u64::from(size) > u64::from(dest.size) {
        return Some(Cause::OutOfRange);
    }
    None
}

fn add_checksum_refusal(
    files: &[FileInfo],
    placed: &[Option<u64>],
    order: &NameOrder,
    name: &Name,
    offset: u32,
    start: u32,
    count: u32,
) -> Option<Cause>
    requires places { length placed.now ≡ length files.now }
    requires distinct { AreDistinct files.now }
    requires order { IsOrderOf files.now order.now }
    ensures { result ≡ first_cause (causes_of (AddChecksum name.now offset start count) files.now placed.now) }
{
    let Some((file, place)) = file_of(files, placed, order, name) else {
        return Some(Cause::NoFile);
    };
    if place.is_none() {
        return Some(Cause::NotPlaced);
    }
    if offset >= file.size || u64::from(start) + u64::from(count) > u64::from(file.size) {
        return Some(Cause::OutOfRange);
    }
    None
}

fn write_pointer_refusal(
    files: &[FileInfo],
    placed: &[Option<u64>],
    order: &NameOrder,
    dest: &Name,
    src: &Name,
    dst_offset: u32,
    src_offset: u32,
    size: u8,
) -> Option<Cause>
    requires places { length placed.now ≡ length files.now }
    requires distinct { AreDistinct files.now }
    requires order { IsOrderOf files.now order.now }
    requires low { EndLow files.now placed.now }
    ensures { result ≡ first_cause (causes_of (WritePointer dest.now src.now dst_offset src_offset size) files.now placed.now) }
{
    let Some((dest, _)) = file_of(files, placed, order, dest) else {
        return Some(Cause::NoFile);
    };
    let Some((src, src_place)) = file_of(files, placed, order, src) else {
        return Some(Cause::NoFile);
    };
    let Some(place) = src_place else {
        return Some(Cause::NotPlaced);
    };
    if !is_pointer_size(size) {
        return Some(Cause::BadSize);
    }
    if !dest.writable {
        return Some(Cause::ReadOnly);
    }
    if u64::from(dst_offset) + u64::from(size) > u64::from(dest.size) || src_offset >= src.size {
        return Some(Cause::OutOfRange);
    }
    if !fits(place + u64::from(src_offset), size) {
        return Some(Cause::TooFar);
    }
    None
}

// The file of a name, and where it is placed.
fn file_of<'a>(
    files: &'a [FileInfo],
    placed: &[Option<u64>],
    order: &NameOrder,
    name: &Name,
) -> Option<(&'a FileInfo, Option<u64>)>
    requires places { length placed.now ≡ length files.now }
    requires distinct { AreDistinct files.now }
    requires order { IsOrderOf files.now order.now }
    ensures { MatchOption result (info_of files.now name.now ≡ None)
        (λ found. IsFound files.now placed.now name.now found.0.now found.1) }
{
    let index = order.index_of(name)?;
    Some((&files[index], placed[index]))
}

// Whether a number fits so many bytes.
fn fits(number: u64, size: u8) -> bool
    requires { is_pointer_size size ≡ true }
    ensures { result ≡ nat_lt number (256 ^ size) }
{
    match size {
        1 => number < 1 << 8,
        2 => number < 1 << 16,
        4 => number < 1 << 32,
        _ => true,
    }
}
