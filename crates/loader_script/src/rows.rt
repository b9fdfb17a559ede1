//! The rows of each command, by which it is written and read.

ghost use Rattle.std.specs.Prelude.{◌≡◌};
ghost use Rattle.std.specs.List.{AllByRecursion};
ghost use Rattle.vt_layout.specs.Rows.{IsRow};
ghost use Rattle.loader_script.specs.Spelling.{allocate_rows, add_pointer_rows, add_checksum_rows, write_pointer_rows, command_rows};

use vt_layout::Row;
use vt_outside::Name;

pub(crate) fn allocate_rows(file: &Name, align: u32, zone: u8) -> [Row; 5]
    ensures rows { result ≡ allocate_rows file.now align zone }
    ensures are_rows { AllByRecursion IsRow result }
{
    [
        Row::Number(4, 1),
        Row::of_name(file),
        Row::Number(4, u64::from(align)),
        Row::Number(1, u64::from(zone)),
        Row::Reserved(63),
    ]
}

pub(crate) fn add_pointer_rows(dest: &Name, src: &Name, offset: u32, size: u8) -> [Row; 6]
    ensures rows { result ≡ add_pointer_rows dest.now src.now offset size }
    ensures are_rows { AllByRecursion IsRow result }
{
    [
        Row::Number(4, 2),
        Row::of_name(dest),
        Row::of_name(src),
        Row::Number(4, u64::from(offset)),
        Row::Number(1, u64::from(size)),
        Row::Reserved(7),
    ]
}

pub(crate) fn add_checksum_rows(file: &Name, offset: u32, start: u32, count: u32) -> [Row; 6]
    ensures rows { result ≡ add_checksum_rows file.now offset start count }
    ensures are_rows { AllByRecursion IsRow result }
{
    [
        Row::Number(4, 3),
        Row::of_name(file),
        Row::Number(4, u64::from(offset)),
        Row::Number(4, u64::from(start)),
        Row::Number(4, u64::from(count)),
        Row::Reserved(56),
    ]
}

pub(crate) fn write_pointer_rows(
    dest: &Name,
    src: &Name,
    dst_offset: u32,
    src_offset: u32,
    size: u8,
) -> [Row; 7]
    ensures rows { result ≡ write_pointer_rows dest.now src.now dst_offset src_offset size }
    ensures are_rows { AllByRecursion IsRow result }
{
    [
        Row::Number(4, 4),
        Row::of_name(dest),
        Row::of_name(src),
        Row::Number(4, u64::from(dst_offset)),
        Row::Number(4, u64::from(src_offset)),
        Row::Number(1, u64::from(size)),
        Row::Reserved(3),
    ]
}

// Of a command that has nothing but its number.
pub(crate) fn command_rows(command: u32) -> [Row; 2]
    ensures rows { result ≡ command_rows command }
    ensures are_rows { AllByRecursion IsRow result }
{
    [Row::Number(4, u64::from(command)), Row::Reserved(124)]
}
