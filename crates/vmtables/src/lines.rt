//! The lines that tell faults to a person, put together on the stack.

ghost use Rattle.std.specs.Prelude.{◌≡◌, ◌≤◌, ◌++◌, ◌∷◌, [], codes, decimal, length};
ghost use Rattle.vmtables.specs.Outcome.{cause_number, container_line, container_number, dump_line, dump_number, install_line, install_number};
ghost use Rattle.vmtables.specs.Outcome.{load_line, profile_line, tables_line};

use anchor_scan::ScanFault;
use cfg_directory::ImageFault;
use command_acts::LoadFault;
use loader_script::Cause;
use memory_dump::DumpFault;
use scan_text::{acpi_line, smbios_line};
use smbios_install::InstallFault;
use vt_outside::{Line, numbered_line, words};

/// The line of a container that is refused: the number of its fault.
pub(crate) fn container_line(fault: ImageFault) -> Line
    ensures { result.bytes ≡ container_line fault }
{
    numbered_line("container: fault ", u32::from(container_number(fault)))
}

// The number of a container's fault, in the order of the causes. Want of memory is none of them.
fn container_number(fault: ImageFault) -> u8
    ensures { result ≡ container_number fault }
{
    match fault {
        ImageFault::Truncated => 1,
        ImageFault::TooMany => 2,
        ImageFault::BadName(_) => 3,
        ImageFault::TwiceNamed(_) => 4,
        ImageFault::TwiceSelected(_) => 5,
        ImageFault::BadSelect(_) => 6,
        ImageFault::BadFlag(_) => 7,
        ImageFault::TrailingBytes => 8,
        ImageFault::TooLarge => 9,
        ImageFault::OutOfMemory => 0,
    }
}

/// The line of files that aren't installed: the number of the reason.
pub(crate) fn install_line(fault: InstallFault) -> Line
    ensures { result.bytes ≡ install_line fault }
{
    numbered_line("install: fault ", u32::from(install_number(fault)))
}

// The number of a reason against installing, in the order of the reasons. Want of memory is none of them.
fn install_number(fault: InstallFault) -> u8
    ensures { result ≡ install_number fault }
{
    match fault {
        InstallFault::NoAnchor => 1,
        InstallFault::NoTables => 2,
        InstallFault::EmptyTables => 3,
        InstallFault::BadAnchor => 4,
        InstallFault::ScriptLength => 5,
        InstallFault::AlreadyPlaced { .. } => 6,
        InstallFault::ScriptFull => 7,
        InstallFault::TooMany => 8,
        InstallFault::TooLarge => 9,
        InstallFault::OutOfMemory => 0,
    }
}

/// The line of a load that ended before its script did.
pub(crate) fn load_line(fault: LoadFault) -> Line
    ensures { result.bytes ≡ load_line fault }
{
    match fault {
        LoadFault::NoScript => words("script: none\n"),
        LoadFault::ScriptLength => words("script: length\n"),
        LoadFault::Command { index, cause } => command_line(index, cause),
        LoadFault::NoRoom { index } => numbered_line("no room at command ", index),
    }
}

fn command_line(index: u32, cause: Cause) -> Line
    ensures { result.bytes ≡ codes "command " ++ decimal index ++ codes ": cause " ++ decimal (cause_number cause) ++ 10 ∷ [] }
{
    let mut number = itoa::Buffer::new();
    let mut line = Line::new();
    line.push_str("command ");
    line.push_str(number.format(index));
    line.push_str(": cause ");
    line.push_str(number.format(cause_number(cause)));
    line.push_str("\n");
    line
}

// The number of a cause, in the order of the causes.
fn cause_number(cause: Cause) -> u8
    ensures { result ≡ cause_number cause }
{
    match cause {
        Cause::BadName => 1,
        Cause::NoFile => 2,
        Cause::AlreadyPlaced => 3,
        Cause::NotPlaced => 4,
        Cause::Empty => 5,
        Cause::BadAlign => 6,
        Cause::BadZone => 7,
        Cause::BadSize => 8,
        Cause::ReadOnly => 9,
        Cause::OutOfRange => 10,
        Cause::TooFar => 11,
    }
}

/// The line of bytes that are no dump: the number of their fault, and that of the line at fault.
pub(crate) fn dump_line(fault: DumpFault, number: u32) -> Line
    ensures { result.bytes ≡ dump_line fault number }
{
    let mut digits = itoa::Buffer::new();
    let mut line = Line::new();
    line.push_str("dump: fault ");
    line.push_str(digits.format(dump_number(fault)));
    line.push_str(" line ");
    line.push_str(digits.format(number));
    line.push_str("\n");
    line
}

// The number of a dump's fault, in the order of the faults. Want of memory is none of them.
fn dump_number(fault: DumpFault) -> u8
    ensures { result ≡ dump_number fault }
{
    match fault {
        DumpFault::BadHeader => 1,
        DumpFault::BadLine(_) => 2,
        DumpFault::OutOfOrder(_) => 3,
        DumpFault::AllFill(_) => 4,
        DumpFault::NotRam(_) => 5,
        DumpFault::Truncated => 6,
        DumpFault::OutOfMemory => 0,
    }
}

/// The line of the first fault of a memory's tables.
pub(crate) fn tables_line(fault: ScanFault) -> Line
    ensures { result.bytes ≡ tables_line fault }
{
    match fault {
        ScanFault::Acpi(fault) => acpi_line(fault),
        ScanFault::Smbios(fault) => smbios_line(fault),
        ScanFault::OutOfMemory => words("out of memory\n"),
    }
}

/// The line of a memory that no machine shows: the first item that fails.
pub(crate) fn profile_line(item: u8) -> Line
    ensures { result.bytes ≡ profile_line item }
{
    numbered_line("tables: not this profile, item ", u32::from(item))
}
