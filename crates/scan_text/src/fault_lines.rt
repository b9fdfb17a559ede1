ghost use Rattle.std.specs.Prelude.{◌≡◌};
ghost use Rattle.scan_text.specs.Lines.{acpi_fault_line, acpi_line, smbios_fault_line, smbios_line};

use crate::digits::push_digits;
use acpi_decode::AcpiFault;
use smbios_decode::SmbiosFault;
use vt_outside::{Line, words};

/// Returns the line that tells `fault`, with its line feed: its number, and the address of the table or of the entry, as in
/// `tables: acpi fault 2 at 00000000000f5a40`. For want of memory it is `out of memory`.
pub fn acpi_line(fault: AcpiFault) -> Line
    ensures { result.bytes ≡ acpi_line fault }
{
    match fault {
        AcpiFault::OutsideRam(address) => acpi_fault_line(1, address),
        AcpiFault::BadSum(address) => acpi_fault_line(2, address),
        AcpiFault::BadLength(address) => acpi_fault_line(3, address),
        AcpiFault::BadEntry(address) => acpi_fault_line(4, address),
        AcpiFault::WrongSignature(address) => acpi_fault_line(5, address),
        AcpiFault::TwiceGiven(address) => acpi_fault_line(6, address),
        AcpiFault::OutOfMemory => words("out of memory\n"),
    }
}

fn acpi_fault_line(number: u8, address: u64) -> Line
    ensures { result.bytes ≡ acpi_fault_line number address }
{
    let mut decimal = itoa::Buffer::new();
    let mut line = Line::new();
    line.push_str("tables: acpi fault ");
    line.push_str(decimal.format(number));
    line.push_str(" at ");
    push_digits(&mut line, &address.to_be_bytes());
    line.push_str("\n");
    line
}

/// Returns the line that tells `fault`, with its line feed: its number, and where the structure begins, in bytes from the beginning of
/// the table, as in `tables: smbios fault 1 at 96`. For want of memory it is `out of memory`.
pub fn smbios_line(fault: SmbiosFault) -> Line
    ensures { result.bytes ≡ smbios_line fault }
{
    match fault {
        SmbiosFault::Truncated(place) => smbios_fault_line(1, place),
        SmbiosFault::ShortStructure(place) => smbios_fault_line(2, place),
        SmbiosFault::NoEnd => smbios_fault_line(3, 0),
        SmbiosFault::NoSuchString { place, .. } => smbios_fault_line(4, place),
        SmbiosFault::OutOfMemory => words("out of memory\n"),
    }
}

fn smbios_fault_line(number: u8, place: u32) -> Line
    ensures { result.bytes ≡ smbios_fault_line number place }
{
    let mut decimal = itoa::Buffer::new();
    let mut line = Line::new();
    line.push_str("tables: smbios fault ");
    line.push_str(decimal.format(number));
    line.push_str(" at ");
    line.push_str(decimal.format(place));
    line.push_str("\n");
    line
}
