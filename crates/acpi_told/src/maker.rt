//! The maker of tables (ACPI 6.5, 5.2.5.3 and 5.2.6).

ghost use Rattle.std.specs.Prelude.{◌≡◌, ◌≤◌, length, take, IfOk};
ghost use Rattle.acpi_model.specs.Maker.{unpadded, acpi_in};

use acpi_model::Head;
use machine_desc::Acpi;
use std::alloc::Global;
use vt_outside::{OutOfMemory, Text};

// The maker whose identifiers are padded so, in the RSDP and in the header of the XSDT.
pub(crate) fn acpi_in(alloc: Global, oem_id: &[u8; 6], xsdt: &Head) -> Result<Acpi, OutOfMemory>
    ensures { IfOk result (λ acpi. acpi ≡ acpi_in oem_id.now xsdt.now) }
{
    let oem_id = unpadded(alloc, oem_id)?;
    Ok(Acpi {
        oem_id,
        oem_table_id: unpadded(alloc, &xsdt.oem_table_id)?,
    })
}

// A text without the spaces at its end.
fn unpadded(alloc: Global, padded: &[u8]) -> Result<Text, OutOfMemory>
    ensures { IfOk result (λ text. text ≡ unpadded padded.now) }
{
    let mut text = Text::new(alloc);
    text.extend(&padded[..unpadded_length(padded)])?;
    Ok(text)
}

// How many bytes a text has without the spaces at its end.
fn unpadded_length(padded: &[u8]) -> usize
    ensures within { result ≤ length padded.now }
    ensures front { take result padded.now ≡ unpadded padded.now }
{
    let mut length = 0;
    for (place, byte) in padded.iter().enumerate() {
        if *byte != b' ' {
            length = place + 1;
        }
    }
    length
}
