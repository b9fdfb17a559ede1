ghost use Rattle.std.specs.Prelude.{◌≡◌, ◌⊎◌, true, false, cond, nat_le, Some, IfOk, IfErr};
ghost use Rattle.acpi_decode.specs.declared.fault.AcpiFault.TheVariants.{OutOfMemory as NoMemory};
ghost use Rattle.acpi_decode.specs.Seen.{is_ram, total_at};
ghost use Rattle.acpi_decode.specs.KindTests.{has_room};
ghost use Rattle.acpi_decode.specs.Faults.{BadEntryOf};
ghost use Rattle.acpi_decode.specs.KnownKinds.{kind_of};
ghost use Rattle.acpi_decode.specs.Read.{IsRead};

use crate::fadt::read_fadt;
use crate::fault::AcpiFault;
use crate::hpet::{HPET_SIZE, read_hpet};
use crate::kind::KnownKind;
use crate::madt::{MADT_FRONT_SIZE, read_madt};
use crate::mcfg::{is_mcfg_length, read_mcfg};
use crate::slit::{count_at, is_slit_length, read_slit};
use crate::srat::{SRAT_FRONT_SIZE, read_srat};
use crate::view::MemView;
use acpi_model::{Form, HEADER_SIZE, Table};
use std::alloc::Global;

/// Tells whether the table of the kind `kind` at `address`, which tells `length` bytes, has its form: as many bytes as its rows need.
pub(crate) fn has_room<V: MemView>(
    view: &V,
    form: Form,
    kind: KnownKind,
    address: u64,
    length: u32,
) -> bool
    requires header { is_ram (V.seen view.now) address 36 ≡ true }
    requires told { length ≡ total_at (V.seen view.now) address }
    ensures { result ≡ has_room (kind_of form kind) (V.seen view.now) address }
{
    match kind {
        KnownKind::Fadt => is_fadt_length(form, length),
        KnownKind::Madt => length >= MADT_FRONT_SIZE,
        KnownKind::Srat => length >= SRAT_FRONT_SIZE,
        KnownKind::Slit => is_slit_length(length, count_at(view, address)),
        KnownKind::Mcfg => is_mcfg_length(length),
        KnownKind::Hpet => length >= HPET_SIZE,
    }
}

// Whether an FADT of the form `form` may have `length` bytes.
fn is_fadt_length(form: Form, length: u32) -> bool
    ensures { result ≡ cond (nat_le form.least_fadt length) (nat_le 36 length) false }
{
    length >= form.least_fadt && length >= HEADER_SIZE
}

/// Reads the table of the kind `kind` at `address`, which has `length` bytes, all of them RAM, and the form of its kind. `BadEntry` tells
/// the address of its first bad entry.
pub(crate) fn read_table<V: MemView>(
    alloc: Global,
    view: &V,
    form: Form,
    kind: KnownKind,
    address: u64,
    length: u32,
) -> Result<Table, AcpiFault>
    requires told { length ≡ total_at (V.seen view.now) address }
    requires ram { is_ram (V.seen view.now) address length ≡ true }
    requires room { has_room (kind_of form kind) (V.seen view.now) address ≡ true }
    ensures read { IfOk result (IsRead (kind_of form kind) (V.seen view.now) address) }
    ensures fault { IfErr result (λ fault. (fault ≡ NoMemory) ⊎ BadEntryOf (Some (kind_of form kind)) (V.seen view.now) address fault) }
{
    Ok(match kind {
        KnownKind::Fadt => {
            let found = read_fadt(alloc, view, address, length)?;
            Table::Fadt(found.fadt, found.links)
        }
        KnownKind::Madt => Table::Madt(read_madt(alloc, view, address, length)?),
        KnownKind::Srat => Table::Srat(read_srat(alloc, view, address, length)?),
        KnownKind::Slit => Table::Slit(read_slit(alloc, view, address)?),
        KnownKind::Mcfg => Table::Mcfg(read_mcfg(alloc, view, address, length)?),
        KnownKind::Hpet => Table::Hpet(read_hpet(alloc, view, address)?),
    })
}
