ghost use Rattle.std.specs.Prelude.{◌≡◌, ◌⊎◌, true, None, OnOk, IfErr};
ghost use Rattle.acpi_model.specs.Form.{form_of};
ghost use Rattle.acpi_model.specs.Acpi.{kind_by as kind_for};
ghost use Rattle.acpi_decode.specs.declared.fault.AcpiFault.TheVariants.{OutOfMemory as NoMemory};
ghost use Rattle.acpi_decode.specs.Seen.{is_ram, signature_at, total_at};
ghost use Rattle.acpi_decode.specs.KnownKinds.{kind_of};
ghost use Rattle.acpi_decode.specs.Taken.{IsTaken, IsRefused, has_kind, with_found};

use crate::fault::AcpiFault;
use crate::front::{Front, test_header};
use crate::kind::{KnownKind, known_kind};
use crate::table::{has_room, read_table};
use crate::targets::read_targets;
use crate::view::MemView;
use crate::walked::Walked;
use crate::whole::test_whole;
use acpi_model::{AcpiTables, FadtTargets, Form, HEADER_SIZE, OtherTable, Table};
use std::alloc::Global;

/// Does with the table at `at` what [`walk`](crate::walk) does with one that an entry of the XSDT names: reads it, and what it leads to, and
/// adds them to `found`, which was found before it. Where `short` is true, an FADT may have 116 bytes or more, else it has 276 at least. The
/// errors are those of [`walk`](crate::walk); after one, `found` must not be used.
pub fn take_table<V: MemView>(
    alloc: Global,
    view: &V,
    at: u64,
    short: bool,
    found: &mut Walked,
) -> Result<(), AcpiFault>
    ensures taken { OnOk result (IsTaken (form_of short) (V.seen view.now) at found.old found.new) }
    ensures fault { IfErr result (λ fault. (fault ≡ NoMemory) ⊎ IsRefused (form_of short) (V.seen view.now) at found.old fault) }
{
    take_at(alloc, view, Form::of(short), at, found)
}

/// Reads the table of the form `form` at `address`, and what it leads to, and adds them to `found`, which was found before it. The errors are
/// those of [`walk`](crate::walk); after one, nothing is said of `found`.
pub(crate) fn take_at<V: MemView>(
    alloc: Global,
    view: &V,
    form: Form,
    address: u64,
    found: &mut Walked,
) -> Result<(), AcpiFault>
    ensures taken { OnOk result (IsTaken form (V.seen view.now) address found.old found.new) }
    ensures fault { IfErr result (λ fault. (fault ≡ NoMemory) ⊎ IsRefused form (V.seen view.now) address found.old fault) }
{
    let front = test_header(view, address)?;
    match known_kind(&front.signature) {
        Some(kind) => take_known(alloc, view, form, kind, address, front.length, found),
        None => take_other(view, form, address, front, found),
    }
}

// Adds the table at `address`, whose signature isn't that of a known kind. Its signature and its length are told.
fn take_other<V: MemView>(
    view: &V,
    form: Form,
    address: u64,
    front: Front,
    found: &mut Walked,
) -> Result<(), AcpiFault>
    requires header { is_ram (V.seen view.now) address 36 ≡ true }
    requires signed { front.signature ≡ signature_at (V.seen view.now) address }
    requires told { front.length ≡ total_at (V.seen view.now) address }
    requires other { kind_for form front.signature ≡ None }
    ensures taken { OnOk result (IsTaken form (V.seen view.now) address found.old found.new) }
    ensures fault { IfErr result (λ fault. (fault ≡ NoMemory) ⊎ IsRefused form (V.seen view.now) address found.old fault) }
{
    if front.length < HEADER_SIZE {
        return Err(AcpiFault::BadLength(address));
    }
    test_whole(view, address, front.length)?;
    let signature = front.signature;
    found.tables.others.push(OtherTable {
        signature,
        length: front.length,
    })?;
    Ok(())
}

// Adds the table at `address`, of the kind `kind` in the form `form`, and what it leads to.
fn take_known<V: MemView>(
    alloc: Global,
    view: &V,
    form: Form,
    kind: KnownKind,
    address: u64,
    length: u32,
    found: &mut Walked,
) -> Result<(), AcpiFault>
    requires header { is_ram (V.seen view.now) address 36 ≡ true }
    requires signed { (kind_of form kind).signature ≡ signature_at (V.seen view.now) address }
    requires told { length ≡ total_at (V.seen view.now) address }
    ensures taken { OnOk result (IsTaken form (V.seen view.now) address found.old found.new) }
    ensures fault { IfErr result (λ fault. (fault ≡ NoMemory) ⊎ IsRefused form (V.seen view.now) address found.old fault) }
{
    if !has_room(view, form, kind, address, length) {
        return Err(AcpiFault::BadLength(address));
    }
    test_whole(view, address, length)?;
    if has_kind(&found.tables, kind) {
        return Err(AcpiFault::TwiceGiven(address));
    }
    let table = read_table(alloc, view, form, kind, address, length)?;
    let targets = read_targets(alloc, view, &table)?;
    add_table(found, table, targets);
    Ok(())
}

// Whether a table of the kind `kind` is among `tables`.
fn has_kind(tables: &AcpiTables, kind: KnownKind) -> bool
    ensures { result ≡ has_kind kind tables.now }
{
    match kind {
        KnownKind::Fadt => tables.fadt.is_some(),
        KnownKind::Madt => tables.madt.is_some(),
        KnownKind::Srat => tables.srat.is_some(),
        KnownKind::Slit => tables.slit.is_some(),
        KnownKind::Mcfg => tables.mcfg.is_some(),
        KnownKind::Hpet => tables.hpet.is_some(),
    }
}

// Puts a table of a known kind, and what it leads to, in its place in `found`.
fn add_table(found: &mut Walked, table: Table, targets: FadtTargets)
    ensures { found.new ≡ with_found table targets found.old }
{
    let tables = &mut found.tables;
    match table {
        Table::Fadt(fadt, _) => {
            tables.fadt = Some(fadt);
            tables.facs = targets.facs;
            tables.dsdt = targets.dsdt;
            found.generation = targets.generation;
        }
        Table::Madt(madt) => tables.madt = Some(madt),
        Table::Srat(srat) => tables.srat = Some(srat),
        Table::Slit(slit) => tables.slit = Some(slit),
        Table::Mcfg(mcfg) => tables.mcfg = Some(mcfg),
        Table::Hpet(hpet) => tables.hpet = Some(hpet),
    }
}
