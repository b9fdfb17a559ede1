ghost use Rattle.std.specs.Prelude.{◌≡◌, ◌⊎◌, Ok, Err, IfOk, IfErr};
ghost use Rattle.acpi_model.specs.Rsdp.{HasRsdp, HasRsdpBy};
ghost use Rattle.acpi_decode.specs.declared.fault.AcpiFault.{AcpiFault};
ghost use Rattle.acpi_decode.specs.declared.fault.AcpiFault.TheVariants.{OutOfMemory as NoMemory};
ghost use Rattle.acpi_decode.specs.declared.walked.Walked.{Walked};
ghost use Rattle.acpi_decode.specs.Faults.{IsWalked, IsWalkedBy, First, FirstBy, OrNoMemory};

use crate::due::{Due, test_due};
use crate::fault::AcpiFault;
use crate::head::read_head;
use crate::root::read_root;
use crate::root_entries::take_tables;
use crate::view::MemView;
use acpi_model::{AcpiTables, Form, XSDT_FORM};
use std::alloc::Global;
use vt_outside::List;

/// What is read from an RSDP on.
#[derive(Debug, Drop)]
pub struct Walked {
    /// The tables.
    pub tables: AcpiTables,
    /// The id of the machine's generation, which the DSDT leads to. A DSDT that is `Foreign` leads to none. The terms that are kept in
    /// `tables` tell 0 in place of its address.
    pub generation: Option<[u8; 16]>,
}

/// Reads the ACPI tables of the memory `view` from the RSDP at `rsdp`, where a valid one must stand (ACPI 6.5, 5.2). The tables take their
/// memory from `alloc`, and nothing is taken for a table before all of its tests have passed.
///
/// The XSDT is read, and then the tables that its entries name, in their order; zero entries are passed over. Of a table the first test
/// that fails is told, in this order: `OutsideRam` where its header isn't all RAM, `WrongSignature` where the XSDT is due, `BadLength`
/// where its form can't have as many bytes as it tells, `OutsideRam` where it isn't RAM as a whole, `BadSum`, `TwiceGiven` where it is the
/// second of its kind, `BadEntry` with the address of its first bad entry. Behind an FADT come the tests of the FACS and then of the DSDT
/// that it leads to, and behind those of the DSDT, where its terms tell the address of the id of the machine's generation, `OutsideRam` with
/// that address where the 16 bytes of the id aren't all RAM. `OutOfMemory` means that memory ran out.
///
/// A DSDT that has passed its tests is told as `Terms` where its definition block spells terms (20.2), and else as `Foreign`, with its
/// length: that it spells none is no fault. The allocations of an MCFG fill it (PCI Firmware Specification 3.3, 4.1.2).
pub fn walk<V: MemView>(alloc: Global, view: &V, rsdp: u64) -> Result<Walked, AcpiFault>
    requires { HasRsdp (V.seen view.now) rsdp }
    // What is read is shown, and what is shown is read.
    ensures shown { IfOk result (IsWalked (V.seen view.now) rsdp) }
    ensures shows { (walked : Walked) → IsWalked (V.seen view.now) rsdp walked → OrNoMemory result (Ok walked) }
    // A fault is the first, and where there is one it is told.
    ensures refused { IfErr result (λ fault. (fault ≡ NoMemory) ⊎ First (V.seen view.now) rsdp fault) }
    ensures refuses { (fault : AcpiFault) → First (V.seen view.now) rsdp fault → OrNoMemory result (Err fault) }
{
    walk_from(alloc, view, XSDT_FORM, rsdp)
}

/// Does the same by the form `form`, from a valid RSDP of that form on: its root stands in the place of the XSDT, and an FADT has as many
/// bytes as the form tells at least.
pub fn walk_from<V: MemView>(
    alloc: Global,
    view: &V,
    form: Form,
    rsdp: u64,
) -> Result<Walked, AcpiFault>
    requires { HasRsdpBy form (V.seen view.now) rsdp }
    ensures shown { IfOk result (IsWalkedBy form (V.seen view.now) rsdp) }
    ensures shows { (walked : Walked) → IsWalkedBy form (V.seen view.now) rsdp walked → OrNoMemory result (Ok walked) }
    ensures refused { IfErr result (λ fault. (fault ≡ NoMemory) ⊎ FirstBy form (V.seen view.now) rsdp fault) }
    ensures refuses { (fault : AcpiFault) → FirstBy form (V.seen view.now) rsdp fault → OrNoMemory result (Err fault) }
{
    read_from(alloc, view, form, rsdp)
}

// Does the same by the form `form`. That there is one reading, and so nothing else is told, isn't said here yet.
fn read_from<V: MemView>(
    alloc: Global,
    view: &V,
    form: Form,
    rsdp: u64,
) -> Result<Walked, AcpiFault>
    requires { HasRsdpBy form (V.seen view.now) rsdp }
    ensures shown { IfOk result (IsWalkedBy form (V.seen view.now) rsdp) }
    ensures refused { IfErr result (λ fault. (fault ≡ NoMemory) ⊎ FirstBy form (V.seen view.now) rsdp fault) }
{
    let root = read_root(view, form, rsdp);
    let length = test_due(view, Due::Root(form), root.root)?;
    let head = read_head(alloc, view, root.root)?;
    let oem_id = root.oem_id;
    let mut found = Walked {
        tables: AcpiTables {
            oem_id,
            xsdt: head,
            fadt: None,
            facs: None,
            dsdt: None,
            madt: None,
            srat: None,
            slit: None,
            mcfg: None,
            hpet: None,
            others: List::new(alloc),
        },
        generation: None,
    };
    take_tables(alloc, view, form, root.root, length, &mut found)?;
    Ok(found)
}
