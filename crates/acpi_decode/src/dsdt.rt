ghost use Rattle.std.specs.Prelude.{◌≡◌, ◌⊎◌, IfOk, IfErr};
ghost use Rattle.acpi_model.specs.Found.{IsDsdt, IsIdAt, IsKept, LeadsToDsdt};
ghost use Rattle.acpi_decode.specs.declared.fault.AcpiFault.TheVariants.{OutOfMemory as NoMemory};
ghost use Rattle.acpi_decode.specs.Seen.{total_at, bytes_from};
ghost use Rattle.acpi_decode.specs.Read.{head_in};
ghost use Rattle.acpi_decode.specs.Tests.{FirstFails, NoFault, Pass};
ghost use Rattle.acpi_decode.specs.TableTests.{dsdt_tests};
ghost use Rattle.acpi_decode.specs.IdTests.{told_by, ram_tests, read_dsdt_tests};
ghost use Rattle.acpi_decode.specs.KindTests.{tests_at};

use crate::block::read_block;
use crate::due::{Due, test_due};
use crate::fault::AcpiFault;
use crate::head::read_head;
use crate::view::MemView;
use acpi_model::{Dsdt, HEADER_SIZE, Head};
use aml_decode::decode_terms;
use aml_generation::take_generation;
use aml_terms::AmlFault;
use std::alloc::Global;
use vt_outside::OutOfMemory;

// How many bytes the id of a machine's generation has.
const ID_SIZE: u32 = 16;

/// What an address leads to.
#[derive(Drop)]
pub(crate) struct FoundDsdt {
    /// The DSDT, as it is kept: its terms tell 0 in place of the address of the id.
    pub(crate) dsdt: Option<Dsdt>,
    /// The id of the machine's generation, to which the DSDT leads.
    pub(crate) generation: Option<[u8; 16]>,
}

/// Reads the DSDT at `address`, to which an FADT leads (ACPI 6.5, 5.2.11.1): its header, and the terms that its definition block spells,
/// or where it spells none, how many bytes it has. Where the terms tell the address of the id of the machine's generation, the id is read,
/// and 0 is kept in place of its address. Nothing is found where `address` is 0, which leads nowhere. The errors are those of [`test_due`],
/// and behind them `OutsideRam` with the id's address.
pub(crate) fn read_dsdt<V: MemView>(
    alloc: Global,
    view: &V,
    address: u64,
) -> Result<FoundDsdt, AcpiFault>
    ensures read { IfOk result (λ found. LeadsToDsdt (V.seen view.now) address found.dsdt found.generation) }
    ensures passes { IfOk result (λ found. Pass (tests_at (read_dsdt_tests (V.seen view.now)) address)) }
    ensures fault { IfErr result (λ fault. (fault ≡ NoMemory) ⊎ FirstFails (tests_at (read_dsdt_tests (V.seen view.now)) address) NoFault fault) }
{
    if address == 0 {
        return Ok(FoundDsdt {
            dsdt: None,
            generation: None,
        });
    }
    let length = test_due(view, Due::Dsdt, address)?;
    let head = read_head(alloc, view, address)?;
    let mut dsdt = read_definitions(alloc, view, address, head, length)?;
    let generation = take_id(view, &mut dsdt)?;
    Ok(FoundDsdt {
        dsdt: Some(dsdt),
        generation,
    })
}

// Reads the definition block of the DSDT at `address`, which has passed its tests, begins with `head` and has `length` bytes. The block is
// copied to be read.
fn read_definitions<V: MemView>(
    alloc: Global,
    view: &V,
    address: u64,
    head: Head,
    length: u32,
) -> Result<Dsdt, OutOfMemory>
    requires told { length ≡ total_at (V.seen view.now) address }
    requires passes { Pass (dsdt_tests (V.seen view.now) address) }
    requires head { head ≡ head_in (bytes_from (V.seen view.now) address 36) }
    ensures { IfOk result (IsDsdt (V.seen view.now) address) }
{
    let block = read_block(alloc, view, address, HEADER_SIZE, length)?;
    match decode_terms(alloc, block.as_slice()) {
        Ok(terms) => Ok(Dsdt::Terms { head, terms }),
        Err(fault) => match fault {
            AmlFault::OutOfMemory => Err(OutOfMemory),
            _ => Ok(Dsdt::Foreign { head, length }),
        },
    }
}

// Takes the address of the id of the machine's generation out of a DSDT, where it tells one, and reads the id. After an error nothing is
// said of the DSDT.
fn take_id<V: MemView>(view: &V, dsdt: &mut Dsdt) -> Result<Option<[u8; 16]>, AcpiFault>
    ensures kept { IfOk result (IsKept (V.seen view.now) dsdt.old dsdt.new) }
    ensures passes { IfOk result (λ id. Pass (ram_tests (V.seen view.now) (told_by dsdt.old))) }
    ensures fault { IfErr result (FirstFails (ram_tests (V.seen view.now) (told_by dsdt.old)) NoFault) }
{
    match dsdt {
        Dsdt::Terms { terms, .. } => read_id(view, take_generation(terms)),
        Dsdt::Foreign { .. } => Ok(None),
    }
}

// Reads the id at the address that may be told, where it must be RAM, else the error is `OutsideRam`.
fn read_id<V: MemView>(view: &V, told: Option<u64>) -> Result<Option<[u8; 16]>, AcpiFault>
    ensures read { IfOk result (IsIdAt (V.seen view.now) told) }
    ensures passes { IfOk result (λ id. Pass (ram_tests (V.seen view.now) told)) }
    ensures fault { IfErr result (FirstFails (ram_tests (V.seen view.now) told) NoFault) }
{
    let Some(address) = told else {
        return Ok(None);
    };
    if !view.is_ram_range(address, ID_SIZE) {
        return Err(AcpiFault::OutsideRam(address));
    }
    let mut id = [0; ID_SIZE as usize];
    view.copy_out(address, &mut id);
    Ok(Some(id))
}
