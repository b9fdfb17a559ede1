ghost use Rattle.std.specs.Prelude.{◌≡◌, ◌⊎◌, IfOk, IfErr};
ghost use Rattle.acpi_model.specs.FadtKind.{links_of};
ghost use Rattle.acpi_model.specs.Links.{address_of, wide_or};
ghost use Rattle.acpi_model.specs.Found.{LeadTo};
ghost use Rattle.acpi_decode.specs.declared.fault.AcpiFault.TheVariants.{OutOfMemory as NoMemory};
ghost use Rattle.acpi_decode.specs.Faults.{TargetFault};

use crate::dsdt::read_dsdt;
use crate::facs::read_facs;
use crate::fault::AcpiFault;
use crate::view::MemView;
use acpi_model::{FadtTargets, Link, Table};
use std::alloc::Global;

/// Reads what `table` leads to: an FADT leads to a FACS and a DSDT, which are read in this order, the DSDT with the id to which it leads,
/// and no other table leads anywhere. The errors are those of [`read_facs`] and of [`read_dsdt`].
pub(crate) fn read_targets<V: MemView>(
    alloc: Global,
    view: &V,
    table: &Table,
) -> Result<FadtTargets, AcpiFault>
    ensures read { IfOk result (LeadTo (V.seen view.now) (links_of table.now)) }
    ensures fault { IfErr result (λ fault. (fault ≡ NoMemory) ⊎ TargetFault (V.seen view.now) (links_of table.now) fault) }
{
    match table {
        Table::Fadt(_, links) => {
            let facs_address = wide_or(links.x_firmware_ctrl, links.firmware_ctrl);
            let facs = read_facs(alloc, view, facs_address)?;
            let found = read_dsdt(alloc, view, wide_or(links.x_dsdt, links.dsdt))?;
            Ok(FadtTargets {
                facs,
                dsdt: found.dsdt,
                generation: found.generation,
            })
        }
        _ => Ok(FadtTargets {
            facs: None,
            dsdt: None,
            generation: None,
        }),
    }
}

// The address of what two links lead to: the one that `wide` tells, and where it leads nowhere, the one that `narrow` tells.
fn wide_or(wide: Link, narrow: Link) -> u64
    ensures { result ≡ wide_or wide narrow }
{
    let address = address_of(wide);
    if address == 0 {
        address_of(narrow)
    } else {
        address
    }
}

// The address that a link tells; an offset tells none yet.
fn address_of(link: Link) -> u64
    ensures { result ≡ address_of link }
{
    match link {
        Link::Offset(_) => 0,
        Link::Address(address) => address,
    }
}
