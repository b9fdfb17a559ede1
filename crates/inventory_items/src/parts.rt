//! The parts of an inventory that are compared with those of another.

ghost use Rattle.std.specs.Prelude.{◌≡◌, option_map};
ghost use Rattle.inventory_items.specs.Items.{version_of, structures_item, maker_item, others_item};
ghost use Rattle.inventory_items.specs.Items.{fadt_in, facs_in, dsdt_in, madt_in, srat_in, slit_in, mcfg_in, hpet_in};

use acpi_model::{Dsdt, OtherTable};
use acpi_records::{Facs, Fadt, Head, HpetTable, Madt, Mcfg, Slit, Srat};
use smbios_model::Structure;
use table_model::Inventory;

/// Returns the version that the anchor of `inventory` tells and the revision of the document, where there is an anchor.
pub(crate) fn version_in(inventory: &Inventory) -> Option<(u8, u8, u8)>
    ensures { result ≡ option_map version_of inventory.now.smbios }
{
    let table = inventory.smbios.as_ref()?;
    Some((table.major, table.minor, table.docrev))
}

/// Returns the structures of `inventory`, where there is an anchor.
pub(crate) fn structures_in(inventory: &Inventory) -> Option<&[Structure]>
    ensures { option_map (λ structures. structures.now) result ≡ structures_item inventory.now }
{
    let table = inventory.smbios.as_ref()?;
    Some(table.structures.as_slice())
}

/// Returns the maker's id in the RSDP of `inventory` and the header of its XSDT, where there is an RSDP.
pub(crate) fn maker_in(inventory: &Inventory) -> Option<([u8; 6], Head)>
    ensures { result ≡ maker_item inventory.now }
{
    let tables = inventory.acpi.as_ref()?;
    Some((tables.oem_id, tables.xsdt))
}

/// Returns the FADT of `inventory`, where there is one.
pub(crate) fn fadt_in(inventory: &Inventory) -> Option<&Fadt>
    ensures { option_map (λ table. table.now) result ≡ fadt_in inventory.now }
{
    inventory.acpi.as_ref()?.fadt.as_ref()
}

/// Returns the FACS of `inventory`, where there is one.
pub(crate) fn facs_in(inventory: &Inventory) -> Option<Facs>
    ensures { result ≡ facs_in inventory.now }
{
    inventory.acpi.as_ref()?.facs
}

/// Returns the DSDT of `inventory`, where there is one.
pub(crate) fn dsdt_in(inventory: &Inventory) -> Option<&Dsdt>
    ensures { option_map (λ table. table.now) result ≡ dsdt_in inventory.now }
{
    inventory.acpi.as_ref()?.dsdt.as_ref()
}

/// Returns the MADT of `inventory`, where there is one.
pub(crate) fn madt_in(inventory: &Inventory) -> Option<&Madt>
    ensures { option_map (λ table. table.now) result ≡ madt_in inventory.now }
{
    inventory.acpi.as_ref()?.madt.as_ref()
}

/// Returns the SRAT of `inventory`, where there is one.
pub(crate) fn srat_in(inventory: &Inventory) -> Option<&Srat>
    ensures { option_map (λ table. table.now) result ≡ srat_in inventory.now }
{
    inventory.acpi.as_ref()?.srat.as_ref()
}

/// Returns the SLIT of `inventory`, where there is one.
pub(crate) fn slit_in(inventory: &Inventory) -> Option<&Slit>
    ensures { option_map (λ table. table.now) result ≡ slit_in inventory.now }
{
    inventory.acpi.as_ref()?.slit.as_ref()
}

/// Returns the MCFG of `inventory`, where there is one.
pub(crate) fn mcfg_in(inventory: &Inventory) -> Option<&Mcfg>
    ensures { option_map (λ table. table.now) result ≡ mcfg_in inventory.now }
{
    inventory.acpi.as_ref()?.mcfg.as_ref()
}

/// Returns the HPET table of `inventory`, where there is one.
pub(crate) fn hpet_in(inventory: &Inventory) -> Option<&HpetTable>
    ensures { option_map (λ table. table.now) result ≡ hpet_in inventory.now }
{
    inventory.acpi.as_ref()?.hpet.as_ref()
}

/// Returns the tables of other signatures of `inventory`; none where there is no RSDP.
pub(crate) fn others_in(inventory: &Inventory) -> &[OtherTable]
    ensures { result.now ≡ others_item inventory.now }
{
    match &inventory.acpi {
        Some(tables) => tables.others.as_slice(),
        None => &[],
    }
}
