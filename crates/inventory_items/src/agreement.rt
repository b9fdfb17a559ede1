//! The items, each asked of two inventories.

ghost use Rattle.std.specs.Prelude.{◌↔◌, IsTrue, IfOk};
ghost use Rattle.inventory_items.specs.Items.{AgreeIn, top_item, structures_item, maker_item, power_item, devices_item};
ghost use Rattle.inventory_items.specs.Items.{madt_in, srat_in, slit_in, mcfg_in, hpet_in, others_item};

use crate::parts::{
    dsdt_in, facs_in, fadt_in, hpet_in, madt_in, maker_in, mcfg_in, others_in, slit_in, srat_in,
    structures_in, version_in,
};
use crate::records::are_both_same_records;
use crate::same::{are_all_same, are_both_same};
use crate::structures::are_same_structures;
use std::alloc::Global;
use table_model::Inventory;
use vt_outside::OutOfMemory;

/// Tells whether `left` and `right` have one top, and one version of the anchor.
pub(crate) fn agree_in_top(left: &Inventory, right: &Inventory) -> bool
    ensures { IsTrue result ↔ AgreeIn top_item left.now right.now }
{
    left.top == right.top && version_in(left) == version_in(right)
}

/// Tells whether `left` and `right` have the same structures. Memory is taken from `alloc`. Returns `OutOfMemory` when memory runs out.
pub(crate) fn agree_in_structures(
    alloc: Global,
    left: &Inventory,
    right: &Inventory,
) -> Result<bool, OutOfMemory>
    ensures { IfOk result (λ agree. IsTrue agree ↔ AgreeIn structures_item left.now right.now) }
{
    match (structures_in(left), structures_in(right)) {
        (Some(left), Some(right)) => are_same_structures(alloc, left, right),
        (None, None) => Ok(true),
        _ => Ok(false),
    }
}

/// Tells whether `left` and `right` have one maker's id, and one header of the XSDT.
pub(crate) fn agree_in_maker(left: &Inventory, right: &Inventory) -> bool
    ensures { IsTrue result ↔ AgreeIn maker_item left.now right.now }
{
    maker_in(left) == maker_in(right)
}

/// Tells whether `left` and `right` have one FADT and one FACS. Memory is taken from `alloc`. Returns `OutOfMemory` when memory runs out.
pub(crate) fn agree_in_power(
    alloc: Global,
    left: &Inventory,
    right: &Inventory,
) -> Result<bool, OutOfMemory>
    ensures { IfOk result (λ agree. IsTrue agree ↔ AgreeIn power_item left.now right.now) }
{
    if facs_in(left) != facs_in(right) {
        return Ok(false);
    }
    are_both_same_records(alloc, fadt_in(left), fadt_in(right))
}

/// Tells whether `left` and `right` have one DSDT, and one id of the machine's generation.
pub(crate) fn agree_in_devices(left: &Inventory, right: &Inventory) -> bool
    ensures { IsTrue result ↔ AgreeIn devices_item left.now right.now }
{
    left.generation == right.generation && are_both_same(dsdt_in(left), dsdt_in(right))
}

/// Tells whether `left` and `right` have one MADT.
pub(crate) fn agree_in_madt(left: &Inventory, right: &Inventory) -> bool
    ensures { IsTrue result ↔ AgreeIn madt_in left.now right.now }
{
    are_both_same(madt_in(left), madt_in(right))
}

/// Tells whether `left` and `right` have one SRAT.
pub(crate) fn agree_in_srat(left: &Inventory, right: &Inventory) -> bool
    ensures { IsTrue result ↔ AgreeIn srat_in left.now right.now }
{
    are_both_same(srat_in(left), srat_in(right))
}

/// Tells whether `left` and `right` have one SLIT.
pub(crate) fn agree_in_slit(left: &Inventory, right: &Inventory) -> bool
    ensures { IsTrue result ↔ AgreeIn slit_in left.now right.now }
{
    are_both_same(slit_in(left), slit_in(right))
}

/// Tells whether `left` and `right` have one MCFG.
pub(crate) fn agree_in_mcfg(left: &Inventory, right: &Inventory) -> bool
    ensures { IsTrue result ↔ AgreeIn mcfg_in left.now right.now }
{
    are_both_same(mcfg_in(left), mcfg_in(right))
}

/// Tells whether `left` and `right` have one HPET table. Memory is taken from `alloc`. Returns `OutOfMemory` when memory runs out.
pub(crate) fn agree_in_hpet(
    alloc: Global,
    left: &Inventory,
    right: &Inventory,
) -> Result<bool, OutOfMemory>
    ensures { IfOk result (λ agree. IsTrue agree ↔ AgreeIn hpet_in left.now right.now) }
{
    are_both_same_records(alloc, hpet_in(left), hpet_in(right))
}

/// Tells whether `left` and `right` have the same tables of other signatures.
pub(crate) fn agree_in_others(left: &Inventory, right: &Inventory) -> bool
    ensures { IsTrue result ↔ AgreeIn others_item left.now right.now }
{
    are_all_same(others_in(left), others_in(right))
}
