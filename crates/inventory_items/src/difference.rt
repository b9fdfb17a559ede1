ghost use Rattle.std.specs.Prelude.{MatchOption, IfOk, [], ◌∷◌};
ghost use Rattle.inventory_items.specs.Items.{items, AgreeIn, AgreeInAll, IsFirstDifference, top_item, structures_item, maker_item};
ghost use Rattle.inventory_items.specs.Items.{power_item, devices_item, madt_in, srat_in, slit_in, mcfg_in, hpet_in, others_item};
ghost use Rattle.inventory_items.specs.Found.{IsFound};

use crate::agreement::{
    agree_in_devices, agree_in_hpet, agree_in_madt, agree_in_maker, agree_in_mcfg, agree_in_others,
    agree_in_power, agree_in_slit, agree_in_srat, agree_in_structures, agree_in_top,
};
use std::alloc::Global;
use table_model::Inventory;
use vt_outside::OutOfMemory;

/// Returns the number of the first item, from 1 on, in which `left` and `right` differ, or `None` where they are equal. The items are: the
/// top with the anchor's version; the structures; the RSDP's maker with the XSDT's header; FADT and FACS; DSDT and the id of the generation;
/// MADT; SRAT; SLIT; MCFG; HPET; the other tables. Memory for the rows of two structures or tables at a time is taken from `alloc`. Returns
/// `OutOfMemory` when memory runs out.
pub fn first_difference(
    alloc: Global,
    left: &Inventory,
    right: &Inventory,
) -> Result<Option<u8>, OutOfMemory>
    ensures { IfOk result (λ found. MatchOption found (AgreeInAll items left.now right.now) (IsFirstDifference 1 items left.now right.now)) }
{
    if let Some(item) = first_up_to_maker(alloc, left, right)? {
        return Ok(Some(item));
    }
    if let Some(item) = first_of_power_and_devices(alloc, left, right)? {
        return Ok(Some(item));
    }
    first_from_madt(alloc, left, right)
}

// The first of items 1 to 3.
fn first_up_to_maker(
    alloc: Global,
    left: &Inventory,
    right: &Inventory,
) -> Result<Option<u8>, OutOfMemory>
    ensures { IfOk result (IsFound 1 (AgreeIn top_item ∷ AgreeIn structures_item ∷ AgreeIn maker_item ∷ []) left.now right.now) }
{
    if !agree_in_top(left, right) {
        return Ok(Some(1));
    }
    if !agree_in_structures(alloc, left, right)? {
        return Ok(Some(2));
    }
    if !agree_in_maker(left, right) {
        return Ok(Some(3));
    }
    Ok(None)
}

// The first of items 4 and 5.
fn first_of_power_and_devices(
    alloc: Global,
    left: &Inventory,
    right: &Inventory,
) -> Result<Option<u8>, OutOfMemory>
    ensures { IfOk result (IsFound 4 (AgreeIn power_item ∷ AgreeIn devices_item ∷ []) left.now right.now) }
{
    if !agree_in_power(alloc, left, right)? {
        return Ok(Some(4));
    }
    if !agree_in_devices(left, right) {
        return Ok(Some(5));
    }
    Ok(None)
}

// The first of items 6 to 11.
fn first_from_madt(
    alloc: Global,
    left: &Inventory,
    right: &Inventory,
) -> Result<Option<u8>, OutOfMemory>
    ensures { IfOk result (IsFound 6
        (AgreeIn madt_in ∷ AgreeIn srat_in ∷ AgreeIn slit_in ∷ AgreeIn mcfg_in ∷ AgreeIn hpet_in ∷ AgreeIn others_item ∷ []) left.now right.now) }
{
    if !agree_in_madt(left, right) {
        return Ok(Some(6));
    }
    if !agree_in_srat(left, right) {
        return Ok(Some(7));
    }
    if !agree_in_slit(left, right) {
        return Ok(Some(8));
    }
    if !agree_in_mcfg(left, right) {
        return Ok(Some(9));
    }
    if !agree_in_hpet(alloc, left, right)? {
        return Ok(Some(10));
    }
    if !agree_in_others(left, right) {
        return Ok(Some(11));
    }
    Ok(None)
}
