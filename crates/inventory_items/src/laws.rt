//! Laws over the definitions, each the contract of a function that does nothing.

ghost use Rattle.std.specs.Prelude.{◌≡◌};
ghost use Rattle.table_model.specs.declared.inventory.Inventory.{Inventory};
ghost use Rattle.inventory_items.specs.Items.{items, AgreeInAll};

/// States that two inventories that agree in all items are one.
pub fn inventories_that_agree_are_one()
    ensures { (a b : Inventory) → AgreeInAll items a b → a ≡ b }
{}
