//! Laws over the definitions, each the contract of a function that does nothing.

ghost use Rattle.std.specs.Prelude.{◌≡◌, ℕ};
ghost use Rattle.machine_desc.specs.declared.machine.Machine.{Machine};
ghost use Rattle.machine_desc.specs.Rules.{IsAccepted};
ghost use Rattle.machine_desc.specs.Fields.{HasFittingFields};
ghost use Rattle.table_model.specs.declared.inventory.Inventory.{Inventory};
ghost use Rattle.table_model.specs.Inventory.{inventory_of};
ghost use Rattle.table_describe.specs.Candidate.{candidate};
ghost use Rattle.table_describe.specs.Failing.{IsFirstFailing};

/// States that the candidate of an accepted machine's inventory is that machine, where its numbers fit their types.
pub fn a_machine_is_its_inventorys_candidate()
    ensures { (m : Machine) → IsAccepted m → HasFittingFields m → candidate (inventory_of m) ≡ m }
{}

/// States that two accepted machines with the same inventory are the same machine.
pub fn no_two_machines_are_alike()
    ensures { (a b : Machine) → IsAccepted a → IsAccepted b → HasFittingFields a → HasFittingFields b → inventory_of a ≡ inventory_of b → a ≡ b }
{}

/// States that at most one item of an inventory is the first that fails, and that none of an accepted machine's inventory does.
pub fn one_item_fails_first()
    ensures one { (i : Inventory) (item other : ℕ) → IsFirstFailing i item → IsFirstFailing i other → item ≡ other }
    ensures none { (m : Machine) (item : ℕ) → IsAccepted m → HasFittingFields m → IsFirstFailing (inventory_of m) item → ⊥ }
{}
