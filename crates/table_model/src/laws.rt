//! Laws over the definitions, each the contract of a function that does nothing.

ghost use Rattle.std.specs.Prelude.{◌≡◌, ℕ};
ghost use Rattle.vt_bytes.specs.View.{View};
ghost use Rattle.table_model.specs.declared.inventory.Inventory.{Inventory};
ghost use Rattle.table_model.specs.declared.search.Search.{Search};
ghost use Rattle.table_model.specs.Inventory.{ShowsBy};

/// States that at most one inventory is shown by a view of memory below a top, by each search.
pub fn one_inventory_is_shown()
    ensures { (search : Search) (top : ℕ) (view : View) (a b : Inventory)
        → ShowsBy search top view a → ShowsBy search top view b → a ≡ b }
{}
