//! Laws over the definitions, each the contract of a function that does nothing.

ghost use Rattle.std.specs.Prelude.{◌≡◌, ℕ, Result};
ghost use Rattle.vt_bytes.specs.View.{View};
ghost use Rattle.table_model.specs.declared.inventory.Inventory.{Inventory};
ghost use Rattle.table_model.specs.declared.search.Search.{Search};
ghost use Rattle.anchor_scan.specs.declared.fault.ScanFault.{ScanFault};
ghost use Rattle.anchor_scan.specs.Scan.{ScannedAs};

/// States that a view of memory below a top is scanned in one way by each search: it shows one inventory, or its tables have one first fault, and
/// never both.
pub fn a_memory_is_scanned_in_one_way()
    ensures { (search : Search) (top : ℕ) (view : View) (a b : Result Inventory ScanFault)
        → ScannedAs search top view a → ScannedAs search top view b → a ≡ b }
{}
