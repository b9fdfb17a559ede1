ghost use Rattle.std.specs.Prelude.{◌≡◌, ◌⊎◌, ◌↔◌, None, Ok, Err, IfOk, IfErr, IfSome};
ghost use Rattle.vt_bytes.specs.Memory.{seen};
ghost use Rattle.table_model.specs.declared.inventory.Inventory.{Inventory};
ghost use Rattle.anchor_scan.specs.declared.fault.ScanFault.{ScanFault};
ghost use Rattle.anchor_scan.specs.declared.fault.ScanFault.TheVariants.{OutOfMemory as NoMemory};
ghost use Rattle.anchor_scan.specs.Scan.{OrOutOfMemory};
ghost use Rattle.anchor_scan.specs.Shown.{IsLeast};
ghost use Rattle.acpi_legacy.specs.Legacy.{HasLegacyRsdp, HasNoLegacyRsdp, ShowsLegacy, RefusesLegacy};

use acpi_model::LEGACY_FORM;
use anchor_scan::{ScanFault, find_rsdp_by, scan_by};
use guest_memory::GuestMemory;
use std::alloc::Global;
use table_model::{Inventory, Search};

/// Finds the legacy RSDP of `memory` (ACPI 6.5, 5.2.5.1 and 5.2.5.3): the least multiple of 16 from 0xE0000 on where a valid one stands. It
/// begins with `RSD PTR `, its 20 bytes end at or below 0x100000 and sum to zero, and its revision is below 2. What stands behind them isn't
/// looked at. Returns `None` when there is none. It takes no memory.
pub fn find_legacy(memory: &GuestMemory) -> Option<u64>
    ensures some { IfSome result (IsLeast (HasLegacyRsdp (seen memory.now.memory))) }
    ensures none { result ≡ None ↔ HasNoLegacyRsdp (seen memory.now.memory) }
{
    find_rsdp_by(memory, LEGACY_FORM)
}

/// Reads what `memory` shows from its two anchors, as [`scan`](anchor_scan::scan) does: the ACPI tables from its legacy RSDP on, and then the
/// SMBIOS structures. What is read takes its memory from `alloc`. The errors are those of [`scan`](anchor_scan::scan), the RSDT in the
/// place of the XSDT.
pub fn scan_legacy(alloc: Global, memory: &GuestMemory) -> Result<Inventory, ScanFault>
    // What is read is shown, and what is shown is read.
    ensures shown { IfOk result (ShowsLegacy memory.now.memory.top (seen memory.now.memory)) }
    ensures shows { (inventory : Inventory) → ShowsLegacy memory.now.memory.top (seen memory.now.memory) inventory
        → OrOutOfMemory result (Ok inventory) }
    // A fault is the first, and where there is one it is told.
    ensures refused { IfErr result (λ fault. (fault ≡ NoMemory) ⊎ RefusesLegacy (seen memory.now.memory) fault) }
    ensures refuses { (fault : ScanFault) → RefusesLegacy (seen memory.now.memory) fault → OrOutOfMemory result (Err fault) }
{
    scan_by(alloc, memory, Search::of(true, false))
}
