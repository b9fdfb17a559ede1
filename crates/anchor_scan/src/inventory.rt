ghost use Rattle.std.specs.Prelude.{◌≡◌, ◌⊎◌, Ok, Err, IfOk, IfErr};
ghost use Rattle.vt_bytes.specs.Memory.{seen};
ghost use Rattle.table_model.specs.declared.inventory.Inventory.{Inventory};
ghost use Rattle.table_model.specs.Inventory.{Shows, ShowsBy};
ghost use Rattle.anchor_scan.specs.declared.fault.ScanFault.{ScanFault};
ghost use Rattle.anchor_scan.specs.declared.fault.ScanFault.TheVariants.{OutOfMemory as NoMemory};
ghost use Rattle.anchor_scan.specs.Gathered.{inventory_of};
ghost use Rattle.anchor_scan.specs.Scan.{Refuses, RefusesBy, OrOutOfMemory};

use crate::acpi::scan_acpi;
use crate::fault::ScanFault;
use crate::smbios::scan_structures;
use acpi_decode::Walked;
use guest_memory::GuestMemory;
use smbios_model::SmbiosTable;
use std::alloc::Global;
use table_model::{Inventory, Search};

/// Reads what `memory` shows from its two anchors: the ACPI tables from its RSDP on (ACPI 6.5, 5.2), and then the SMBIOS structures
/// (DSP0134 5.2.2). An anchor that isn't there is no fault: that part is `None`. What is read takes its memory from `alloc`.
///
/// The errors are `Acpi` with the first fault of the ACPI tables, `Smbios` with that of the SMBIOS structures, and `OutOfMemory` when
/// memory runs out.
pub fn scan(alloc: Global, memory: &GuestMemory) -> Result<Inventory, ScanFault>
    // What is read is shown, and what is shown is read.
    ensures shown { IfOk result (Shows memory.now.memory.top (seen memory.now.memory)) }
    ensures shows { (inventory : Inventory) → Shows memory.now.memory.top (seen memory.now.memory) inventory → OrOutOfMemory result (Ok inventory) }
    // A fault is the first, and where there is one it is told.
    ensures refused { IfErr result (λ fault. (fault ≡ NoMemory) ⊎ Refuses (seen memory.now.memory) fault) }
    ensures refuses { (fault : ScanFault) → Refuses (seen memory.now.memory) fault → OrOutOfMemory result (Err fault) }
{
    scan_by(alloc, memory, Search::of(false, false))
}

/// Does the same by the search `search`: the ACPI tables are those of the first RSDP that it looks for, by the form of that RSDP, and the SMBIOS
/// structures those of the first anchor that it looks for.
pub fn scan_by(alloc: Global, memory: &GuestMemory, search: Search) -> Result<Inventory, ScanFault>
    ensures shown { IfOk result (ShowsBy search memory.now.memory.top (seen memory.now.memory)) }
    ensures shows { (inventory : Inventory) → ShowsBy search memory.now.memory.top (seen memory.now.memory) inventory
        → OrOutOfMemory result (Ok inventory) }
    ensures refused { IfErr result (λ fault. (fault ≡ NoMemory) ⊎ RefusesBy search (seen memory.now.memory) fault) }
    ensures refuses { (fault : ScanFault) → RefusesBy search (seen memory.now.memory) fault → OrOutOfMemory result (Err fault) }
{
    scan_both(alloc, memory, search)
}

// The same, without that there is one reading.
fn scan_both(alloc: Global, memory: &GuestMemory, search: Search) -> Result<Inventory, ScanFault>
    ensures shown { IfOk result (ShowsBy search memory.now.memory.top (seen memory.now.memory)) }
    ensures refused { IfErr result (λ fault. (fault ≡ NoMemory) ⊎ RefusesBy search (seen memory.now.memory) fault) }
{
    let acpi = scan_acpi(alloc, memory, search.root)?;
    let smbios = scan_structures(alloc, memory, search.anchor)?;
    Ok(inventory_of(memory.top(), acpi, smbios))
}

// The inventory of what was read from both anchors.
fn inventory_of(top: u32, acpi: Option<Walked>, smbios: Option<SmbiosTable>) -> Inventory
    ensures { result ≡ inventory_of top acpi smbios }
{
    match acpi {
        Some(walked) => Inventory {
            top,
            smbios,
            acpi: Some(walked.tables),
            generation: walked.generation,
        },
        None => Inventory {
            top,
            smbios,
            acpi: None,
            generation: None,
        },
    }
}
