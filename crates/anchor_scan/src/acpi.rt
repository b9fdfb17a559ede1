ghost use Rattle.std.specs.Prelude.{◌≡◌, ◌⊎◌, IfOk, IfErr};
ghost use Rattle.vt_bytes.specs.Memory.{seen};
ghost use Rattle.acpi_decode.specs.declared.fault.AcpiFault.TheVariants.{OutOfMemory as NoMemory};
ghost use Rattle.anchor_scan.specs.Gathered.{IsShown};
ghost use Rattle.anchor_scan.specs.Scan.{RefusesAcpiOf};

use crate::sought_root::first_root;
use crate::view::Seen;
use acpi_decode::{AcpiFault, Walked, walk_from};
use guest_memory::GuestMemory;
use std::alloc::Global;
use table_model::RootSearch;

/// Reads the ACPI tables of `memory` from the first RSDP that `search` looks for, by the form of that RSDP. Returns `Ok(None)` when no valid
/// one stands there. The errors are those of [`walk_from`].
pub(crate) fn scan_acpi(
    alloc: Global,
    memory: &GuestMemory,
    search: RootSearch,
) -> Result<Option<Walked>, AcpiFault>
    ensures shown { IfOk result (IsShown search (seen memory.now.memory)) }
    ensures refused { IfErr result (λ fault. (fault ≡ NoMemory) ⊎ RefusesAcpiOf search (seen memory.now.memory) fault) }
{
    let Some(root) = first_root(memory, search) else {
        return Ok(None);
    };
    // That a memory is lawful is said by its top's call.
    let _top = memory.top();
    Ok(Some(walk_from(alloc, &Seen(memory), root.form, root.address)?))
}
