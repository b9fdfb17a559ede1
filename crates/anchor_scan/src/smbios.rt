ghost use Rattle.std.specs.Prelude.{◌≡◌, ◌⊎◌, ◌↔◌, None, Some, Ok, Err, IfOk, IfErr, IfSome};
ghost use Rattle.vt_bytes.specs.Memory.{seen};
ghost use Rattle.smbios_model.specs.declared.smbios.SmbiosTable.{SmbiosTable};
ghost use Rattle.smbios_model.specs.Smbios.{ShowsSmbios, ShowsSmbiosBy};
ghost use Rattle.smbios_decode.specs.declared.fault.SmbiosFault.{SmbiosFault};
ghost use Rattle.smbios_decode.specs.declared.fault.SmbiosFault.TheVariants.{OutOfMemory as NoMemory};
ghost use Rattle.table_model.specs.Search.{HasNoAnchorOf};
ghost use Rattle.table_model.specs.Inventory.{ShowsStructuresOf};
ghost use Rattle.anchor_scan.specs.Scan.{RefusesSmbiosOf};
ghost use Rattle.anchor_scan.specs.Shown.{HasNoAnchor, HasNoAnchorBy, RefusesSmbios, RefusesSmbiosBy, OrNoMemory};

use crate::anchor::read_anchor;
use crate::range::range_from;
use crate::sought_anchor::first_anchor;
use guest_memory::GuestMemory;
use smbios_decode::{SmbiosFault, decode_table};
use smbios_model::{AnchorForm, SmbiosTable};
use std::alloc::Global;
use table_model::AnchorSearch;

/// Reads the SMBIOS table of `memory` from its anchor (DSP0134 5.2.2): the structures in the bytes from the address on that the
/// anchor tells, as many as its maximum size says and as are RAM without a gap. What is read takes its memory from `alloc`, and so
/// does a copy of those bytes meanwhile.
///
/// Returns `Ok(None)` when no valid anchor stands in `memory`, and then takes no memory. The errors are those of
/// [`decode_table`]; a place counts from the first of the bytes.
pub fn scan_smbios(alloc: Global, memory: &GuestMemory) -> Result<Option<SmbiosTable>, SmbiosFault>
    ensures none { result ≡ Ok None ↔ HasNoAnchor (seen memory.now.memory) }
    // What is read is shown, and what is shown is read.
    ensures shown { IfOk result (λ found. IfSome found (λ table. ShowsSmbios (seen memory.now.memory) table)) }
    ensures shows { (table : SmbiosTable) → ShowsSmbios (seen memory.now.memory) table → OrNoMemory result (Ok (Some table)) }
    // A fault is the first, and where there is one it is told.
    ensures refused { IfErr result (λ fault. (fault ≡ NoMemory) ⊎ RefusesSmbios (seen memory.now.memory) fault) }
    ensures refuses { (fault : SmbiosFault) → RefusesSmbios (seen memory.now.memory) fault → OrNoMemory result (Err fault) }
{
    scan_smbios_by(alloc, memory, AnchorForm::Smbios3)
}

/// Does the same by the form `form`: the anchor is one of that form, as [`find_smbios_by`](crate::find_smbios_by) finds it.
pub fn scan_smbios_by(
    alloc: Global,
    memory: &GuestMemory,
    form: AnchorForm,
) -> Result<Option<SmbiosTable>, SmbiosFault>
    ensures none { result ≡ Ok None ↔ HasNoAnchorBy form (seen memory.now.memory) }
    ensures shown { IfOk result (λ found. IfSome found (λ table. ShowsSmbiosBy form (seen memory.now.memory) table)) }
    ensures shows { (table : SmbiosTable) → ShowsSmbiosBy form (seen memory.now.memory) table → OrNoMemory result (Ok (Some table)) }
    ensures refused { IfErr result (λ fault. (fault ≡ NoMemory) ⊎ RefusesSmbiosBy form (seen memory.now.memory) fault) }
    ensures refuses { (fault : SmbiosFault) → RefusesSmbiosBy form (seen memory.now.memory) fault → OrNoMemory result (Err fault) }
{
    scan_structures(alloc, memory, AnchorSearch::One(form))
}

/// Does the same by the search `search`: the anchor is the first that it looks for.
pub(crate) fn scan_structures(
    alloc: Global,
    memory: &GuestMemory,
    search: AnchorSearch,
) -> Result<Option<SmbiosTable>, SmbiosFault>
    ensures none { result ≡ Ok None ↔ HasNoAnchorOf search (seen memory.now.memory) }
    ensures shown { IfOk result (λ found. IfSome found (ShowsStructuresOf search (seen memory.now.memory))) }
    ensures refused { IfErr result (λ fault. (fault ≡ NoMemory) ⊎ RefusesSmbiosOf search (seen memory.now.memory) fault) }
{
    let Some(first) = first_anchor(memory, search) else {
        return Ok(None);
    };
    let found = read_anchor(memory, first.form, first.address);
    let bytes = range_from(alloc, memory, found.structures, found.anchor.maximum_size)?;
    let structures = decode_table(alloc, &bytes)?;
    Ok(Some(SmbiosTable {
        major: found.anchor.major,
        minor: found.anchor.minor,
        docrev: found.anchor.docrev,
        structures,
    }))
}
