ghost use Rattle.std.specs.Prelude.{◌≡◌, ◌<◌, ◌^◌, ◌⊎◌, List, length, IfOk, IfErr, Ok, Err};
ghost use Rattle.smbios_model.specs.declared.smbios.Structure.{Structure};
ghost use Rattle.smbios_decode.specs.declared.fault.SmbiosFault.{SmbiosFault};
ghost use Rattle.smbios_decode.specs.declared.fault.SmbiosFault.TheVariants.{OutOfMemory as NoMemory};
ghost use Rattle.smbios_decode.specs.Faults.{IsRead, IsRefused, OrNoMemory, BeginsWhole};

use crate::fault::SmbiosFault;
use crate::structure::read_structure;
use smbios_model::Structure;
use std::alloc::Global;
use vt_outside::List;

/// Reads the structures that `bytes`, fewer than 2^32, begin with, up to and with the first of type 127 (DSP0134 6.1). What
/// follows it isn't looked at. The list takes its memory from `alloc`.
///
/// A structure of a known type and of the length that its record has is read as the record, and the strings that it doesn't name
/// are dropped. Any other is read as a raw structure. The first structure at fault is told, and of its faults the first of these:
/// `Truncated` when fewer than 4 bytes are left, `ShortStructure` when its length is below 4, `Truncated` when its area or its
/// strings run past the end, `NoSuchString` when a record names a string that isn't there. `NoEnd` means that the bytes end where
/// a structure would begin. `OutOfMemory` means that memory ran out.
pub fn decode_table(alloc: Global, bytes: &[u8]) -> Result<List<Structure>, SmbiosFault>
    requires { length bytes.now < 2 ^ 32 }
    // What is read stands at the front of the bytes, and what stands there is read.
    ensures read { IfOk result (λ structures. IsRead bytes.now structures) }
    ensures reads { (structures : List Structure) → IsRead bytes.now structures → OrNoMemory result (Ok structures) }
    // A fault is the first, and where there is one it is told.
    ensures refused { IfErr result (λ fault. (fault ≡ NoMemory) ⊎ IsRefused bytes.now fault) }
    ensures refuses { (fault : SmbiosFault) → IsRefused bytes.now fault → OrNoMemory result (Err fault) }
    // Memory is needed only once a whole structure is there. Before that the fault is told, whatever memory there is.
    ensures no_memory { result ≡ Err NoMemory → BeginsWhole bytes.now }
    ensures at_once { (fault : SmbiosFault) → IsRefused bytes.now fault → ¬ BeginsWhole bytes.now → result ≡ Err fault }
{
    decode(alloc, bytes)
}

// Reads structures up to the end of the table.
fn decode(alloc: Global, bytes: &[u8]) -> Result<List<Structure>, SmbiosFault>
    requires { length bytes.now < 2 ^ 32 }
    ensures read { IfOk result (λ structures. IsRead bytes.now structures) }
    ensures refused { IfErr result (λ fault. (fault ≡ NoMemory) ⊎ IsRefused bytes.now fault) }
    ensures no_memory { result ≡ Err NoMemory → BeginsWhole bytes.now }
{
    let mut structures = List::new(alloc);
    let mut place = 0;
    while place < bytes.len() {
        let found = read_structure(alloc, &bytes[place..], place as u32)?;
        structures.push(found.structure)?;
        if found.is_last {
            return Ok(structures);
        }
        place += found.size;
    }
    Err(SmbiosFault::NoEnd)
}
