ghost use Rattle.std.specs.Prelude.{◌≡◌, ◌<◌, ◌↔◌, length, Err, IfOk};
ghost use Rattle.smbios_model.specs.Smbios.{AreStructures};
ghost use Rattle.smbios_build.specs.declared.building.SmbiosBuildFault.TheVariants.{OutOfMemory as NoMemory};
ghost use Rattle.smbios_build.specs.Spelling.{structures_bytes};
ghost use Rattle.smbios_build.specs.Buildable.{AreBuildable};

use crate::sizes::structures_size;
use crate::structure::put_structure;
use smbios_model::Structure;
use std::alloc::Global;
use vt_outside::{Bytes, OutOfMemory};

// The most bytes of a table.
const LARGEST: usize = 4_194_304;

/// Why structures aren't built.
#[derive(Clone, Copy, Debug, PartialEq, Eq)]
pub enum SmbiosBuildFault {
    /// They have more than 4,194,304 bytes.
    TableTooLarge,
    /// Memory ran out.
    OutOfMemory,
}

impl From<OutOfMemory> for SmbiosBuildFault {
    ghost from_gives = { λ _ fault. fault ≡ NoMemory };

    fn from(_fault: OutOfMemory) -> SmbiosBuildFault {
        SmbiosBuildFault::OutOfMemory
    }
}

/// Builds the bytes of `structures`, one after the other. The last structure is the end, and no other is. No text of a structure
/// of a known kind holds a NUL, and of the texts of OEM Strings, at most 255, none is empty. A raw structure isn't of type 127, its
/// area has at most 251 bytes, and not as many as a record of its type has, and of its strings, at most 255, none is empty or holds
/// a NUL.
///
/// Returns `TableTooLarge` when there are more than 4,194,304 bytes. They are counted before memory is taken, so this doesn't
/// depend on the memory there is. Returns `OutOfMemory` when `alloc` has too little memory.
pub fn build_smbios(alloc: Global, structures: &[Structure]) -> Result<Bytes, SmbiosBuildFault>
    requires { AreBuildable structures.now }
    // The bytes are those of the structures, and a reader finds these.
    ensures bytes { IfOk result (λ bytes. bytes ≡ structures_bytes structures.now) }
    ensures spelled { IfOk result (λ bytes. AreStructures bytes structures.now) }
    // What is too large is refused, and nothing else.
    ensures too_large { (result ≡ Err SmbiosBuildFault.TableTooLarge) ↔ (4194304 < length (structures_bytes structures.now)) }
{
    if structures_size(alloc, structures) > LARGEST {
        return Err(SmbiosBuildFault::TableTooLarge);
    }
    Ok(spell(alloc, structures)?)
}

// Spells structures, one after the other.
fn spell(alloc: Global, structures: &[Structure]) -> Result<Bytes, OutOfMemory>
    requires { AreBuildable structures.now }
    ensures bytes { IfOk result (λ bytes. bytes ≡ structures_bytes structures.now) }
    ensures spelled { IfOk result (λ bytes. AreStructures bytes structures.now) }
{
    let mut bytes = Bytes::new(alloc);
    for structure in structures {
        put_structure(alloc, &mut bytes, structure)?;
    }
    Ok(bytes)
}
