ghost use Rattle.std.specs.Prelude.{OnOk, OnErr};
ghost use Rattle.vt_outside.specs.Stream.{Took, TookFront};
ghost use Rattle.scan_text.specs.List.{list_of};

use crate::structures::write_smbios;
use crate::tables::write_acpi;
use table_model::Inventory;
use vt_outside::{Failed, Sink};

/// Writes the list of `inventory` to `out`, line by line: the version of the SMBIOS table and its structures, and then the maker of the
/// ACPI tables and each table. Each line is offered whole in one `write`, and then what is left of it. It takes no memory, and doesn't
/// flush `out`. Returns `Failed` when a write fails; `out` then took a part of the list from its front.
pub fn list_to<K: Sink>(inventory: &Inventory, out: &mut K) -> Result<(), Failed>
    ensures ok { OnOk result (Took (list_of inventory.now) (K.seen out.old) (K.seen out.new)) }
    ensures front { OnErr result (TookFront (list_of inventory.now) (K.seen out.old) (K.seen out.new)) }
{
    write_smbios(&inventory.smbios, out)?;
    write_acpi(&inventory.acpi, out)
}
