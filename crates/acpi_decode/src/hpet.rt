ghost use Rattle.std.specs.Prelude.{◌≡◌, [], true, IfOk};
ghost use Rattle.acpi_model.specs.HpetKind.{hpet_kind};
ghost use Rattle.acpi_model.specs.declared.acpi.Table.TheVariants.{Hpet};
ghost use Rattle.acpi_decode.specs.Seen.{is_ram};
ghost use Rattle.acpi_decode.specs.Read.{table_at};

use crate::view::MemView;
use acpi_model::HpetTable;
use std::alloc::Global;
use vt_layout::read_plain;
use vt_outside::OutOfMemory;

/// How many bytes the HPET table has at least (IA-PC HPET 1.0a, 3.2.4).
pub(crate) const HPET_SIZE: u32 = 56;

/// Reads the HPET table at `address`, of which 56 bytes must be RAM.
pub(crate) fn read_hpet<V: MemView>(
    alloc: Global,
    view: &V,
    address: u64,
) -> Result<HpetTable, OutOfMemory>
    requires { is_ram (V.seen view.now) address 56 ≡ true }
    ensures { IfOk result (λ t. Hpet t ≡ table_at hpet_kind (V.seen view.now) address []) }
{
    let mut bytes = [0; HPET_SIZE as usize];
    view.copy_out(address, &mut bytes);
    read_plain(alloc, &bytes)
}
