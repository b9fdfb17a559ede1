ghost use Rattle.std.specs.Prelude.{◌≡◌, true, IfOk};
ghost use Rattle.acpi_decode.specs.Seen.{is_ram, bytes_from};
ghost use Rattle.acpi_decode.specs.Read.{head_in};

use crate::view::MemView;
use acpi_model::{HEADER_SIZE, Head};
use std::alloc::Global;
use vt_layout::read_plain;
use vt_outside::OutOfMemory;

/// Reads the header of the table at `address`, whose 36 bytes must be RAM.
pub(crate) fn read_head<V: MemView>(
    alloc: Global,
    view: &V,
    address: u64,
) -> Result<Head, OutOfMemory>
    requires { is_ram (V.seen view.now) address 36 ≡ true }
    ensures { IfOk result (λ head. head ≡ head_in (bytes_from (V.seen view.now) address 36)) }
{
    let mut bytes = [0; HEADER_SIZE as usize];
    view.copy_out(address, &mut bytes);
    read_plain(alloc, &bytes)
}
