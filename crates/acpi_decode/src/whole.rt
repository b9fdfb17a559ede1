ghost use Rattle.std.specs.Prelude.{◌≡◌, OnOk, IfErr};
ghost use Rattle.acpi_decode.specs.Seen.{total_at};
ghost use Rattle.acpi_decode.specs.Tests.{FirstFails, NoFault, Pass};
ghost use Rattle.acpi_decode.specs.TableTests.{whole_tests};

use crate::fault::AcpiFault;
use crate::view::MemView;

/// Tests that the table at `address`, which tells `length` bytes, is RAM as a whole, else the error is `OutsideRam`, and that its bytes
/// sum to zero, else it is `BadSum`.
pub(crate) fn test_whole<V: MemView>(view: &V, address: u64, length: u32) -> Result<(), AcpiFault>
    requires { length ≡ total_at (V.seen view.now) address }
    ensures passes { OnOk result (Pass (whole_tests (V.seen view.now) address)) }
    ensures fault { IfErr result (FirstFails (whole_tests (V.seen view.now) address) NoFault) }
{
    if !view.is_ram_range(address, length) {
        return Err(AcpiFault::OutsideRam(address));
    }
    if view.sum_range(address, length) != 0 {
        return Err(AcpiFault::BadSum(address));
    }
    Ok(())
}
