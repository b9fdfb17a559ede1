ghost use Rattle.std.specs.Prelude.{◌≡◌, ◌⊎◌, IfOk, IfErr, OnOk};
ghost use Rattle.acpi_records.specs.Facs.{IsFacs};
ghost use Rattle.acpi_model.specs.Links.{IsFound};
ghost use Rattle.acpi_decode.specs.declared.fault.AcpiFault.TheVariants.{OutOfMemory as NoMemory};
ghost use Rattle.acpi_decode.specs.Tests.{FirstFails, NoFault, Pass};
ghost use Rattle.acpi_decode.specs.TableTests.{facs_tests};
ghost use Rattle.acpi_decode.specs.KindTests.{tests_at};

use crate::fault::AcpiFault;
use crate::front::read_front;
use crate::view::MemView;
use acpi_model::{FACS_SIZE, Facs};
use std::alloc::Global;
use vt_layout::read_plain;

/// Reads the FACS at `address`, to which an FADT leads (ACPI 6.5, 5.2.10). Returns `None` where `address` is 0, which leads nowhere. The
/// errors are, in this order, `OutsideRam`, `WrongSignature` and `BadLength`: a FACS has no sum.
pub(crate) fn read_facs<V: MemView>(
    alloc: Global,
    view: &V,
    address: u64,
) -> Result<Option<Facs>, AcpiFault>
    ensures read { IfOk result (IsFound (IsFacs (V.seen view.now)) address) }
    ensures passes { IfOk result (λ facs. Pass (tests_at (facs_tests (V.seen view.now)) address)) }
    ensures fault { IfErr result (λ fault. (fault ≡ NoMemory) ⊎ FirstFails (tests_at (facs_tests (V.seen view.now)) address) NoFault fault) }
{
    if address == 0 {
        return Ok(None);
    }
    test_facs(view, address)?;
    let mut bytes = [0; FACS_SIZE as usize];
    view.copy_out(address, &mut bytes);
    Ok(Some(read_plain(alloc, &bytes)?))
}

// Tests that a FACS stands at `address`.
fn test_facs<V: MemView>(view: &V, address: u64) -> Result<(), AcpiFault>
    ensures passes { OnOk result (Pass (facs_tests (V.seen view.now) address)) }
    ensures fault { IfErr result (FirstFails (facs_tests (V.seen view.now) address) NoFault) }
{
    if !view.is_ram_range(address, FACS_SIZE) {
        return Err(AcpiFault::OutsideRam(address));
    }
    let front = read_front(view, address);
    if front.signature != *b"FACS" {
        return Err(AcpiFault::WrongSignature(address));
    }
    if front.length != FACS_SIZE {
        return Err(AcpiFault::BadLength(address));
    }
    Ok(())
}
