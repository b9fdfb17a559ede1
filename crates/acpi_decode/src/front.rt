ghost use Rattle.std.specs.Prelude.{◌≡◌, true, IfOk, IfErr};
ghost use Rattle.acpi_decode.specs.Seen.{is_ram, signature_at, total_at};
ghost use Rattle.acpi_decode.specs.Tests.{FirstFails, NoFault, Pass};
ghost use Rattle.acpi_decode.specs.TableTests.{header_tests};

use crate::fault::AcpiFault;
use crate::number::get_u32;
use crate::view::MemView;
use acpi_records::HEADER_SIZE;

/// What a table begins with (ACPI 6.5, 5.2.6).
#[derive(Clone, Copy)]
pub(crate) struct Front {
    /// Its signature.
    pub(crate) signature: [u8; 4],
    /// How many bytes it tells, with its header.
    pub(crate) length: u32,
}

/// Tests that the header of the table at `address` is RAM, else the error is `OutsideRam`, and returns what the table begins with.
pub(crate) fn test_header<V: MemView>(view: &V, address: u64) -> Result<Front, AcpiFault>
    ensures signature { IfOk result (λ front. front.signature ≡ signature_at (V.seen view.now) address) }
    ensures length { IfOk result (λ front. front.length ≡ total_at (V.seen view.now) address) }
    ensures passes { IfOk result (λ front. Pass (header_tests (V.seen view.now) address)) }
    ensures fault { IfErr result (FirstFails (header_tests (V.seen view.now) address) NoFault) }
{
    if !view.is_ram_range(address, HEADER_SIZE) {
        return Err(AcpiFault::OutsideRam(address));
    }
    Ok(read_front(view, address))
}

/// Reads what the table at `address` begins with. Its first 8 bytes must be RAM.
pub(crate) fn read_front<V: MemView>(view: &V, address: u64) -> Front
    requires { is_ram (V.seen view.now) address 8 ≡ true }
    ensures signature { result.signature ≡ signature_at (V.seen view.now) address }
    ensures length { result.length ≡ total_at (V.seen view.now) address }
{
    let mut bytes = [0; 8];
    view.copy_out(address, &mut bytes);
    Front {
        signature: *bytes[..4].as_array().unwrap(),
        length: get_u32(&bytes, 4),
    }
}
