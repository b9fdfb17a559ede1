ghost use Rattle.std.specs.Prelude.{◌≡◌, IfOk, IfErr};
ghost use Rattle.std.specs.Str.{bytes_eq};
ghost use Rattle.acpi_decode.specs.Seen.{total_at};
ghost use Rattle.acpi_decode.specs.Tests.{FirstFails, NoFault, Pass};
ghost use Rattle.acpi_decode.specs.TableTests.{due_tests, is_root_length};
ghost use Rattle.acpi_decode.specs.Due.{due_signature, has_due_length};

use crate::fault::AcpiFault;
use crate::front::test_header;
use crate::view::MemView;
use crate::whole::test_whole;
use acpi_model::{Form, HEADER_SIZE};

// The most entries of a root that are read.
const MOST_ENTRIES: u32 = 256;

/// A table that is due at an address.
#[derive(Clone, Copy)]
pub(crate) enum Due {
    /// The root of a form, to which the RSDP leads.
    Root(Form),
    /// The DSDT, to which an FADT leads.
    Dsdt,
}

impl Due {
    // Whether this is its signature.
    fn is_signed(self, signature: &[u8; 4]) -> bool
        ensures { result ≡ bytes_eq signature.now (due_signature self) }
    {
        match self {
            Due::Root(form) => *signature == form.root_signature(),
            Due::Dsdt => signature == b"DSDT",
        }
    }

    // Whether it may have `length` bytes.
    fn has_length(self, length: u32) -> bool
        ensures { result ≡ has_due_length self length }
    {
        match self {
            Due::Root(form) => is_root_length(form, length),
            Due::Dsdt => length >= HEADER_SIZE,
        }
    }
}

// Whether a root may have `length` bytes: a header, and entries of the size of an address.
fn is_root_length(form: Form, length: u32) -> bool
    ensures { result ≡ is_root_length form length }
{
    let size = form.address_size();
    length >= HEADER_SIZE
        && (length - HEADER_SIZE) % size == 0
        && length <= HEADER_SIZE + size * MOST_ENTRIES
}

/// Tests that the table that is due stands at `address`, and returns how many bytes it has. The errors are, in this order, `OutsideRam`
/// for its header, `WrongSignature`, `BadLength`, and those of [`test_whole`].
pub(crate) fn test_due<V: MemView>(view: &V, due: Due, address: u64) -> Result<u32, AcpiFault>
    ensures length { IfOk result (λ length. length ≡ total_at (V.seen view.now) address) }
    ensures passes { IfOk result (λ length. Pass (due_tests (due_signature due) (has_due_length due) (V.seen view.now) address)) }
    ensures fault { IfErr result (FirstFails (due_tests (due_signature due) (has_due_length due) (V.seen view.now) address) NoFault) }
{
    let front = test_header(view, address)?;
    if !due.is_signed(&front.signature) {
        return Err(AcpiFault::WrongSignature(address));
    }
    if !due.has_length(front.length) {
        return Err(AcpiFault::BadLength(address));
    }
    test_whole(view, address, front.length)?;
    Ok(front.length)
}
