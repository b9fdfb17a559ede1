ghost use Rattle.std.specs.Prelude.{◌≡◌, ◌⊎◌, ◌<◌, true, IfSome, IfNone, OnOk, IfErr};
ghost use Rattle.acpi_model.specs.Form.{address_size};
ghost use Rattle.acpi_decode.specs.declared.fault.AcpiFault.TheVariants.{OutOfMemory as NoMemory};
ghost use Rattle.acpi_decode.specs.Seen.{is_ram, number_at, total_at};
ghost use Rattle.acpi_decode.specs.Tests.{Pass};
ghost use Rattle.acpi_decode.specs.TableTests.{root_tests};
ghost use Rattle.acpi_decode.specs.Taken.{AreTaken, AreRefused};

use crate::fault::AcpiFault;
use crate::number::read_address;
use crate::take::take_at;
use crate::view::MemView;
use crate::walked::Walked;
use acpi_model::{Form, HEADER_SIZE};
use std::alloc::Global;

/// Reads the tables that the entries of the root at `root` name, in their order, and adds them to `found`, which holds none yet. The root
/// is one of the form `form`, has `length` bytes, and has passed its tests. The errors are those of [`walk`](crate::walk).
pub(crate) fn take_tables<V: MemView>(
    alloc: Global,
    view: &V,
    form: Form,
    root: u64,
    length: u32,
    found: &mut Walked,
) -> Result<(), AcpiFault>
    requires passes { Pass (root_tests form (V.seen view.now) root) }
    requires told { length ≡ total_at (V.seen view.now) root }
    ensures taken { OnOk result (AreTaken form (V.seen view.now) root found.old found.new) }
    ensures fault { IfErr result (λ fault. (fault ≡ NoMemory) ⊎ AreRefused form (V.seen view.now) root found.old fault) }
{
    let size = form.address_size();
    for index in 0..(length - HEADER_SIZE) / size {
        let entry = root + u64::from(HEADER_SIZE + size * index);
        if let Some(address) = read_entry(view, form, entry) {
            take_at(alloc, view, form, address, found)?;
        }
    }
    Ok(())
}

// Returns the address of the table that the entry at `entry` of a root of the form `form` names. A zero entry names none.
fn read_entry<V: MemView>(view: &V, form: Form, entry: u64) -> Option<u64>
    requires { is_ram (V.seen view.now) entry (address_size form) ≡ true }
    ensures named { IfSome result (λ address. address ≡ number_at (V.seen view.now) entry (address_size form)) }
    ensures nonzero { IfSome result (λ address. 0 < address) }
    ensures zero { IfNone result (number_at (V.seen view.now) entry (address_size form) ≡ 0) }
{
    let address = read_address(view, form, entry);
    if address == 0 { None } else { Some(address) }
}
