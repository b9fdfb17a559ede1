ghost use Rattle.acpi_model.specs.Rsdp.{HasRsdpBy, IsRsdpBy};

use crate::number::read_address;
use crate::view::MemView;
use acpi_model::Form;

// Where the maker's id stands in the RSDP (ACPI 6.5, 5.2.5.3).
const OEM_ID_PLACE: u64 = 9;

/// What the RSDP tells.
#[derive(Clone, Copy)]
pub(crate) struct Root {
    /// The maker's id.
    pub(crate) oem_id: [u8; 6],
    /// The address of the root.
    pub(crate) root: u64,
}

/// Reads the RSDP at `rsdp`, where a valid one of the form `form` must stand.
pub(crate) fn read_root<V: MemView>(view: &V, form: Form, rsdp: u64) -> Root
    requires { HasRsdpBy form (V.seen view.now) rsdp }
    ensures { IsRsdpBy form (V.seen view.now) rsdp result.oem_id result.root }
{
    let mut oem_id = [0; 6];
    view.copy_out(rsdp + OEM_ID_PLACE, &mut oem_id);
    let root = read_address(view, form, rsdp + form.root_place());
    Root { oem_id, root }
}
