ghost use Rattle.vt_bytes.specs.Memory.{seen};
ghost use Rattle.table_model.specs.declared.search.RootSearch.TheVariants.{One, Any};
ghost use Rattle.anchor_scan.specs.First.{IsFoundRoot};

use crate::rsdp::find_rsdp_by;
use acpi_model::{Form, LEGACY_FORM};
use guest_memory::GuestMemory;
use table_model::RootSearch;

// The form of the tables of ACPI 2.0 and later: an extended RSDP, an XSDT, and an FADT of 116 bytes or more.
const EXTENDED_FORM: Form = Form {
    extended: true,
    least_fadt: 116,
};

/// An RSDP that was found.
#[derive(Clone, Copy)]
pub(crate) struct FoundRoot {
    /// Its form.
    pub(crate) form: Form,
    /// Where it stands.
    pub(crate) address: u64,
}

/// Finds the first RSDP of `memory` that `search` looks for, the one at the least address. Returns `None` when no valid one stands there. It
/// takes no memory.
pub(crate) fn first_root(memory: &GuestMemory, search: RootSearch) -> Option<FoundRoot>
    ensures { IsFoundRoot search (seen memory.now.memory) result }
{
    match search {
        RootSearch::One(form) => root_of(memory, form),
        RootSearch::Any => root_of_any(memory),
    }
}

// The first RSDP of one form.
fn root_of(memory: &GuestMemory, form: Form) -> Option<FoundRoot>
    ensures { IsFoundRoot (One form) (seen memory.now.memory) result }
{
    match find_rsdp_by(memory, form) {
        Some(address) => Some(FoundRoot { form, address }),
        None => None,
    }
}

// The first RSDP of any revision.
fn root_of_any(memory: &GuestMemory) -> Option<FoundRoot>
    ensures { IsFoundRoot Any (seen memory.now.memory) result }
{
    let legacy = root_of(memory, LEGACY_FORM);
    let extended = root_of(memory, EXTENDED_FORM);
    match (legacy, extended) {
        (None, only) => only,
        (Some(one), None) => Some(one),
        (Some(one), Some(other)) if one.address < other.address => Some(one),
        (Some(_), Some(other)) => Some(other),
    }
}
