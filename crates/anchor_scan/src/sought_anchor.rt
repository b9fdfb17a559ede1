ghost use Rattle.vt_bytes.specs.Memory.{seen};
ghost use Rattle.table_model.specs.declared.search.AnchorSearch.TheVariants.{One, Any};
ghost use Rattle.anchor_scan.specs.First.{IsFoundAnchor};

use crate::anchor::find_smbios_by;
use guest_memory::GuestMemory;
use smbios_model::AnchorForm;
use table_model::AnchorSearch;

/// An anchor of SMBIOS structures that was found.
#[derive(Clone, Copy)]
pub(crate) struct FoundAnchor {
    /// Its form.
    pub(crate) form: AnchorForm,
    /// Where it stands.
    pub(crate) address: u64,
}

/// Finds the first anchor of `memory` that `search` looks for, the one at the least address. Returns `None` when no valid one stands there.
/// It takes no memory.
pub(crate) fn first_anchor(memory: &GuestMemory, search: AnchorSearch) -> Option<FoundAnchor>
    ensures { IsFoundAnchor search (seen memory.now.memory) result }
{
    match search {
        AnchorSearch::One(form) => anchor_of_form(memory, form),
        AnchorSearch::Any => anchor_of_any(memory),
    }
}

// The first anchor of one form.
fn anchor_of_form(memory: &GuestMemory, form: AnchorForm) -> Option<FoundAnchor>
    ensures { IsFoundAnchor (One form) (seen memory.now.memory) result }
{
    match find_smbios_by(memory, form) {
        Some(address) => Some(FoundAnchor { form, address }),
        None => None,
    }
}

// The first anchor of either form.
fn anchor_of_any(memory: &GuestMemory) -> Option<FoundAnchor>
    ensures { IsFoundAnchor Any (seen memory.now.memory) result }
{
    let old = anchor_of_form(memory, AnchorForm::Smbios2);
    let new = anchor_of_form(memory, AnchorForm::Smbios3);
    match (old, new) {
        (None, only) => only,
        (Some(one), None) => Some(one),
        (Some(one), Some(other)) if one.address < other.address => Some(one),
        (Some(_), Some(other)) => Some(other),
    }
}
