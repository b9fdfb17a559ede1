ghost use Rattle.std.specs.Prelude.{◌≡◌, ◌%◌, ◌<◌, ◌≤◌, ◌+◌, ◌↔◌, None, refl, IsTrue, IfSome};
ghost use Rattle.vt_bytes.specs.Memory.{seen};
ghost use Rattle.acpi_model.specs.Form.{rsdp_size};
ghost use Rattle.acpi_model.specs.Rsdp.{HasRsdp, HasRsdpBy};
ghost use Rattle.anchor_scan.specs.Shown.{IsLeast, HasNoRsdp, HasNoRsdpBy};
ghost use Rattle.anchor_scan.specs.Found.{HasRsdpSignature, HasRevisionAndSums, rsdp_place};

use crate::least::{AnchorKind, least_anchor};
use acpi_model::{Form, XSDT_FORM};
use guest_memory::GuestMemory;
use vt_bytes::{BIOS_END, BIOS_START};

// The signature of an RSDP, with which it begins.
const SIGNATURE: &[u8] = b"RSD PTR ";

// Where its revision stands.
const REVISION_PLACE: u64 = 15;

// How many bytes one of ACPI 1.0 has, which sum to zero by themselves in every RSDP.
const FIRST_SIZE: u32 = 20;

/// Finds the RSDP of `memory` (ACPI 6.5, 5.2.5.1 and 5.2.5.3): the least multiple of 16 from 0xE0000 on where a valid one stands. It
/// begins with `RSD PTR `, its 36 bytes end at or below 0x100000, its revision is at least 2, and its first 20 bytes and all 36 sum to
/// zero, whatever length it tells. Returns `None` when there is none. It takes no memory.
pub fn find_rsdp(memory: &GuestMemory) -> Option<u64>
    ensures some { IfSome result (IsLeast (HasRsdp (seen memory.now.memory))) }
    ensures none { result ≡ None ↔ HasNoRsdp (seen memory.now.memory) }
{
    find_rsdp_by(memory, XSDT_FORM)
}

/// Does the same by the form `form`: a valid one has as many bytes as the form tells, and a revision that it may have.
pub fn find_rsdp_by(memory: &GuestMemory, form: Form) -> Option<u64>
    ensures some { IfSome result (IsLeast (HasRsdpBy form (seen memory.now.memory))) }
    ensures none { result ≡ None ↔ HasNoRsdpBy form (seen memory.now.memory) }
{
    least_anchor(&RsdpAnchor(form), memory)
}

// The kind of anchor that leads to ACPI tables of a form.
#[derive(Clone, Copy)]
struct RsdpAnchor(Form);

impl AnchorKind for RsdpAnchor {
    const START: u64 = BIOS_START;

    ghost START = { 0xE0000 };

    ghost Stands = { λ kind. HasRsdpBy kind.0 };

    fn stands(&self, memory: &GuestMemory, address: u64) -> bool {
        if BIOS_END - address < u64::from(self.0.rsdp_size()) || !has_signature(memory, address) {
            return false;
        }
        has_revision_and_sums(memory, self.0, address)
    }

    ghost starts = { refl };

    ghost places = { λ kind view address has. rsdp_place kind.0 view address has };
}

// Whether the signature of an RSDP stands at an address.
fn has_signature(memory: &GuestMemory, address: u64) -> bool
    requires from { 0xE0000 ≤ address }
    requires aligned { address % 16 ≡ 0 }
    requires below { address < 0x100000 }
    ensures { IsTrue result ↔ HasRsdpSignature (seen memory.now.memory) address }
{
    memory.window(address, 8) == SIGNATURE
}

// Whether the revision that stands where one of an RSDP of the form `form` would is one that it may have, and its sums are zero.
fn has_revision_and_sums(memory: &GuestMemory, form: Form, address: u64) -> bool
    requires from { 0xE0000 ≤ address }
    requires within { address + rsdp_size form ≤ 0x100000 }
    ensures { IsTrue result ↔ HasRevisionAndSums form (seen memory.now.memory) address }
{
    if !form.has_revision(memory.read(address + REVISION_PLACE)) {
        return false;
    }
    if memory.sum_range(address, FIRST_SIZE) != 0 {
        return false;
    }
    memory.sum_range(address, form.rsdp_size()) == 0
}
