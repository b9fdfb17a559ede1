ghost use Rattle.std.specs.Prelude.{◌≡◌, ℕ, ◌%◌, ◌<◌, ◌≤◌, ◌↔◌, None, IsTrue, IfSome};
ghost use Rattle.vt_bytes.specs.View.{View};
ghost use Rattle.vt_bytes.specs.Memory.{seen};
ghost use Rattle.anchor_scan.specs.Shown.{IsLeast};
ghost use Rattle.anchor_scan.specs.Found.{IsPlace};

use guest_memory::GuestMemory;
use vt_bytes::BIOS_END;

const ANCHOR_STEP: u64 = 16;

/// A kind of anchor, which stands on a multiple of 16 from an address of its own on, in a PC's BIOS area, which ends at 1 MiB.
pub(crate) trait AnchorKind {
    /// The least address where one may stand, a multiple of 16.
    const START: u64;

    ghost START: { ℕ };

    // A valid one of this kind stands at the address.
    ghost Stands: { Self → View → ℕ → Type 0 };

    /// Tells whether a valid one stands at `address`, where one may stand.
    fn stands(&self, memory: &GuestMemory, address: u64) -> bool
        requires from { START ≤ address }
        requires aligned { address % 16 ≡ 0 }
        requires below { address < 0x100000 }
        ensures { IsTrue result ↔ Stands self.now (seen memory.now.memory) address };

    ghost starts: { START % 16 ≡ 0 };

    // A valid one stands only where one may stand.
    ghost places: { (kind : Self) (view : View) (address : ℕ) → Stands kind view address → IsPlace START address };
}

/// Finds the least address where a valid anchor of this kind stands in `memory`, or `None` where there is none.
pub(crate) fn least_anchor<A: AnchorKind>(kind: &A, memory: &GuestMemory) -> Option<u64>
    ensures some { IfSome result (IsLeast (A.Stands kind.now (seen memory.now.memory))) }
    ensures none { result ≡ None ↔ ((address : ℕ) → A.Stands kind.now (seen memory.now.memory) address → ⊥) }
{
    let mut address = A::START;
    while address < BIOS_END {
        if kind.stands(memory, address) {
            return Some(address);
        }
        address += ANCHOR_STEP;
    }
    None
}
