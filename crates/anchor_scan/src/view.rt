ghost use Rattle.anchor_scan.specs.Within.{seen_within, none_past};

use acpi_decode::MemView;
use guest_memory::GuestMemory;

/// A guest's memory, as a view from which ACPI tables are read.
///
/// Many bytes at once are read frame by frame, not one by one.
#[derive(Clone, Copy)]
pub struct Seen<'a>(pub &'a GuestMemory);

impl<'a> MemView for Seen<'a> {
    ghost seen = { λ s. seen_within s.0.now.memory };

    fn byte(&self, address: u64) -> Option<u8> {
        if self.0.is_ram(address) {
            Some(self.0.read(address))
        } else {
            None
        }
    }

    fn is_ram_range(&self, address: u64, count: u32) -> bool {
        // That a memory is lawful is said by its top's call.
        let _top = self.0.top();
        self.0.is_ram_range(address, count)
    }

    fn sum_range(&self, address: u64, count: u32) -> u8 {
        // That a memory is lawful is said by its top's call.
        let _top = self.0.top();
        self.0.sum_range(address, count)
    }

    fn copy_out(&self, address: u64, bytes: &mut [u8]) {
        // That a memory is lawful is said by its top's call.
        let _top = self.0.top();
        self.0.copy_out(address, bytes);
    }

    ghost bounded = { λ s. none_past s.0.now.memory };
}
