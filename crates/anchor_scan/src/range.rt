ghost use Rattle.std.specs.Prelude.{◌≡◌, ◌+◌, IfOk, find};
ghost use Rattle.vt_bytes.specs.Memory.{IsTop, IsRam, IsRamRange, ram_ranges, is_in, seen};
ghost use Rattle.smbios_model.specs.Anchor.{IsRange};

use guest_memory::{GuestMemory, ram_ranges};
use std::alloc::Global;
use vt_bytes::AddressRange;
use vt_outside::OutOfMemory;

/// Copies the bytes from `address` on, as many as `maximum` says and as are RAM without a gap. The copy takes its memory from
/// `alloc`, and fails only where that has no room for it.
pub(crate) fn range_from(
    alloc: Global,
    memory: &GuestMemory,
    address: u64,
    maximum: u32,
) -> Result<Vec<u8>, OutOfMemory>
    ensures { IfOk result (λ bytes. IsRange (seen memory.now.memory) address maximum bytes.items) }
{
    let size = ram_from(memory, address).min(u64::from(maximum));
    let mut bytes = vec![in alloc; 0; size as usize]?;
    memory.copy_out(address, &mut bytes);
    Ok(bytes)
}

// How many bytes from an address on are RAM without a gap.
fn ram_from(memory: &GuestMemory, address: u64) -> u64
    ensures ram { IsRamRange memory.now.memory.top address result }
    ensures gap { IsRam memory.now.memory.top (address + result) → ⊥ }
{
    match range_of(memory.top(), address) {
        Some(range) => range.end - address,
        None => 0,
    }
}

// The range of RAM in which an address lies.
fn range_of(top: u32, address: u64) -> Option<AddressRange>
    requires { IsTop top }
    ensures { result ≡ find (λ range. is_in range address) (ram_ranges top) }
{
    ram_ranges(top)
        .iter()
        .copied()
        .find(|range| range.contains(address))
}
