ghost use Rattle.std.specs.Prelude.{◌≡◌, ◌+◌, ◌^◌, ◌<◌, ◌≤◌, ◌↔◌, ◌⊎◌, length, None, IfSome, IsErr, OnOk, OnErr};
ghost use Rattle.vt_bytes.specs.Numbers.{le, le_bytes};
ghost use Rattle.vt_bytes.specs.Memory.{IsRamRange, IsMemory, bytes_at, with_bytes};
ghost use Rattle.guest_memory.specs.Touched.{touched_at};

use crate::memory::GuestMemory;
use thiserror::Error;
use vt_bytes::get_le;

/// A sum doesn't fit in its field.
#[derive(Clone, Copy, Debug, PartialEq, Eq, Error)]
#[error("the number does not fit its field")]
pub struct TooFar;

impl GuestMemory {
    /// Adds `amount` to the little-endian number in the `size` bytes at the guest address `address`. `size` must be 1, 2, 4 or
    /// 8, and each of those addresses must be RAM. Each other byte stays. It fails with `TooFar` where the sum doesn't fit in
    /// `size` bytes, and then no byte changes; the frames of the field are touched all the same.
    pub fn patch_add(&mut self, address: u64, size: u8, amount: u64) -> Result<(), TooFar>
        requires size { (size ≡ 1) ⊎ ((size ≡ 2) ⊎ ((size ≡ 4) ⊎ (size ≡ 8))) }
        requires ram { IsRamRange self.old.memory.top address size }
        ensures ok { OnOk result (self.new.memory ≡ with_bytes self.old.memory address
            (le_bytes size (le (bytes_at self.old.memory address size) + amount))) }
        ensures too_far { IsErr result ↔ (256 ^ size ≤ le (bytes_at self.old.memory address size) + amount) }
        ensures err { OnErr result (self.new.memory ≡ self.old.memory) }
        ensures touched { self.new.touched ≡ touched_at self.old.memory.top address size self.old.touched }
        ensures lawful { IsMemory self.old.memory }
    {
        // That a memory is lawful is said by its top's call.
        let _top = self.top();
        let number = self.number_at(address, size);
        match sum_within(number, amount, size) {
            Some(sum) => {
                self.put_number(address, size, sum);
                Ok(())
            }
            None => {
                self.touch(address, size);
                Err(TooFar)
            }
        }
    }

    // The little-endian number of `size` bytes at an address.
    fn number_at(&self, address: u64, size: u8) -> u64
        requires some { 1 ≤ size }
        requires size { size ≤ 8 }
        requires ram { IsRamRange self.now.memory.top address size }
        ensures { result ≡ le (bytes_at self.now.memory address size) }
    {
        let size = usize::from(size);
        let mut bytes = [0; 8];
        self.copy_out(address, &mut bytes[..size]);
        get_le(&bytes, 0, size)
    }

    // Puts a number in `size` bytes at an address, low byte first.
    fn put_number(&mut self, address: u64, size: u8, number: u64)
        requires size { size ≤ 8 }
        requires ram { IsRamRange self.old.memory.top address size }
        ensures after { self.new.memory ≡ with_bytes self.old.memory address (le_bytes size number) }
        ensures touched { self.new.touched ≡ touched_at self.old.memory.top address size self.old.touched }
    {
        let bytes = number.to_le_bytes();
        self.copy_in(address, &bytes[..usize::from(size)]);
    }

    // Touches the frames of a field, of which no byte changes.
    fn touch(&mut self, address: u64, size: u8)
        requires size { size ≤ 8 }
        requires ram { IsRamRange self.old.memory.top address size }
        ensures memory { self.new.memory ≡ self.old.memory }
        ensures touched { self.new.touched ≡ touched_at self.old.memory.top address size self.old.touched }
    {
        let mut bytes = [0; 8];
        self.put_again(address, &mut bytes[..usize::from(size)]);
    }

    // Puts the bytes at an address that it has, by way of as many others.
    fn put_again(&mut self, address: u64, bytes: &mut [u8])
        requires { IsRamRange self.old.memory.top address (length bytes.old) }
        ensures memory { self.new.memory ≡ self.old.memory }
        ensures touched { self.new.touched ≡ touched_at self.old.memory.top address (length bytes.old) self.old.touched }
    {
        // That a memory is lawful is said by its top's call.
        let _top = self.top();
        self.copy_out(address, bytes);
        self.copy_in(address, bytes);
    }
}

// The sum of two numbers, if it fits in so many bytes.
fn sum_within(number: u64, amount: u64, size: u8) -> Option<u64>
    requires { (size ≡ 1) ⊎ ((size ≡ 2) ⊎ ((size ≡ 4) ⊎ (size ≡ 8))) }
    ensures some { IfSome result (λ sum. (sum ≡ number + amount) × (sum < 256 ^ size)) }
    ensures none { result ≡ None → 256 ^ size ≤ number + amount }
{
    let sum = number.checked_add(amount)?;
    if size < 8 && sum >> (8 * u32::from(size)) != 0 {
        return None;
    }
    Some(sum)
}
