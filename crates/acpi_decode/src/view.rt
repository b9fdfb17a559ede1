ghost use Rattle.std.specs.Prelude.{◌≡◌, ◌≤◌, ◌^◌, ℕ, length, true, Some, None};
ghost use Rattle.vt_bytes.specs.View.{View, bytes_in};
ghost use Rattle.acpi_decode.specs.Seen.{is_ram, sum_at};

/// A memory that is read byte by byte. Contracts see the view that it is: from an address to the byte there, or to none.
///
/// Only `byte` must be written. The others read by it; an `impl` that can read many bytes at once puts its own in their place.
pub trait MemView {
    // The view that it is: at each address the byte there, or none.
    ghost seen: { Self → View };

    /// Returns the byte at `address`, or `None` exactly where there is no RAM.
    fn byte(&self, address: u64) -> Option<u8>
        ensures { result ≡ seen self.now address };

    /// Tells whether each of the `count` bytes from `address` on is RAM. There is no RAM from 2^64 on.
    fn is_ram_range(&self, address: u64, count: u32) -> bool
        ensures { result ≡ is_ram (seen self.now) address count }
    {
        for offset in 0..count {
            let Some(place) = address.checked_add(u64::from(offset)) else {
                return false;
            };
            if self.byte(place).is_none() {
                return false;
            }
        }
        true
    }

    /// Returns the sum, modulo 256, of the `count` bytes from `address` on, which must be RAM.
    fn sum_range(&self, address: u64, count: u32) -> u8
        requires { is_ram (seen self.now) address count ≡ true }
        ensures { result ≡ sum_at (seen self.now) address count }
    {
        let mut sum = 0u8;
        for offset in 0..count {
            if let Some(byte) = self.byte(address + u64::from(offset)) {
                sum = sum.wrapping_add(byte);
            }
        }
        sum
    }

    /// Fills `bytes` with the bytes from `address` on, which must be RAM.
    fn copy_out(&self, address: u64, bytes: &mut [u8])
        requires { is_ram (seen self.now) address (length bytes.old) ≡ true }
        ensures { bytes_in (seen self.now) address (length bytes.old) ≡ Some bytes.new }
    {
        for offset in 0..bytes.len() {
            if let Some(byte) = self.byte(address + offset as u64) {
                bytes[offset] = byte;
            }
        }
    }

    // There is no RAM from 2^64 on.
    ghost bounded: { (memory : Self) (address : ℕ) → 2 ^ 64 ≤ address → seen memory address ≡ None };
}
