ghost use Rattle.std.specs.Prelude.{◌≡◌, ◌+◌, ◌%◌, ◌<◌, ◌≤◌, ◌↔◌, length, take, IsTrue};
ghost use Rattle.vt_bytes.specs.Numbers.{byte_sum};
ghost use Rattle.vt_bytes.specs.Memory.{IsRam, IsRamRange, IsMemory, bytes_at, with_bytes};
ghost use Rattle.guest_memory.specs.RamRange.{is_ram_range, LieInARange};
ghost use Rattle.guest_memory.specs.Touched.{touched_at};

use crate::memory::{FRAME_BYTES, GuestMemory, ram_ranges};
use vt_bytes::AddressRange;

impl GuestMemory {
    /// Tells whether each of the `len` bytes from the guest address `address` on is RAM. Where `len` is 0 it is true, whatever
    /// `address` is.
    pub fn is_ram_range(&self, address: u64, len: u32) -> bool
        ensures value { result ≡ is_ram_range self.now.memory.top address len }
        ensures ram { IsTrue result ↔ IsRamRange self.now.memory.top address len }
    {
        len == 0 || self.lie_in_a_range(address, len)
    }

    // Whether so many bytes from an address on lie in a range of RAM.
    fn lie_in_a_range(&self, address: u64, len: u32) -> bool
        ensures range { IsTrue result ↔ LieInARange self.now.memory.top address len }
        ensures lawful { IsMemory self.now.memory }
    {
        let [low, bios, high] = ram_ranges(self.top());
        is_within(low, address, len)
            || is_within(bios, address, len)
            || is_within(high, address, len)
    }

    /// Writes `bytes` at the guest address `address`. Each of those addresses must be RAM, and each other byte stays. Where
    /// `bytes` is empty, `address` may be any number and nothing changes.
    pub fn copy_in(&mut self, address: u64, bytes: &[u8])
        requires { IsRamRange self.old.memory.top address (length bytes.now) }
        ensures after { self.new.memory ≡ with_bytes self.old.memory address bytes.now }
        ensures touched { self.new.touched ≡ touched_at self.old.memory.top address (length bytes.now) self.old.touched }
        ensures lawful { IsMemory self.old.memory }
    {
        // That a memory is lawful is said by its top's call.
        let _top = self.top();
        let mut done = 0;
        while done < bytes.len() {
            done += self.put_in_frame(address + done as u64, &bytes[done..]);
        }
    }

    /// Returns the sum, modulo 256, of the `len` bytes from the guest address `address` on. Each of those addresses must be
    /// RAM. Frames that lie in the range whole and aren't touched cost a look at a flag each.
    pub fn sum_range(&self, address: u64, len: u32) -> u8
        requires { IsRamRange self.now.memory.top address len }
        ensures { result ≡ byte_sum (bytes_at self.now.memory address len) }
    {
        // That a memory is lawful is said by its top's call.
        let _top = self.top();
        let len = len as usize;
        let mut sum = 0u8;
        let mut done = 0;
        while done < len {
            let start = address + done as u64;
            let count = len_in_frame(start, len - done);
            sum = sum.wrapping_add(self.sum_in_frame(start, count));
            done += count;
        }
        sum
    }

    /// Reads as many bytes as `bytes` has from the guest address `address` on into `bytes`. Each of those addresses must be RAM.
    /// Where `bytes` is empty, `address` may be any number.
    pub fn copy_out(&self, address: u64, bytes: &mut [u8])
        requires { IsRamRange self.now.memory.top address (length bytes.old) }
        ensures { bytes.new ≡ bytes_at self.now.memory address (length bytes.old) }
    {
        // That a memory is lawful is said by its top's call.
        let _top = self.top();
        let mut done = 0;
        while done < bytes.len() {
            done += self.get_from_frame(address + done as u64, &mut bytes[done..]);
        }
    }

    // Writes as many of `bytes` as the frame of an address has room for, and returns how many.
    fn put_in_frame(&mut self, address: u64, bytes: &[u8]) -> usize
        requires some { 0 < length bytes.now }
        requires ram { IsRam self.old.memory.top address }
        ensures after { self.new.memory ≡ with_bytes self.old.memory address (take result bytes.now) }
        ensures touched { self.new.touched ≡ touched_at self.old.memory.top address result self.old.touched }
        ensures some { 0 < result }
        ensures within { result ≤ length bytes.now }
    {
        let len = len_in_frame(address, bytes.len());
        self.window_mut(address, len as u32)
            .copy_from_slice(&bytes[..len]);
        len
    }

    // Reads the bytes from an address on into the front of `bytes`, as many as fit and as its frame has, and returns how many.
    fn get_from_frame(&self, address: u64, bytes: &mut [u8]) -> usize
        requires some { 0 < length bytes.old }
        requires ram { IsRam self.now.memory.top address }
        ensures front { take result bytes.new ≡ bytes_at self.now.memory address result }
        ensures some { 0 < result }
        ensures within { result ≤ length bytes.old }
    {
        let part = self.part_in_frame(address, bytes.len());
        bytes[..part.len()].copy_from_slice(part);
        part.len()
    }

    /// Lends the bytes from the guest address `address` on, which must be RAM, up to the end of its frame of 4,096 bytes, but no
    /// more than `len` of them, which must be at least 1.
    pub fn part_in_frame(&self, address: u64, len: usize) -> &[u8]
        requires some { 0 < len }
        requires ram { IsRam self.now.memory.top address }
        ensures value { result.now ≡ bytes_at self.now.memory address (length result.now) }
        ensures some { 0 < length result.now }
        ensures within { length result.now ≤ len }
        ensures all { length result.now < len → address % 4096 + length result.now ≡ 4096 }
    {
        self.window(address, len_in_frame(address, len) as u32)
    }
}

// Whether so many bytes from an address on lie in a range.
fn is_within(range: AddressRange, address: u64, len: u32) -> bool
    ensures { IsTrue result ↔ (range.start ≤ address × (address + len ≤ range.end)) }
{
    range.start <= address && address <= range.end && u64::from(len) <= range.end - address
}

// How many of so many bytes from an address on lie in its frame.
fn len_in_frame(address: u64, len: usize) -> usize
    requires { 0 < len }
    ensures some { 0 < result }
    ensures within { result ≤ len }
    ensures frame { address % 4096 + result ≤ 4096 }
    ensures all { result < len → address % 4096 + result ≡ 4096 }
{
    let room = (FRAME_BYTES - address % FRAME_BYTES) as usize;
    if len < room { len } else { room }
}
