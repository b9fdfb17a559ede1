ghost use Rattle.std.specs.Prelude.{◌≡◌, ℕ, ◌+◌, ◌<◌, ◌≤◌, ◌%◌, ◌↔◌, [], ◌∷◌, length, IsTrue, IfOk, false};
ghost use Rattle.std.specs.Borrow.{Lends, Array, u8, sem};
ghost use Rattle.vt_bytes.specs.Numbers.{byte_sum};
ghost use Rattle.vt_bytes.specs.Memory.{IsTop, IsRam, IsMemory, ram_ranges, at, bytes_at, with_bytes};
ghost use Rattle.guest_memory.specs.Bytes.{HoldsBytes};
ghost use Rattle.guest_memory.specs.Frames.{frame_limit, HoldsFill};
ghost use Rattle.guest_memory.specs.Store.{IsPlaceOf};
ghost use Rattle.guest_memory.specs.Touched.{IsHeld, is_touched, touched_at, with_lent};
ghost use Rattle.guest_memory.specs.contracts.memory.GuestMemory.{the_row};

use crate::store::Store;
use raw_frames::FRAME_BYTES as FRAME_SIZE;
use std::alloc::Global;
use std::marker::Model;
use vt_bytes::{AddressRange, BIOS_END, BIOS_START, byte_sum};
use vt_outside::OutOfMemory;

const LOW_END: u64 = 0xA_0000;

const HIGH_BYTES: u64 = 0x200_0000;

/// How many bytes a frame has. `window` and `window_mut` lend none past the end of one.
pub const FRAME_BYTES: u64 = FRAME_SIZE as u64;

/// Returns the ranges of addresses that are RAM where RAM ends at the address `top`: 0 to 0x9FFFF, 0xE0000 to 0xFFFFF, and the
/// 32 MiB that end at `top`, which must be a multiple of 1 MiB, from 64 MiB to 3 GiB.
pub fn ram_ranges(top: u32) -> [AddressRange; 3]
    requires { IsTop top }
    ensures { result ≡ ram_ranges top }
{
    let top = u64::from(top);
    [
        AddressRange {
            start: 0,
            end: LOW_END,
        },
        AddressRange {
            start: BIOS_START,
            end: BIOS_END,
        },
        AddressRange {
            start: top - HIGH_BYTES,
            end: top,
        },
    ]
}

/// Holds the memory of a guest: its top, its fill byte, and a byte for each address of RAM.
#[derive(Drop)]
pub struct GuestMemory {
    top: u32,
    // The first MiB, of which a part is no RAM, and then the 32 MiB that end at the top.
    store: Store,
}

impl Model for GuestMemory {
    ghost use Rattle.std.specs.Prelude.{◌≡◌};
    ghost use Rattle.vt_bytes.specs.Memory.{IsTop};
    ghost use Rattle.raw_frames.specs.Block.{AreFrames};
    ghost use Rattle.guest_memory.specs.Touched.{HeldMemory};
    ghost use Rattle.guest_memory.specs.Store.{held_memory};

    ghost Value = { HeldMemory };

    ghost view = { λ m. held_memory m.top m.store };

    ghost invariant = { λ m. IsTop m.top × AreFrames m.store.frames };
}

impl GuestMemory {
    /// Makes the memory of a guest whose RAM ends at the address `top`, and sets each byte of RAM to `fill`. `top` must be a
    /// multiple of 1 MiB, from 64 MiB to 3 GiB. Room for all of RAM, some 33 MiB, comes from `alloc` now, but none of it is written
    /// before a byte of its frame is changed. It fails with `OutOfMemory` only where `alloc` has no room for it.
    pub fn begin(alloc: Global, top: u32, fill: u8) -> Result<GuestMemory, OutOfMemory>
        requires { IsTop top }
        ensures top { IfOk result (λ held. held.memory.top ≡ top) }
        ensures fill { IfOk result (λ held. held.memory.fill ≡ fill) }
        ensures filled { IfOk result (λ held. (a : ℕ) → IsRam top a → at held.memory a ≡ fill) }
        ensures lawful { IfOk result (λ held. IsMemory held.memory) }
        ensures untouched { IfOk result (λ held. (frame : ℕ) → is_touched held.touched frame ≡ false) }
    {
        let store = Store::begin(alloc, fill)?;
        Ok(GuestMemory { top, store })
    }

    /// Returns the address past the last byte of RAM. It is a multiple of 1 MiB, from 64 MiB to 3 GiB.
    pub fn top(&self) -> u32
        ensures value { result ≡ self.now.memory.top }
        ensures lawful { IsMemory self.now.memory }
        ensures held { IsHeld self.now }
    {
        self.top
    }

    /// Returns the byte that each address of RAM held at the beginning.
    pub fn fill(&self) -> u8
        ensures { result ≡ self.now.memory.fill }
    {
        self.store.fill()
    }

    /// Tells whether the guest address `address` is RAM: it lies in one of the ranges of `ram_ranges`.
    pub fn is_ram(&self, address: u64) -> bool
        ensures { IsTrue result ↔ IsRam self.now.memory.top address }
    {
        let [low, bios, high] = ram_ranges(self.top);
        low.contains(address) || bios.contains(address) || high.contains(address)
    }

    /// Returns the byte at the guest address `address`, which must be RAM.
    pub fn read(&self, address: u64) -> u8
        requires { IsRam self.now.memory.top address }
        ensures { result ≡ at self.now.memory address }
    {
        self.window(address, 1)[0]
    }

    /// Writes `byte` at the guest address `address`, which must be RAM. Each other byte stays.
    pub fn write(&mut self, address: u64, byte: u8)
        requires { IsRam self.old.memory.top address }
        ensures after { self.new.memory ≡ with_bytes self.old.memory address (byte ∷ []) }
        ensures touched { self.new.touched ≡ touched_at self.old.memory.top address 1 self.old.touched }
        ensures lawful { IsMemory self.old.memory }
    {
        self.window_mut(address, 1)[0] = byte;
    }

    /// Lends the `len` bytes from the guest address `address` on, which must be RAM. All of them must lie in one frame of 4,096
    /// bytes.
    pub fn window(&self, address: u64, len: u32) -> &[u8]
        requires ram { IsRam self.now.memory.top address }
        requires frame { address % 4096 + len ≤ 4096 }
        ensures value { result.now ≡ bytes_at self.now.memory address len }
        ensures len { length result.now ≡ len }
    {
        let place = self.place_of(address);
        self.store
            .window(place / FRAME_SIZE, place % FRAME_SIZE, len as usize)
    }

    /// Lends the `len` bytes from the guest address `address` on, to be changed. `address` must be RAM, and all of them must lie
    /// in one frame of 4,096 bytes. What the borrower leaves there is what the memory then holds, and each other byte stays.
    pub fn window_mut(&mut self, address: u64, len: u32) -> &mut [u8]
        requires ram { IsRam self.old.memory.top address }
        requires frame { address % 4096 + len ≤ 4096 }
        ensures* lends { sem 𝓛 (Lends the_row (Array u8 0) self.entry result
            (with_lent self.old address len)) }
        ensures value { result.now ≡ bytes_at self.old.memory address len }
        ensures len { length result.now ≡ len }
        ensures lawful { IsMemory self.old.memory }
    {
        if len == 0 {
            return self.store.nothing_mut();
        }
        let place = self.place_of(address);
        self.store
            .window_mut(place / FRAME_SIZE, place % FRAME_SIZE, len as usize)
    }

    /// Tells whether a frame of 4,096 bytes is touched, and so may hold other bytes than the fill byte. `frame` must be below 8,448: the
    /// first 256 frames are those of the first MiB, and the others those of the 32 MiB that end at the top. A frame is touched once
    /// bytes of it were written, or lent to be changed.
    pub fn touched(&self, frame: u32) -> bool
        requires { frame < frame_limit }
        ensures told { result ≡ is_touched self.now.touched frame }
        ensures blank { result ≡ false → HoldsFill self.now.memory frame }
    {
        self.store.is_touched(frame as usize)
    }

    // Returns the sum, modulo 256, of the `len` bytes from an address on, all of which lie in its frame. A frame that isn't touched and is
    // summed whole isn't read: 4,096 bytes that are equal sum to 0.
    pub(crate) fn sum_in_frame(&self, address: u64, len: usize) -> u8
        requires ram { IsRam self.now.memory.top address }
        requires frame { address % 4096 + len ≤ 4096 }
        ensures { result ≡ byte_sum (bytes_at self.now.memory address len) }
    {
        let frame = self.place_of(address) / FRAME_SIZE;
        if len == FRAME_SIZE && !self.store.is_touched(frame) {
            return 0;
        }
        byte_sum(self.window(address, len as u32))
    }

    /// States that the memory holds bytes: each is below 256. It does nothing.
    pub fn holds_bytes(&self)
        ensures { HoldsBytes self.now.memory }
    {
        self.store.holds_bytes();
    }

    // Where the store has the byte of an address, all its bytes in a row.
    fn place_of(&self, address: u64) -> usize
        requires { IsRam self.now.memory.top address }
        ensures { IsPlaceOf self.now.memory.top address result }
    {
        if address < BIOS_END {
            address as usize
        } else {
            let start = u64::from(self.top) - HIGH_BYTES;
            (BIOS_END + (address - start)) as usize
        }
    }
}
