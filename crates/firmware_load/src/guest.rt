ghost use Rattle.std.specs.Prelude.{◌≡◌, ◌==◌, ◌<◌, ◌≤◌, ◌^◌, ◌++◌, [], ◌∷◌, length, None};
ghost use Rattle.vt_bytes.specs.Numbers.{be};
ghost use Rattle.vt_bytes.specs.Memory.{IsTop, bytes_at};
ghost use Rattle.vt_bytes.specs.Memory.{with_bytes};
ghost use Rattle.vt_bytes.specs.Numbers.{le_bytes};
ghost use Rattle.vt_layout.specs.Rows.{IsPointerSize};
ghost use Rattle.cfg_dma.specs.Device.{reset_device};
ghost use Rattle.cfg_dma.specs.Reads.{started, descriptor_bytes, selected_read};
ghost use Rattle.cfg_dma.specs.Writes.{selected_skip};
ghost use Rattle.cfg_dma.specs.Transfers.{attached};
ghost use Rattle.load_states.specs.Guarded.{descriptor_at, buffer_at, is_guarded, written_by_other};
ghost use Rattle.load_states.specs.declared.event.Event.TheVariants.{Other};
ghost use Rattle.load_states.specs.Steps.{cleared, refilled};
ghost use Rattle.command_acts.specs.Placing.{ArePlacements};
ghost use Rattle.guest_memory.specs.Touched.{TouchesOnly};
ghost use Rattle.firmware_load.specs.Inside.{Nowhere, TouchesOver};

use crate::f_segment::refill;
use cfg_dma::Device;
use command_acts::Placements;
use guest_memory::GuestMemory;
use vt_bytes::{BIOS_END, BIOS_START, get_be, put_be, put_le};
use zone_alloc::zones_of;

// Where the firmware works: 16 bytes for the descriptor of a transfer, and a buffer that it reads and writes through.
const DESCRIPTOR: u64 = 0x7000;

const DESCRIPTOR_LOW: u32 = DESCRIPTOR as u32;

/// Where the firmware's buffer is.
pub(crate) const BUFFER: u64 = 0x8000;

/// How many bytes the buffer has.
pub(crate) const BUFFER_BYTES: u32 = 4096;

/// What the firmware of a load works on: the fw_cfg device, the memory that it is attached to, and which files are placed.
#[derive(Drop)]
pub(crate) struct Guest {
    pub(crate) device: Device,
    pub(crate) memory: GuestMemory,
    pub(crate) placements: Placements,
}

/// A control word that asks for a read from where the last one ended.
pub(crate) const NEXT_READ: u32 = 0x02;

/// A control word that asks for a write from where the last transfer ended.
pub(crate) const NEXT_WRITE: u32 = 0x10;

// A read of an item that is selected, and a skip in one.
const SELECTED_READ: u32 = 0x0A;

const SELECTED_SKIP: u32 = 0x0C;

/// Returns the control word that asks for a read of an item from its start.
pub(crate) fn selected_read(select: u16) -> u32
    ensures { result ≡ selected_read select }
{
    u32::from(select) * 0x1_0000 + SELECTED_READ
}

/// Returns the control word that asks for a skip in an item, from its start.
pub(crate) fn selected_skip(select: u16) -> u32
    ensures { result ≡ selected_skip select }
{
    u32::from(select) * 0x1_0000 + SELECTED_SKIP
}

impl Guest {
    /// Starts a transfer of `size` bytes at a guest address: writes its descriptor into the work range, and the descriptor's address
    /// into the device. None may be in flight, and there must be room for one more to finish.
    pub(crate) fn start(&mut self, control: u32, size: u32, address: u64)
        requires idle { self.old.device.flight ≡ None }
        requires room { 0 < self.old.device.spare }
        ensures after { attached self.new.device self.new.memory.memory
            ≡ started descriptor_at control size address (attached self.old.device self.old.memory.memory) }
        ensures placements { self.new.placements ≡ self.old.placements }
        ensures touches { TouchesOver [] self.old self.new }
    {
        let descriptor = descriptor(control, size, address);
        self.memory.copy_in(DESCRIPTOR, &descriptor);
        self.device.write_address_high(0);
        self.device
            .write_address_low(&mut self.memory, DESCRIPTOR_LOW);
    }

    /// Looks at the control word: tells whether the transfer is over.
    pub(crate) fn is_over(&self) -> bool
        ensures { result ≡ (be (bytes_at self.now.memory.memory descriptor_at 4) == 0) }
    {
        get_be(self.memory.window(DESCRIPTOR, 4), 0, 4) == 0
    }

    /// Lends the first bytes of the buffer, at most 4,096.
    pub(crate) fn buffered(&self, count: u32) -> &[u8]
        requires { count ≤ 4096 }
        ensures bytes { result.now ≡ bytes_at self.now.memory.memory buffer_at count }
        ensures len { length result.now ≡ count }
    {
        self.memory.window(BUFFER, count)
    }

    /// Puts a number of `size` bytes, 1, 2, 4 or 8, at the start of the buffer, low byte first.
    pub(crate) fn put_number(&mut self, size: u8, number: u64)
        requires size { IsPointerSize size }
        requires fits { number < 256 ^ size }
        ensures memory { self.new.memory.memory ≡ with_bytes self.old.memory.memory buffer_at (le_bytes size number) }
        ensures device { self.new.device ≡ self.old.device }
        ensures placements { self.new.placements ≡ self.old.placements }
        ensures touches { TouchesOver [] self.old self.new }
    {
        let mut bytes = [0; 8];
        put_le(&mut bytes, 0, size as usize, number);
        self.memory.copy_in(BUFFER, &bytes[..size as usize]);
    }

    /// Another processor writes a byte. Nothing happens where the address is no RAM, or is guarded.
    pub(crate) fn write_by_other(&mut self, addr: u64, byte: u8)
        ensures memory { self.new.memory.memory ≡ written_by_other addr byte self.old.memory.memory }
        ensures device { self.new.device ≡ self.old.device }
        ensures placements { self.new.placements ≡ self.old.placements }
        ensures touches { TouchesOver (Other addr byte ∷ []) self.old self.new }
    {
        if self.memory.is_ram(addr) && !is_guarded(self.memory.top(), addr) {
            self.memory.write(addr, byte);
        }
    }

    /// Makes the device what it was when it began, fills the F segment, in which a guest looks for an RSDP and an anchor, and has no file
    /// placed. No frame is touched that wasn't.
    pub(crate) fn reset(&mut self)
        requires { ArePlacements self.old.placements }
        ensures device { self.new.device ≡ reset_device self.old.device }
        ensures memory { self.new.memory.memory ≡ refilled self.old.memory.memory }
        ensures none { self.new.placements.placed.items ≡ [] }
        ensures placements { ArePlacements self.new.placements }
        ensures infos { self.new.placements.infos ≡ self.old.placements.infos }
        ensures touches { TouchesOnly Nowhere self.old.memory.memory.top self.old.memory.touched self.new.memory.touched }
    {
        self.device.reset();
        refill(&mut self.memory);
        self.placements.clear();
    }

    /// Puts the fill byte into the work range.
    pub(crate) fn clear(&mut self)
        ensures memory { self.new.memory.memory ≡ cleared self.old.memory.memory }
        ensures device { self.new.device ≡ self.old.device }
        ensures placements { self.new.placements ≡ self.old.placements }
        ensures touches { TouchesOver [] self.old self.new }
    {
        let fill = self.memory.fill();
        self.memory.copy_in(DESCRIPTOR, &[fill; 16]);
        self.memory.copy_in(BUFFER, &[fill; BUFFER_BYTES as usize]);
    }
}

// The bytes of a descriptor: three numbers, each high byte first.
fn descriptor(control: u32, size: u32, address: u64) -> [u8; 16]
    ensures { result ≡ descriptor_bytes control size address }
{
    let mut bytes = [0; 16];
    put_be(&mut bytes, 0, 4, u64::from(control));
    put_be(&mut bytes, 4, 4, u64::from(size));
    put_be(&mut bytes, 8, 8, address);
    bytes
}

// Whether no other processor writes at an address: it lies in the work range, in the BIOS area, in which the F segment is, or in high memory.
fn is_guarded(top: u32, addr: u64) -> bool
    requires { IsTop top }
    ensures { result ≡ is_guarded top addr }
{
    let zones = zones_of(top);
    (DESCRIPTOR..DESCRIPTOR + 16).contains(&addr)
        || (BUFFER..BUFFER + u64::from(BUFFER_BYTES)).contains(&addr)
        || (BIOS_START..BIOS_END).contains(&addr)
        || (zones.high_start..zones.high_end).contains(&addr)
}
