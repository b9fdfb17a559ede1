ghost use Rattle.std.specs.Prelude.{◌≡◌, ◌+◌, ◌≤◌, length, Some, None, if◌then◌else◌};
ghost use Rattle.vt_bytes.specs.Numbers.{be};
ghost use Rattle.vt_bytes.specs.Parts.{part};
ghost use Rattle.vt_bytes.specs.Memory.{IsRamRange, bytes_at};
ghost use Rattle.cfg_dma.specs.Descriptor.{descriptor_in, kind_of, selects, select_of};

use crate::transfer::Kind;
use guest_memory::GuestMemory;
use vt_bytes::get_be;

// Bits of a control word.
const READ: u32 = 0x02;

const SKIP: u32 = 0x04;

const SELECT: u32 = 0x08;

const WRITE: u32 = 0x10;

/// How many bytes a descriptor has.
pub(crate) const DESCRIPTOR_BYTES: u32 = 16;

/// What a descriptor of a transfer holds.
#[derive(Clone, Copy)]
pub(crate) struct Descriptor {
    /// What is asked for, bit by bit; its upper 16 bits name an item.
    pub(crate) control: u32,
    /// How many bytes.
    pub(crate) length: u32,
    /// Where they are in memory.
    pub(crate) address: u64,
}

impl Descriptor {
    /// Reads the descriptor at an address, whose bytes must be RAM.
    pub(crate) fn read(memory: &GuestMemory, address: u64) -> Descriptor
        requires { IsRamRange memory.now.memory.top address 16 }
        ensures { result ≡ descriptor_in (bytes_at memory.now.memory address 16) }
    {
        let mut bytes = [0; 16];
        memory.copy_out(address, &mut bytes);
        Descriptor {
            control: number_at(&bytes, 0),
            length: number_at(&bytes, 4),
            address: get_be(&bytes, 8, 8),
        }
    }

    /// Returns what is asked for.
    pub(crate) fn kind(self) -> Kind
        ensures { result ≡ kind_of self.control }
    {
        if self.control & READ != 0 {
            Kind::Read
        } else if self.control & WRITE != 0 {
            Kind::Write
        } else if self.control & SKIP != 0 {
            Kind::Skip
        } else {
            Kind::Nothing
        }
    }

    /// Returns the item that is selected first, or `None` where none is.
    pub(crate) fn selected(self) -> Option<u16>
        ensures { result ≡ (if selects self.control then Some (select_of self.control) else None) }
    {
        if self.control & SELECT != 0 {
            Some((self.control >> 16) as u16)
        } else {
            None
        }
    }
}

// The number in 4 bytes from a place on, high byte first.
fn number_at(bytes: &[u8], at: usize) -> u32
    requires { at + 4 ≤ length bytes.now }
    ensures { result ≡ be (part bytes.now at 4) }
{
    get_be(bytes, at, 4) as u32
}
