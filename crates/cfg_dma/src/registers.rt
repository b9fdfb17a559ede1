ghost use Rattle.std.specs.Prelude.{◌≡◌, None};
ghost use Rattle.cfg_dma.specs.Device.{with_selected, next_byte, advanced, dma_signature};
ghost use Rattle.cfg_dma.specs.Events.{with_high, with_low};

use crate::device::Device;

// "QEMU CFG", high byte first.
const DMA_SIGNATURE: u64 = 0x5145_4D55_2043_4647;

// How many numbers a half of the address register holds.
const HALF: u64 = 0x1_0000_0000;

impl Device {
    /// Selects the item `select`, at offset 0. No transfer may be in flight.
    pub fn write_selector(&mut self, select: u16)
        requires { self.old.flight ≡ None }
        ensures { self.new ≡ with_selected self.old select }
    {
        self.select = select;
        self.offset = 0;
    }

    /// Returns the selected item's byte at the offset, and moves the offset past it; at the item's end it returns 0 and the offset
    /// stays. No transfer may be in flight.
    pub fn read_byte(&mut self) -> u8
        requires { self.old.flight ≡ None }
        ensures value { result ≡ next_byte self.old }
        ensures after { self.new ≡ advanced self.old 1 }
    {
        let byte = self.byte_at_offset();
        self.advance(1);
        byte
    }

    // The byte at the offset, or 0 at the item's end.
    fn byte_at_offset(&self) -> u8
        ensures { result ≡ next_byte self.now }
    {
        let bytes = self.contents(self.select);
        bytes.get(self.offset as usize).copied().unwrap_or(0)
    }

    // Moves the offset so many bytes further, but never past the item's end.
    pub(crate) fn advance(&mut self, count: u32)
        requires { self.old.flight ≡ None }
        ensures { self.new ≡ advanced self.old count }
    {
        let left = self.contents(self.select).len() as u32 - self.offset;
        self.offset += count.min(left);
    }

    /// Returns what the DMA address register reads as: the number that the bytes `QEMU CFG` spell, high byte first.
    pub fn read_address(&self) -> u64
        ensures { result ≡ dma_signature }
    {
        DMA_SIGNATURE
    }

    /// Writes the upper half of the DMA address register. `word` is the number that the guest writes high byte first.
    pub fn write_address_high(&mut self, word: u32)
        ensures { self.new ≡ record self.old { address = with_high self.old.address word } }
    {
        self.address = u64::from(word) * HALF + self.address % HALF;
    }

    // The address that the register holds once its lower half is written.
    pub(crate) fn with_low(&self, word: u32) -> u64
        ensures { result ≡ with_low self.now.address word }
    {
        self.address / HALF * HALF + u64::from(word)
    }
}
