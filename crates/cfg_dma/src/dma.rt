ghost use Rattle.std.specs.Prelude.{◌≡◌, ◌<◌, None, true};
ghost use Rattle.vt_bytes.specs.Memory.{IsRamRange};
ghost use Rattle.guest_memory.specs.Touched.{TouchesOnly};
ghost use Rattle.cfg_dma.specs.declared.transfer.Kind.TheVariants.{Write};
ghost use Rattle.cfg_dma.specs.Device.{LieInFile, IsWritable, Moves};
ghost use Rattle.cfg_dma.specs.Transfers.{attached, CanMove, room_of, finish, begin_moving, begin_as, transfer_of, carry_out, start, may_write};
ghost use Rattle.cfg_dma.specs.Events.{LowWritten, happens, with_low};
ghost use Rattle.cfg_dma.specs.Touching.{IsInDescriptor};

use crate::descriptor::{DESCRIPTOR_BYTES, Descriptor};
use crate::device::Device;
use crate::transfer::{Finished, Flight, Kind};
use guest_memory::GuestMemory;

impl Device {
    /// Writes the lower half of the DMA address register, which starts the transfer whose descriptor is at the register's address;
    /// the register is then zero. `word` is the number that the guest writes high byte first. No transfer may be in flight, and
    /// there must be room for one more to finish.
    ///
    /// Nothing is started where the 16 bytes of the descriptor aren't all RAM. A transfer that moves no bytes is over at once. So is,
    /// with an error, one whose range of memory isn't all RAM, or that writes where the selected item doesn't let it. Any other is
    /// then in flight, and `piece` moves it. No other frames are touched than those of the descriptor.
    pub fn write_address_low(&mut self, memory: &mut GuestMemory, word: u32)
        requires idle { self.old.flight ≡ None }
        requires room { 0 < self.old.spare }
        ensures after { attached self.new memory.new.memory ≡ happens (LowWritten word) (attached self.old memory.old.memory) }
        ensures can_move { CanMove (attached self.new memory.new.memory) }
        ensures room { room_of self.new ≡ room_of self.old }
        ensures top { memory.new.memory.top ≡ memory.old.memory.top }
        ensures fill { memory.new.memory.fill ≡ memory.old.memory.fill }
        ensures touches { TouchesOnly (IsInDescriptor (with_low self.old.address word)) memory.old.memory.top memory.old.touched memory.new.touched }
    {
        let address = self.with_low(word);
        self.start(memory, address);
    }

    // Carries out the descriptor at an address, where it is RAM, and clears the address register.
    fn start(&mut self, memory: &mut GuestMemory, address: u64)
        requires idle { self.old.flight ≡ None }
        requires room { 0 < self.old.spare }
        ensures after { attached self.new memory.new.memory ≡ start address (attached self.old memory.old.memory) }
        ensures touches { TouchesOnly (IsInDescriptor address) memory.old.memory.top memory.old.touched memory.new.touched }
    {
        self.address = 0;
        if memory.is_ram_range(address, DESCRIPTOR_BYTES) {
            let asked = Descriptor::read(memory, address);
            self.carry_out(memory, address, asked);
        }
    }

    // Begins what a descriptor asks for, once the item is selected that it may name.
    fn carry_out(&mut self, memory: &mut GuestMemory, descriptor: u64, asked: Descriptor)
        requires ram { IsRamRange memory.old.memory.top descriptor 16 }
        requires idle { self.old.flight ≡ None }
        requires room { 0 < self.old.spare }
        ensures after { attached self.new memory.new.memory ≡ carry_out descriptor asked (attached self.old memory.old.memory) }
        ensures touches { TouchesOnly (IsInDescriptor descriptor) memory.old.memory.top memory.old.touched memory.new.touched }
    {
        if let Some(select) = asked.selected() {
            self.write_selector(select);
        }
        let transfer = self.transfer_of(asked);
        self.begin_as(memory, descriptor, transfer);
    }

    // The transfer that a descriptor asks for.
    fn transfer_of(&self, asked: Descriptor) -> Finished
        ensures { result ≡ transfer_of asked self.now }
    {
        Finished {
            kind: asked.kind(),
            select: self.select,
            offset: self.offset,
            length: asked.length,
            address: asked.address,
            error: false,
        }
    }

    // Begins a transfer.
    fn begin_as(&mut self, memory: &mut GuestMemory, descriptor: u64, transfer: Finished)
        requires ram { IsRamRange memory.old.memory.top descriptor 16 }
        requires idle { self.old.flight ≡ None }
        requires room { 0 < self.old.spare }
        ensures after { attached self.new memory.new.memory ≡ begin_as transfer.kind descriptor transfer (attached self.old memory.old.memory) }
        ensures touches { TouchesOnly (IsInDescriptor descriptor) memory.old.memory.top memory.old.touched memory.new.touched }
    {
        match transfer.kind {
            Kind::Read => {
                let allowed = memory.is_ram_range(transfer.address, transfer.length);
                self.begin_moving(memory, descriptor, transfer, allowed);
            }
            Kind::Write => {
                let is_ram = memory.is_ram_range(transfer.address, transfer.length);
                let allowed = self.may_write(transfer.length) && is_ram;
                self.begin_moving(memory, descriptor, transfer, allowed);
            }
            Kind::Skip => {
                self.advance(transfer.length);
                self.finish(memory, descriptor, transfer);
            }
            Kind::Nothing => self.finish(memory, descriptor, transfer),
        }
    }

    // Begins a transfer that moves bytes, if it is allowed.
    fn begin_moving(
        &mut self,
        memory: &mut GuestMemory,
        descriptor: u64,
        transfer: Finished,
        allowed: bool,
    )
        requires ram { IsRamRange memory.old.memory.top descriptor 16 }
        requires idle { self.old.flight ≡ None }
        requires room { 0 < self.old.spare }
        requires moves { Moves transfer.kind }
        requires fits { allowed ≡ true → transfer.kind ≡ Write → LieInFile self.old transfer.length }
        requires writable { allowed ≡ true → transfer.kind ≡ Write → IsWritable self.old.items self.old.select }
        ensures after { attached self.new memory.new.memory ≡ begin_moving allowed descriptor transfer (attached self.old memory.old.memory) }
        ensures touches { TouchesOnly (IsInDescriptor descriptor) memory.old.memory.top memory.old.touched memory.new.touched }
    {
        if transfer.length == 0 {
            self.finish(memory, descriptor, transfer);
        } else if allowed {
            self.flight = Some(Flight {
                descriptor,
                transfer,
                moved: 0,
            });
        } else {
            let failed = Finished {
                error: true,
                ..transfer
            };
            self.finish(memory, descriptor, failed);
        }
    }

    // Whether so many bytes may be written from the offset on.
    fn may_write(&self, count: u32) -> bool
        ensures value { result ≡ may_write self.now count }
        ensures fits { result ≡ true → LieInFile self.now count }
        ensures writable { result ≡ true → IsWritable self.now.items self.now.select }
    {
        match self.items.by_select(self.select) {
            Some(item) => {
                item.writable
                    && u64::from(self.offset) + u64::from(count) <= item.bytes.len() as u64
            }
            None => false,
        }
    }

    // Ends a transfer: its control word becomes 0, or 1 where it failed, and it is the last that is over.
    pub(crate) fn finish(&mut self, memory: &mut GuestMemory, descriptor: u64, transfer: Finished)
        requires ram { IsRamRange memory.old.memory.top descriptor 16 }
        requires idle { self.old.flight ≡ None }
        requires room { 0 < self.old.spare }
        ensures after { attached self.new memory.new.memory ≡ finish descriptor transfer (attached self.old memory.old.memory) }
        ensures touches { TouchesOnly (IsInDescriptor descriptor) memory.old.memory.top memory.old.touched memory.new.touched }
    {
        let control = u32::from(transfer.error);
        memory.copy_in(descriptor, &control.to_be_bytes());
        self.finished.push_reserved(transfer);
    }
}
