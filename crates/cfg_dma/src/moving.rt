ghost use Rattle.std.specs.Prelude.{◌≡◌, ◌≢◌, ◌+◌, ◌≤◌, ◌<◌, length, replicate, IfSome, Some, None};
ghost use Rattle.vt_bytes.specs.Memory.{IsRamRange, IsMemory, bytes_at, with_bytes};
ghost use Rattle.guest_memory.specs.Touched.{TouchesOnly};
ghost use Rattle.cfg_directory.specs.Items.{IsItems, with_bytes_at};
ghost use Rattle.cfg_dma.specs.declared.transfer.Kind.TheVariants.{Read, Write};
ghost use Rattle.cfg_dma.specs.Device.{LieInFile, FitsIn, IsDevice, IsInFlight, IsWritable, advanced};
ghost use Rattle.cfg_dma.specs.Transfers.{attached, CanMove, room_of, move_as, move_next, next_bytes, settle, piece};
ghost use Rattle.cfg_dma.specs.Events.{Piece, happens};
ghost use Rattle.cfg_dma.specs.Touching.{IsAmong, IsInDescriptor, IsTouchedBy, MayTouch};

use crate::device::Device;
use crate::transfer::{Flight, Kind};
use cfg_directory::Items;
use guest_memory::GuestMemory;

impl Device {
    /// Moves the next `bytes` bytes of the transfer in flight, or as many as are left; where none is in flight nothing happens. With
    /// the last one the transfer finishes. Where one is in flight, its descriptor and its range of addresses must be RAM of
    /// `memory`, and no other frames are touched than those of its descriptor and, where it is a read, of its range.
    pub fn piece(&mut self, memory: &mut GuestMemory, bytes: u32)
        requires { CanMove (attached self.old memory.old.memory) }
        ensures after { attached self.new memory.new.memory ≡ happens (Piece bytes) (attached self.old memory.old.memory) }
        ensures can_move { CanMove (attached self.new memory.new.memory) }
        ensures room { room_of self.new ≡ room_of self.old }
        ensures top { memory.new.memory.top ≡ memory.old.memory.top }
        ensures fill { memory.new.memory.fill ≡ memory.old.memory.fill }
        ensures touches { TouchesOnly (MayTouch self.old.flight) memory.old.memory.top memory.old.touched memory.new.touched }
    {
        self.move_piece(memory, bytes);
    }

    // Moves the next bytes of the transfer in flight.
    fn move_piece(&mut self, memory: &mut GuestMemory, bytes: u32)
        requires { CanMove (attached self.old memory.old.memory) }
        ensures after { attached self.new memory.new.memory ≡ piece bytes (attached self.old memory.old.memory) }
        ensures touches { TouchesOnly (MayTouch self.old.flight) memory.old.memory.top memory.old.touched memory.new.touched }
        ensures lawful { IsDevice self.old }
    {
        let Some(flight) = self.flight.take() else {
            return;
        };
        self.move_next(memory, flight, bytes);
    }

    // Moves the next bytes of a transfer.
    fn move_next(&mut self, memory: &mut GuestMemory, flight: Flight, bytes: u32)
        requires descriptor { IsRamRange memory.old.memory.top flight.descriptor 16 }
        requires range { IsRamRange memory.old.memory.top flight.transfer.address flight.transfer.length }
        requires idle { self.old.flight ≡ None }
        requires items { IsItems self.old.items }
        requires flight { IsInFlight self.old flight }
        ensures after { attached self.new memory.new.memory ≡ move_next (Some flight) bytes (attached self.old memory.old.memory) }
        ensures touches { TouchesOnly (IsTouchedBy flight) memory.old.memory.top memory.old.touched memory.new.touched }
    {
        // That a memory is lawful is said by its top's call.
        let _top = memory.top();
        let count = bytes.min(flight.transfer.length - flight.moved);
        let address = flight.transfer.address + u64::from(flight.moved);
        self.move_as(memory, flight.transfer.kind, address, count);
        let moved = flight.moved + count;
        self.settle(memory, Flight { moved, ..flight });
    }

    // Ends a transfer of which all was moved, or keeps it in flight.
    fn settle(&mut self, memory: &mut GuestMemory, flight: Flight)
        requires descriptor { IsRamRange memory.old.memory.top flight.descriptor 16 }
        requires idle { self.old.flight ≡ None }
        requires room { 0 < self.old.spare }
        requires flight { flight.moved ≢ flight.transfer.length → IsInFlight self.old flight }
        ensures after { attached self.new memory.new.memory ≡ settle flight (attached self.old memory.old.memory) }
        ensures touches { TouchesOnly (IsInDescriptor flight.descriptor) memory.old.memory.top memory.old.touched memory.new.touched }
    {
        if flight.moved == flight.transfer.length {
            self.finish(memory, flight.descriptor, flight.transfer);
        } else {
            self.flight = Some(flight);
        }
    }

    // Moves so many bytes between the item and memory.
    fn move_as(&mut self, memory: &mut GuestMemory, kind: Kind, address: u64, count: u32)
        requires ram { IsRamRange memory.old.memory.top address count }
        requires idle { self.old.flight ≡ None }
        requires fits { kind ≡ Write → LieInFile self.old count }
        requires writable { kind ≡ Write → IsWritable self.old.items self.old.select }
        ensures after { attached self.new memory.new.memory ≡ move_as kind address count (attached self.old memory.old.memory) }
        ensures touches { TouchesOnly (λ place. (kind ≡ Read) × IsAmong address count place) memory.old.memory.top memory.old.touched memory.new.touched }
    {
        match kind {
            Kind::Read => {
                self.read_to(memory, address, count);
                self.advance(count);
            }
            Kind::Write => self.write_from(memory, address, count),
            Kind::Skip | Kind::Nothing => {}
        }
    }

    // Moves so many bytes of the item, and zeros past its end, to memory.
    fn read_to(&self, memory: &mut GuestMemory, address: u64, count: u32)
        requires ram { IsRamRange memory.old.memory.top address count }
        ensures after { memory.new.memory ≡ with_bytes memory.old.memory address (next_bytes self.now count) }
        ensures touches { TouchesOnly (IsAmong address count) memory.old.memory.top memory.old.touched memory.new.touched }
    {
        let bytes = &self.contents(self.select)[self.offset as usize..];
        let there = bytes.len().min(count as usize);
        memory.copy_in(address, &bytes[..there]);
        put_zeros(memory, address + there as u64, count as usize - there);
    }

    // Moves so many bytes of memory to the item, in which they fit.
    fn write_from(&mut self, memory: &GuestMemory, address: u64, count: u32)
        requires ram { IsRamRange memory.now.memory.top address count }
        requires idle { self.old.flight ≡ None }
        requires fits { LieInFile self.old count }
        requires writable { IsWritable self.old.items self.old.select }
        ensures { self.new ≡ record (advanced self.old count) {
          items = with_bytes_at self.old.items self.old.select self.old.offset (bytes_at memory.now.memory address count);
        } }
    {
        put_bytes(
            &mut self.items,
            self.select,
            self.offset,
            memory,
            address,
            count,
        );
        self.offset += count;
    }
}

// Writes so many zeros into memory.
fn put_zeros(memory: &mut GuestMemory, address: u64, count: usize)
    requires { IsRamRange memory.old.memory.top address count }
    ensures after { memory.new.memory ≡ with_bytes memory.old.memory address (replicate count 0) }
    ensures touches { TouchesOnly (IsAmong address count) memory.old.memory.top memory.old.touched memory.new.touched }
{
    put_zeros_of(memory, &[0; 256], address, count);
}

// The same, as many at once as `zeros` has.
fn put_zeros_of(memory: &mut GuestMemory, zeros: &[u8], address: u64, count: usize)
    requires zeros { zeros.now ≡ replicate (length zeros.now) 0 }
    requires some { 0 < length zeros.now }
    requires ram { IsRamRange memory.old.memory.top address count }
    ensures after { memory.new.memory ≡ with_bytes memory.old.memory address (replicate count 0) }
    ensures touches { TouchesOnly (IsAmong address count) memory.old.memory.top memory.old.touched memory.new.touched }
{
    // That a memory is lawful is said by its top's call.
    let _top = memory.top();
    let mut done = 0;
    while done < count {
        done += put_some_zeros(memory, zeros, address + done as u64, count - done);
    }
}

// Writes as many of so many zeros into memory as `zeros` has, and returns how many.
fn put_some_zeros(memory: &mut GuestMemory, zeros: &[u8], address: u64, count: usize) -> usize
    requires zeros { zeros.now ≡ replicate (length zeros.now) 0 }
    requires some_zeros { 0 < length zeros.now }
    requires some { 0 < count }
    requires ram { IsRamRange memory.old.memory.top address count }
    ensures after { memory.new.memory ≡ with_bytes memory.old.memory address (replicate result 0) }
    ensures touches { TouchesOnly (IsAmong address count) memory.old.memory.top memory.old.touched memory.new.touched }
    ensures some { 0 < result }
    ensures within { result ≤ count }
{
    let len = count.min(zeros.len());
    memory.copy_in(address, &zeros[..len]);
    len
}

// Writes so many bytes of memory into a file, in which they fit.
fn put_bytes(
    items: &mut Items,
    select: u16,
    offset: u32,
    memory: &GuestMemory,
    address: u64,
    count: u32,
)
    requires ram { IsRamRange memory.now.memory.top address count }
    requires lawful { IsItems items.old }
    requires fits { FitsIn items.old select (offset + count) }
    ensures after { items.new ≡ with_bytes_at items.old select offset (bytes_at memory.now.memory address count) }
    ensures kept { IsItems items.new }
{
    // That a memory is lawful is said by its top's call, and that items are by the call that lends them.
    let _top = memory.top();
    let mut done = 0;
    while done < count {
        let part = memory.part_in_frame(address + u64::from(done), (count - done) as usize);
        items.write_at(select, offset + done, part);
        done += part.len() as u32;
    }
    let _items = items.all();
}
