ghost use Rattle.std.specs.Prelude.{◌≡◌, ◌<◌, ◌^◌, ◌↔◌, [], length, None, IfOk, IsTrue, IsSome, false};
ghost use Rattle.std.specs.List.{AllByRecursion};
ghost use Rattle.std.specs.Option.{option_copied};
ghost use Rattle.vt_outside.specs.Name.{IsName};
ghost use Rattle.cfg_directory.specs.Items.{selected};
ghost use Rattle.cfg_dma.specs.Device.{IsDevice, contents, bytes_of, reset_device};

use crate::transfer::{Finished, Flight};
use cfg_directory::{Item, Items, directory_bytes};
use std::alloc::Global;
use std::marker::Model;
use vt_outside::{Bytes, List, OutOfMemory};

// Item 0x0000.
const SIGNATURE: [u8; 4] = [0x51, 0x45, 0x4D, 0x55];

// Item 0x0001: the selector and data registers, and DMA.
const FEATURES: [u8; 4] = [3, 0, 0, 0];

/// A fw_cfg device. Contracts see its items, its registers, the transfer in flight, the transfers that are over and how many more
/// there is room for.
#[derive(Drop)]
pub struct Device {
    pub(crate) items: Items,
    // What the files held that may be written, when the device began.
    kept: List<Bytes>,
    // Item 0x0019. No write changes it.
    directory: Bytes,
    pub(crate) select: u16,
    pub(crate) offset: u32,
    pub(crate) address: u64,
    pub(crate) flight: Option<Flight>,
    // Has room for each transfer that may still finish.
    pub(crate) finished: Vec<Finished>,
}

impl Model for Device {
    ghost use Rattle.std.specs.Prelude.{◌-◌, vec_capacity, vec_len};
    ghost use Rattle.cfg_directory.specs.Restored.{AreKept, restored};
    ghost use Rattle.cfg_dma.specs.Device.{DeviceState, IsDevice, KeepsDirectory};

    ghost Value = { DeviceState };

    ghost view = { λ d. record {
      items = d.items;
      opening = restored d.items d.kept;
      select = d.select;
      offset = d.offset;
      address = d.address;
      flight = d.flight;
      finished = d.finished.items;
      spare = vec_capacity d.finished - vec_len d.finished;
    } };

    ghost invariant = { λ d. (KeepsDirectory d.items d.directory × AreKept d.items d.kept) × IsDevice (record {
      items = d.items;
      opening = restored d.items d.kept;
      select = d.select;
      offset = d.offset;
      address = d.address;
      flight = d.flight;
      finished = d.finished.items;
      spare = vec_capacity d.finished - vec_len d.finished;
    }) };
}

impl Device {
    /// Makes a device of the files `items`, with room for `transfers` transfers to finish. Item 0x0000 is selected, at offset 0.
    /// All the memory that the device needs comes from `alloc`. It fails with `OutOfMemory` only where memory runs out.
    pub fn begin(alloc: Global, items: Items, transfers: u32) -> Result<Device, OutOfMemory>
        ensures begun { IfOk result (λ device. device ≡ record {
          items = items;
          opening = items;
          select = 0x0000;
          offset = 0;
          address = 0;
          flight = None;
          finished = [];
          spare = transfers;
        }) }
        ensures names { IfOk result (λ _. AllByRecursion (λ item. IsName item.name) items) }
        ensures device { IfOk result IsDevice }
    {
        let directory = directory_bytes(alloc, &items)?;
        let kept = items.kept(alloc)?;
        let finished = Vec::with_capacity(alloc, transfers as usize)?;
        Ok(Device {
            items,
            kept,
            directory,
            select: 0,
            offset: 0,
            address: 0,
            flight: None,
            finished,
        })
    }

    /// Makes the device what it was when it began: what the guest wrote is gone, and so are the transfers. No more transfers are over,
    /// and there is room for as many in all as before. It takes no memory.
    pub fn reset(&mut self)
        ensures { self.new ≡ reset_device self.old }
    {
        self.items.restore(self.kept.as_slice());
        self.select = 0;
        self.offset = 0;
        self.address = 0;
        self.flight = None;
        self.finished.clear();
    }

    /// Tells whether a transfer is in flight.
    pub fn busy(&self) -> bool
        ensures value { IsTrue result ↔ IsSome self.now.flight }
        ensures idle { result ≡ false → self.now.flight ≡ None }
        ensures lawful { IsDevice self.now }
    {
        self.flight.is_some()
    }

    /// Lends the transfers that are over, in the order in which they finished.
    pub fn finished(&self) -> &[Finished]
        ensures { result.now ≡ self.now.finished }
    {
        self.finished.as_slice()
    }

    /// Returns the file with the selector `select`, or `None`. The other items are no files. This is the host's side: it moves no
    /// offset.
    pub fn item(&self, select: u16) -> Option<&Item>
        ensures { option_copied result ≡ selected self.now.items select }
    {
        self.items.by_select(select)
    }

    // What an item holds.
    pub(crate) fn contents(&self, select: u16) -> &[u8]
        ensures value { result.now ≡ contents self.now.items select }
        ensures small { length result.now < 2 ^ 32 }
        ensures lawful { IsDevice self.now }
    {
        match select {
            0x0000 => &SIGNATURE,
            0x0001 => &FEATURES,
            0x0019 => self.directory.as_slice(),
            _ => self.bytes_of(select),
        }
    }

    // What a file holds.
    fn bytes_of(&self, select: u16) -> &[u8]
        ensures value { result.now ≡ bytes_of self.now.items select }
        ensures small { length result.now < 2 ^ 32 }
    {
        match self.items.by_select(select) {
            Some(item) => item.bytes.as_slice(),
            None => &[],
        }
    }
}
