//! What the types of a machine's numbers say of them. A proof learns it of a number behind a reference where the number is read, so each
//! one is.

ghost use Rattle.std.specs.Prelude.{◌<◌, ◌^◌, IfSome};
ghost use Rattle.std.specs.List.{AllByRecursion};
ghost use Rattle.machine_desc.specs.Rules.{HasFittingUuids};
ghost use Rattle.machine_desc.specs.Fields.{IsFittingFirmware, IsFittingSocket, IsFittingSlot, IsFittingPower, IsFittingHpet};
ghost use Rattle.machine_desc.specs.Fields.{IsFittingApic, IsFittingCpu, IsFittingIoApic, IsFittingOverride, IsFittingNmi, IsFittingNuma};
ghost use Rattle.machine_desc.specs.Fields.{IsFittingRoute, IsFittingBridge};

use crate::acpi_parts::{Apic, Cpu, IoApic, Nmi, Numa, Override, Power};
use crate::device_parts::{Bridge, Route};
use crate::machine::{Hpet, Machine};
use crate::smbios_parts::{Firmware, Slot, Socket};

// A part of a machine with numbers, which fit their fields.
pub(crate) trait Fitting {
    ghost Fits: { Self → Type 0 };

    fn read_numbers(&self)
        ensures { Fits self.now };
}

pub(crate) fn read_numbers_if<P: Fitting>(part: &Option<P>)
    ensures { IfSome part.now P.Fits }
{
    if let Some(part) = part {
        part.read_numbers();
    }
}

pub(crate) fn read_numbers_of_each<P: Fitting>(parts: &[P])
    ensures { AllByRecursion P.Fits parts.now }
{
    for part in parts {
        part.read_numbers();
    }
}

impl Fitting for Firmware {
    ghost Fits = { IsFittingFirmware };

    fn read_numbers(&self) {
        let (_major, _minor) = (self.major, self.minor);
    }
}

impl Fitting for Socket {
    ghost Fits = { IsFittingSocket };

    fn read_numbers(&self) {
        let _mhz = self.mhz;
    }
}

impl Fitting for Slot {
    ghost Fits = { IsFittingSlot };

    fn read_numbers(&self) {
        let (_kind, _width, _id, _bus) = (self.kind, self.width, self.id, self.bus);
    }
}

impl Fitting for Power {
    ghost Fits = { IsFittingPower };

    fn read_numbers(&self) {
        read_power(*self);
    }
}

fn read_power(power: Power)
    ensures { IsFittingPower power }
{}

impl Fitting for Hpet {
    ghost Fits = { IsFittingHpet };

    fn read_numbers(&self) {
        let (_address, _block_id) = (self.address, self.block_id);
        let (_number, _min_tick) = (self.number, self.min_tick);
    }
}

impl Fitting for Apic {
    ghost Fits = { IsFittingApic };

    fn read_numbers(&self) {
        let _local = self.local;
    }
}

impl Fitting for Cpu {
    ghost Fits = { IsFittingCpu };

    fn read_numbers(&self) {
        let (_apic, _node) = (self.apic, self.node);
    }
}

impl Fitting for IoApic {
    ghost Fits = { IsFittingIoApic };

    fn read_numbers(&self) {
        let (_id, _address, _gsi) = (self.id, self.address, self.gsi);
    }
}

impl Fitting for Override {
    ghost Fits = { IsFittingOverride };

    fn read_numbers(&self) {
        let _gsi = self.gsi;
    }
}

impl Fitting for Nmi {
    ghost Fits = { IsFittingNmi };

    fn read_numbers(&self) {
        read_nmi(*self);
    }
}

fn read_nmi(nmi: Nmi)
    ensures { IsFittingNmi nmi }
{}

impl Fitting for Numa {
    ghost Fits = { IsFittingNuma };

    fn read_numbers(&self) {
        read_bytes(self.distance.as_slice());
    }
}

fn read_bytes(bytes: &[u8])
    ensures { AllByRecursion (λ byte. byte < 2 ^ 8) bytes.now }
{}

impl Fitting for Route {
    ghost Fits = { IsFittingRoute };

    fn read_numbers(&self) {
        let _gsi = self.gsi;
    }
}

impl Fitting for Bridge {
    ghost Fits = { IsFittingBridge };

    fn read_numbers(&self) {
        let _last_bus = self.last_bus;
        read_numbers_of_each(self.routes.as_slice());
    }
}

impl Machine {
    pub(crate) fn read_uuids(&self)
        ensures { HasFittingUuids self.now }
    {
        uuid_fits(self.system.uuid);
        uuid_fits(self.generation);
    }
}

fn uuid_fits(uuid: Option<u128>)
    ensures { IfSome uuid (λ number. number < 2 ^ 128) }
{}
