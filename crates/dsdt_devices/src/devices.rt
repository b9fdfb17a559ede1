ghost use Rattle.std.specs.Prelude.{◌≡◌, map, codes, option_map, IfOk};
ghost use Rattle.aml_terms.specs.Trees.{view};
ghost use Rattle.dsdt_devices.specs.BusTerms.{bus_terms, first_told, in_device};
ghost use Rattle.dsdt_devices.specs.Told.{bridge_in, devices_in};

use crate::bridge::bridge_in;
use crate::bus_terms::first_device;
use crate::uart::uarts_in;
use aml_terms::Term;
use machine_desc::{Bridge, Uart};
use std::alloc::Global;
use vt_outside::{List, OutOfMemory};

/// The devices of a machine of which a DSDT tells, but for its timer and its processors, of which other tables tell more.
#[derive(Debug, Drop)]
pub struct DsdtDevices {
    /// The bridge to PCI, where there is one. Its configuration space is 0: the MCFG tells it.
    pub bridge: Option<Bridge>,
    /// The serial ports, in order.
    pub uarts: List<Uart>,
    /// Whether there is a real-time clock.
    pub rtc: bool,
    /// Whether there is a keyboard controller.
    pub keyboard: bool,
}

/// Returns the devices that `terms` tell: those directly in scopes `\_SB_` that stand at the top. Of the bridge `PCI0`, the clock `RTC_` and
/// the keyboard controller `KBD_` the first one counts; each device `COM1` to `COM4` is a serial port. What isn't there, or has another form
/// than the terms of a machine, is 0, empty or left out, but for the bridge's last bus, which is 255. Lists take their memory from `alloc`.
/// Returns `OutOfMemory` when memory runs out.
pub fn devices_in(alloc: Global, terms: &[Term]) -> Result<DsdtDevices, OutOfMemory>
    ensures { IfOk result (λ devices. devices ≡ devices_in (map view terms.now)) }
{
    let uarts = uarts_in(alloc, terms)?;
    Ok(DsdtDevices {
        bridge: bridge_of(alloc, terms)?,
        uarts,
        rtc: first_device(terms, b"RTC_").is_some(),
        keyboard: first_device(terms, b"KBD_").is_some(),
    })
}

// The first bridge.
fn bridge_of(alloc: Global, terms: &[Term]) -> Result<Option<Bridge>, OutOfMemory>
    ensures { IfOk result (λ bridge. bridge ≡ option_map bridge_in (first_told (in_device (codes "PCI0")) (bus_terms (map view terms.now)))) }
{
    match first_device(terms, b"PCI0") {
        Some(inside) => Ok(Some(bridge_in(alloc, inside)?)),
        None => Ok(None),
    }
}
