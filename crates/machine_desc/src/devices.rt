//! The rules of the devices that a guest finds through AML: the bridge with its windows and routes, and the serial ports.

ghost use Rattle.std.specs.Prelude.{◌≡◌, is_some, length, true};
ghost use Rattle.std.specs.Option.{option_map_or};
ghost use Rattle.machine_desc.specs.Rules.{first_failing, first_refused, first_unmet, parts_on_power, windows_of, routes_of, has_lawful_ecam};
ghost use Rattle.machine_desc.specs.Rules.{is_lawful_window, ends_within, is_lawful_route, pair_of, is_lawful_uart};

use crate::device_parts::{Bridge, Uart, Window, WindowKind};
use crate::machine::Machine;
use crate::numbers::first_refused;
use crate::parts::first_unmet;

impl Machine {
    // How many windows its bridge has.
    pub(crate) fn count_of_windows(&self) -> usize
        ensures { result ≡ length (windows_of self.now.bridge) }
    {
        match &self.bridge {
            None => 0,
            Some(bridge) => bridge.windows.len(),
        }
    }

    // How many routes it has.
    pub(crate) fn count_of_routes(&self) -> usize
        ensures { result ≡ length (routes_of self.now.bridge) }
    {
        match &self.bridge {
            None => 0,
            Some(bridge) => bridge.routes.len(),
        }
    }

    // The first part that needs power management, where there is none.
    pub(crate) fn part_without_power(&self) -> Option<usize>
        ensures { result ≡ first_unmet (is_some self.now.power) (parts_on_power self.now) }
    {
        first_unmet(
            self.power.is_some(),
            &[
                self.bridge.is_some(),
                self.uarts.len() != 0,
                self.generation.is_some(),
            ],
        )
    }
}

pub(crate) fn has_lawful_ecam(bridge: &Option<Bridge>) -> bool
    ensures { result ≡ option_map_or has_lawful_ecam bridge.now true }
{
    match bridge {
        None => true,
        Some(bridge) => bridge.ecam % 0x10_0000 == 0 && bridge.ecam < 1 << 52,
    }
}

// The place of the first window whose addresses aren't lawful.
pub(crate) fn unlawful_window(bridge: &Option<Bridge>) -> Option<usize>
    ensures { result ≡ first_failing is_lawful_window (windows_of bridge.now) }
{
    match bridge {
        None => None,
        Some(bridge) => bridge
            .windows
            .as_slice()
            .iter()
            .position(|window| !is_lawful_window(*window)),
    }
}

fn is_lawful_window(window: Window) -> bool
    ensures { result ≡ is_lawful_window window }
{
    1 <= window.size
        && match window.kind {
            WindowKind::Io => {
                ends_within(0x1_0000, window) && window.size <= 0xFFFF && !window.prefetch
            }
            WindowKind::Mem32 => ends_within(1 << 32, window) && window.size < 1 << 32,
            WindowKind::Mem64 => ends_within(1 << 52, window),
        }
}

// Whether a window's addresses are all below one. Its base and its size together may have 65 bits.
fn ends_within(end: u64, window: Window) -> bool
    ensures { result ≡ ends_within end window }
{
    window.base as u128 + window.size as u128 <= end as u128
}

// The place of the first route that isn't lawful, or is of an earlier one's pin.
pub(crate) fn unlawful_route(bridge: &Option<Bridge>) -> Option<usize>
    ensures { result ≡ first_refused is_lawful_route pair_of (routes_of bridge.now) }
{
    match bridge {
        None => None,
        Some(bridge) => first_refused(bridge.routes.as_slice()),
    }
}

// The place of the first serial port whose ports or interrupt aren't lawful.
pub(crate) fn unlawful_uart(uarts: &[Uart]) -> Option<usize>
    ensures { result ≡ first_failing is_lawful_uart uarts.now }
{
    uarts.iter().position(|uart| !is_lawful_uart(*uart))
}

fn is_lawful_uart(uart: Uart) -> bool
    ensures { result ≡ is_lawful_uart uart }
{
    uart.irq <= 15 && uart.port <= 0xFFF8
}
