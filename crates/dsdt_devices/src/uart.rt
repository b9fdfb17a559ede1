//! Serial ports (ACPI 6.5, 6.2.2, 6.4.2.1 and 6.4.2.5).

ghost use Rattle.std.specs.Prelude.{◌≡◌, ◌++◌, map, IfOk, OnOk};
ghost use Rattle.std.specs.List.{filter_map};
ghost use Rattle.std.specs.Option.{option_map_or};
ghost use Rattle.aml_terms.specs.Trees.{view};
ghost use Rattle.dsdt_devices.specs.BusTerms.{bus_terms, first_told};
ghost use Rattle.dsdt_devices.specs.Told.{port_in, mask_in, interrupt_of, uart_of, is_uart, uart_in};

use crate::bridge::resources_in;
use crate::bus_terms::bus_of;
use aml_terms::{Path, Term};
use machine_desc::Uart;
use resource_items::ResourceItem;
use std::alloc::Global;
use vt_outside::{List, OutOfMemory};

// The serial ports directly in scopes of the system bus at the top, in order.
pub(crate) fn uarts_in(alloc: Global, terms: &[Term]) -> Result<List<Uart>, OutOfMemory>
    ensures { IfOk result (λ uarts. uarts ≡ filter_map uart_in (bus_terms (map view terms.now))) }
{
    let mut uarts = List::new(alloc);
    for term in terms {
        push_uarts(alloc, &mut uarts, bus_of(term))?;
    }
    Ok(uarts)
}

// Adds those among the terms in one scope.
fn push_uarts(alloc: Global, uarts: &mut List<Uart>, terms: &[Term]) -> Result<(), OutOfMemory>
    ensures { OnOk result (uarts.new ≡ uarts.old ++ filter_map uart_in (map view terms.now)) }
{
    for term in terms {
        if let Some(uart) = uart_in(alloc, term)? {
            uarts.push(uart)?;
        }
    }
    Ok(())
}

// The serial port that a term tells, where it is the device of one.
fn uart_in(alloc: Global, term: &Term) -> Result<Option<Uart>, OutOfMemory>
    ensures { IfOk result (λ uart. uart ≡ uart_in (view term.now)) }
{
    match term {
        Term::Device(path, inside) if is_uart(path) => {
            let items = resources_in(alloc, inside.as_slice())?;
            Ok(Some(uart_of(items.as_slice())))
        }
        _ => Ok(None),
    }
}

// Whether a name is one of the four that serial ports have.
fn is_uart(path: &Path) -> bool
    ensures { result ≡ is_uart path.now }
{
    path.is_beside(b"COM1")
        || path.is_beside(b"COM2")
        || path.is_beside(b"COM3")
        || path.is_beside(b"COM4")
}

// The first port and the first interrupt, each 0 where there is none.
fn uart_of(items: &[ResourceItem]) -> Uart
    ensures { result ≡ uart_of items.now }
{
    Uart {
        port: first_port(items),
        irq: interrupt_of(first_mask(items)),
    }
}

// The lowest address of the first item of ports, and 0 where there is none.
fn first_port(items: &[ResourceItem]) -> u16
    ensures { result ≡ option_map_or (λ port. port) (first_told port_in items.now) 0 }
{
    for item in items {
        if let ResourceItem::Port(port) = item {
            return port.min;
        }
    }
    0
}

// The mask of the first item of interrupts, and one without a bit where there is none.
fn first_mask(items: &[ResourceItem]) -> u16
    ensures { result ≡ option_map_or (λ mask. mask) (first_told mask_in items.now) 0 }
{
    for item in items {
        if let ResourceItem::Irq(irq) = item {
            return irq.mask;
        }
    }
    0
}

// The number of the one bit of a mask, and 0 where it has none or more.
fn interrupt_of(mask: u16) -> u8
    ensures { result ≡ interrupt_of mask }
{
    if mask.is_power_of_two() {
        mask.trailing_zeros() as u8
    } else {
        0
    }
}
