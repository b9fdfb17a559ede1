//! The other devices: serial ports, clock, keyboard, timer and processors.

ghost use Rattle.std.specs.Prelude.{◌≡◌, ◌<◌, ◌≤◌, IfOk};
ghost use Rattle.dsdt_terms.specs.Devices.{port_item, irq_item, uart_device, clock_device, keyboard_device, timer_device, hex_digit, cpu_name, cpu_device};

use crate::names::{
    EVENT_TIMER, KEYBOARD_CONTROLLER, REAL_TIME_CLOCK, SERIAL_PORT, device, push_hardware_id,
    push_resources, push_text, push_unique_id,
};
use aml_terms::Term;
use machine_desc::{Hpet, Uart};
use resource_items::{FixedMemory, IoPort, IrqMask, ResourceItem};
use std::alloc::Global;
use vt_outside::{List, OutOfMemory};

// So many ports from one on.
fn port_item(port: u16, length: u8) -> ResourceItem
    ensures { result ≡ port_item port length }
{
    ResourceItem::Port(IoPort {
        min: port,
        max: port,
        length,
    })
}

// An interrupt of the ISA bus.
fn irq_item(irq: u8) -> ResourceItem
    requires { irq ≤ 15 }
    ensures { result ≡ irq_item irq }
{
    ResourceItem::Irq(IrqMask { mask: 1 << irq })
}

// The serial port at a place, of which there are at most 4.
pub(crate) fn uart_device(alloc: Global, place: u8, uart: Uart) -> Result<Term, OutOfMemory>
    requires few { place < 4 }
    requires irq { uart.irq ≤ 15 }
    ensures { IfOk result (λ term. term ≡ uart_device (place, uart)) }
{
    let mut values = List::new(alloc);
    push_hardware_id(&mut values, SERIAL_PORT)?;
    push_unique_id(&mut values, u64::from(place) + 1)?;
    push_resources(&mut values, &[port_item(uart.port, 8), irq_item(uart.irq)])?;
    device(alloc, [b'C', b'O', b'M', b'1' + place], values)
}

pub(crate) fn clock_device(alloc: Global) -> Result<Term, OutOfMemory>
    ensures { IfOk result (λ term. term ≡ clock_device) }
{
    let mut values = List::new(alloc);
    push_hardware_id(&mut values, REAL_TIME_CLOCK)?;
    push_resources(&mut values, &[port_item(0x70, 2), irq_item(8)])?;
    device(alloc, *b"RTC_", values)
}

pub(crate) fn keyboard_device(alloc: Global) -> Result<Term, OutOfMemory>
    ensures { IfOk result (λ term. term ≡ keyboard_device) }
{
    let mut values = List::new(alloc);
    push_hardware_id(&mut values, KEYBOARD_CONTROLLER)?;
    push_resources(
        &mut values,
        &[port_item(0x60, 1), port_item(0x64, 1), irq_item(1)],
    )?;
    device(alloc, *b"KBD_", values)
}

pub(crate) fn timer_device(alloc: Global, hpet: Hpet) -> Result<Term, OutOfMemory>
    ensures { IfOk result (λ term. term ≡ timer_device hpet) }
{
    let mut values = List::new(alloc);
    push_hardware_id(&mut values, EVENT_TIMER)?;
    let registers = FixedMemory {
        base: hpet.address,
        length: 0x400,
    };
    push_resources(&mut values, &[ResourceItem::Memory(registers)])?;
    device(alloc, *b"HPET", values)
}

// The processor at a place, of which there are at most 4,096.
pub(crate) fn cpu_device(alloc: Global, place: u32) -> Result<Term, OutOfMemory>
    requires { place < 4096 }
    ensures { IfOk result (λ term. term ≡ cpu_device place) }
{
    let mut values = List::new(alloc);
    push_text(&mut values, *b"_HID", b"ACPI0007")?;
    push_unique_id(&mut values, u64::from(place))?;
    device(alloc, cpu_name(place), values)
}

// The name of a processor: the four hexadecimal digits of 0xC000 and its number.
fn cpu_name(number: u32) -> [u8; 4]
    requires { number < 4096 }
    ensures { result ≡ cpu_name number }
{
    [
        b'C',
        hex_digit(number / 0x100 % 0x10),
        hex_digit(number / 0x10 % 0x10),
        hex_digit(number % 0x10),
    ]
}

fn hex_digit(digit: u32) -> u8
    requires { digit < 16 }
    ensures { result ≡ hex_digit digit }
{
    if digit < 10 {
        b'0' + digit as u8
    } else {
        b'A' + (digit as u8 - 10)
    }
}
