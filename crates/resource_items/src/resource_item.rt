use crate::address_space::{DwordSpace, QwordSpace, WordSpace};
use crate::fixed_memory::FixedMemory;
use crate::io_port::IoPort;
use crate::irq_mask::IrqMask;

/// One descriptor of a resource template. Its first byte tells which it is (ACPI 6.5, 6.4.2 and 6.4.3).
#[derive(Clone, Copy, Debug, PartialEq, Eq)]
pub enum ResourceItem {
    /// Ports, in 8 bytes that begin with 0x47.
    Port(IoPort),
    /// Interrupts, in 3 bytes that begin with 0x22.
    Irq(IrqMask),
    /// Memory that stays where it is, in 12 bytes that begin with 0x86.
    Memory(FixedMemory),
    /// Addresses in numbers of two bytes, in 16 bytes that begin with 0x88.
    Word(WordSpace),
    /// Addresses in numbers of four bytes, in 26 bytes that begin with 0x87.
    Dword(DwordSpace),
    /// Addresses in numbers of eight bytes, in 46 bytes that begin with 0x8A.
    Qword(QwordSpace),
}
