ghost use Rattle.std.specs.Prelude.{◌≡◌, refl};
ghost use Rattle.vt_layout.specs.Entries.{kind_of};
ghost use Rattle.acpi_records.specs.NodeBack.{apic_affinity_back};
ghost use Rattle.acpi_records.specs.SratEntries.{apic_affinity_fields, apic_affinity_made};
ghost use Rattle.acpi_records.specs.SratEntries.{memory_affinity_fields, memory_affinity_made, x2apic_affinity_fields, x2apic_affinity_made};
ghost use Rattle.acpi_records.specs.SratEntries.{srat_entry_of, srat_entry_size};

use vt_layout::{Laid, RowList, Values};

/// The type of [`ApicAffinity`].
pub const APIC_AFFINITY_TYPE: u8 = 0;

/// The type of [`MemoryAffinity`].
pub const MEMORY_AFFINITY_TYPE: u8 = 1;

/// The type of [`X2ApicAffinity`].
pub const X2APIC_AFFINITY_TYPE: u8 = 2;

/// An entry of the SRAT (ACPI 6.5, 5.2.16), told by its type.
///
/// The records have the rows behind an entry's type and length. A longer entry is told as if it ended with its rows.
#[derive(Clone, Copy, Debug, PartialEq, Eq)]
pub enum SratEntry {
    /// The node of a processor with a local APIC, type 0, 16 bytes.
    Apic(ApicAffinity),
    /// The node of a range of memory, type 1, 40 bytes.
    Memory(MemoryAffinity),
    /// The node of a processor with a local x2APIC, type 2, 24 bytes.
    X2Apic(X2ApicAffinity),
    /// An entry of another type.
    Other {
        /// Its type.
        kind: u8,
        /// How many bytes it has, with its type and its length: at least 2.
        length: u8,
    },
}

/// The node of a processor with a local APIC (Processor Local APIC/SAPIC Affinity Structure, ACPI 6.5, 5.2.16.1).
///
/// The node stands in two places: its low byte in front, and its other three bytes behind the flags.
#[derive(Clone, Copy, Debug, PartialEq, Eq)]
pub struct ApicAffinity {
    /// The node. Its low byte stands at offset 2, and the others at 9 to 11.
    pub node: u32,
    /// The id of the processor's local APIC. Offset 3, byte.
    pub apic: u8,
    /// Bit 0: the entry counts. Offset 4, dword.
    pub flags: u32,
}

/// The node of a range of memory (Memory Affinity Structure, ACPI 6.5, 5.2.16.2).
#[derive(Clone, Copy, Debug, PartialEq, Eq)]
pub struct MemoryAffinity {
    /// The node. Offset 2, dword.
    pub node: u32,
    /// The address of the range. Offset 8, qword.
    pub base: u64,
    /// How many bytes it has. Offset 16, qword.
    pub length: u64,
    /// Bit 0: the entry counts. Bit 1: memory may be plugged in and out there. Bit 2: it keeps what it holds without power.
    /// Offset 28, dword.
    pub flags: u32,
}

/// The node of a processor with a local x2APIC (Processor Local x2APIC Affinity Structure, ACPI 6.5, 5.2.16.3).
#[derive(Clone, Copy, Debug, PartialEq, Eq)]
pub struct X2ApicAffinity {
    /// The node. Offset 4, dword.
    pub node: u32,
    /// The id of the processor's local x2APIC. Offset 8, dword.
    pub apic: u32,
    /// Bit 0: the entry counts. Offset 12, dword.
    pub flags: u32,
}

impl SratEntry {
    /// Returns its type.
    pub fn kind(&self) -> u8
        ensures { result ≡ kind_of (srat_entry_of self.now) }
    {
        match self {
            SratEntry::Apic(_) => APIC_AFFINITY_TYPE,
            SratEntry::Memory(_) => MEMORY_AFFINITY_TYPE,
            SratEntry::X2Apic(_) => X2APIC_AFFINITY_TYPE,
            SratEntry::Other { kind, .. } => *kind,
        }
    }

    /// Returns how many bytes it has, with its type and its length.
    pub fn size(&self) -> u8
        ensures { result ≡ srat_entry_size self.now }
    {
        match self {
            SratEntry::Apic(_) => 16,
            SratEntry::Memory(_) => 40,
            SratEntry::X2Apic(_) => 24,
            SratEntry::Other { length, .. } => *length,
        }
    }
}

impl Laid for ApicAffinity {
    const ROWS: u8 = 7;

    ghost ROWS = { 7 };

    ghost fields = { apic_affinity_fields };

    ghost made = { apic_affinity_made };

    ghost lawful = { λ t u. record { back = apic_affinity_back t; shaped = refl; counted = refl; readable = refl } };

    fn put<'a>(&'a self, rows: &mut RowList<'a>) {
        rows.byte((self.node % 0x100) as u8);
        rows.byte(self.apic);
        rows.dword(self.flags);
        rows.reserved(1);
        rows.byte((self.node / 0x100 % 0x100) as u8);
        rows.word((self.node / 0x100 / 0x100) as u16);
        rows.reserved(4);
    }

    fn take(values: &mut Values) -> ApicAffinity {
        let low = u32::from(values.take_byte());
        let apic = values.take_byte();
        let flags = values.take_dword();
        values.pass();
        let second = u32::from(values.take_byte());
        let high = u32::from(values.take_word());
        values.pass();
        ApicAffinity {
            node: low + 0x100 * (second + 0x100 * high),
            apic,
            flags,
        }
    }
}

impl Laid for MemoryAffinity {
    const ROWS: u8 = 7;

    ghost ROWS = { 7 };

    ghost fields = { memory_affinity_fields };

    ghost made = { memory_affinity_made };

    ghost lawful = { λ t u. record { back = refl; shaped = refl; counted = refl; readable = refl } };

    fn put<'a>(&'a self, rows: &mut RowList<'a>) {
        rows.dword(self.node);
        rows.reserved(2);
        rows.qword(self.base);
        rows.qword(self.length);
        rows.reserved(4);
        rows.dword(self.flags);
        rows.reserved(8);
    }

    fn take(values: &mut Values) -> MemoryAffinity {
        let node = values.take_dword();
        values.pass();
        let base = values.take_qword();
        let length = values.take_qword();
        values.pass();
        let flags = values.take_dword();
        values.pass();
        MemoryAffinity {
            node,
            base,
            length,
            flags,
        }
    }
}

impl Laid for X2ApicAffinity {
    const ROWS: u8 = 6;

    ghost ROWS = { 6 };

    ghost fields = { x2apic_affinity_fields };

    ghost made = { x2apic_affinity_made };

    ghost lawful = { λ t u. record { back = refl; shaped = refl; counted = refl; readable = refl } };

    fn put<'a>(&'a self, rows: &mut RowList<'a>) {
        rows.reserved(2);
        rows.dword(self.node);
        rows.dword(self.apic);
        rows.dword(self.flags);
        rows.reserved(4);
        rows.reserved(4);
    }

    fn take(values: &mut Values) -> X2ApicAffinity {
        values.pass();
        let entry = X2ApicAffinity {
            node: values.take_dword(),
            apic: values.take_dword(),
            flags: values.take_dword(),
        };
        values.pass();
        values.pass();
        entry
    }
}
