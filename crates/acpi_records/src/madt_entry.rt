ghost use Rattle.std.specs.Prelude.{◌≡◌, refl};
ghost use Rattle.vt_layout.specs.Entries.{kind_of};
ghost use Rattle.acpi_records.specs.MadtEntries.{local_apic_fields, local_apic_made, io_apic_fields, io_apic_made};
ghost use Rattle.acpi_records.specs.MadtEntries.{override_fields, override_made, local_nmi_fields, local_nmi_made};
ghost use Rattle.acpi_records.specs.MadtEntries.{x2apic_fields, x2apic_made, x2apic_nmi_fields, x2apic_nmi_made};
ghost use Rattle.acpi_records.specs.MadtEntries.{madt_entry_of, madt_entry_size};

use vt_layout::{Laid, RowList, Values};

/// The type of [`LocalApicEntry`].
pub const LOCAL_APIC_TYPE: u8 = 0;

/// The type of [`IoApicEntry`].
pub const IO_APIC_TYPE: u8 = 1;

/// The type of [`OverrideEntry`].
pub const OVERRIDE_TYPE: u8 = 2;

/// The type of [`LocalNmiEntry`].
pub const LOCAL_NMI_TYPE: u8 = 4;

/// The type of [`X2ApicEntry`].
pub const X2APIC_TYPE: u8 = 9;

/// The type of [`X2ApicNmiEntry`].
pub const X2APIC_NMI_TYPE: u8 = 10;

/// An entry of the MADT (ACPI 6.5, 5.2.12), told by its type.
///
/// The records have the rows behind an entry's type and length. A longer entry is told as if it ended with its rows.
#[derive(Clone, Copy, Debug, PartialEq, Eq)]
pub enum MadtEntry {
    /// A processor with a local APIC, type 0, 8 bytes.
    LocalApic(LocalApicEntry),
    /// An I/O APIC, type 1, 12 bytes.
    IoApic(IoApicEntry),
    /// An interrupt source override, type 2, 10 bytes.
    Override(OverrideEntry),
    /// A local APIC's input of non-maskable interrupts, type 4, 6 bytes.
    LocalNmi(LocalNmiEntry),
    /// A processor with a local x2APIC, type 9, 16 bytes.
    X2Apic(X2ApicEntry),
    /// A local x2APIC's input of non-maskable interrupts, type 10, 12 bytes.
    X2ApicNmi(X2ApicNmiEntry),
    /// An entry of another type.
    Other {
        /// Its type.
        kind: u8,
        /// How many bytes it has, with its type and its length: at least 2.
        length: u8,
    },
}

/// A processor with a local APIC (Processor Local APIC Structure, ACPI 6.5, 5.2.12.2).
#[derive(Clone, Copy, Debug, PartialEq, Eq)]
pub struct LocalApicEntry {
    /// The processor's UID. Offset 2, byte.
    pub uid: u8,
    /// The id of its local APIC. Offset 3, byte.
    pub apic: u8,
    /// Bit 0: it is enabled. Bit 1: it can be enabled while the machine runs. Offset 4, dword.
    pub flags: u32,
}

/// An I/O APIC (I/O APIC Structure, ACPI 6.5, 5.2.12.3).
#[derive(Clone, Copy, Debug, PartialEq, Eq)]
pub struct IoApicEntry {
    /// Its id. Offset 2, byte.
    pub id: u8,
    /// The address of its registers. Offset 4, dword.
    pub address: u32,
    /// The number of the global system interrupt of its first input. Offset 8, dword.
    pub gsi: u32,
}

/// An interrupt that isn't the global system interrupt of its own number (Interrupt Source Override Structure, ACPI 6.5, 5.2.12.5).
#[derive(Clone, Copy, Debug, PartialEq, Eq)]
pub struct OverrideEntry {
    /// The bus that the interrupt is of: 0 is ISA. Offset 2, byte.
    pub bus: u8,
    /// The interrupt's number on the bus. Offset 3, byte.
    pub irq: u8,
    /// The number of the global system interrupt that it raises. Offset 4, dword.
    pub gsi: u32,
    /// Its polarity in bits 0 and 1, and its trigger mode in bits 2 and 3. Offset 8, word.
    pub flags: u16,
}

/// A local APIC's input of non-maskable interrupts (Local APIC NMI Structure, ACPI 6.5, 5.2.12.7).
#[derive(Clone, Copy, Debug, PartialEq, Eq)]
pub struct LocalNmiEntry {
    /// The processor's UID, or 0xFF for all processors. Offset 2, byte.
    pub uid: u8,
    /// Its polarity in bits 0 and 1, and its trigger mode in bits 2 and 3. Offset 3, word.
    pub flags: u16,
    /// The number of the input, LINT0 or LINT1. Offset 5, byte.
    pub lint: u8,
}

/// A processor with a local x2APIC (Processor Local x2APIC Structure, ACPI 6.5, 5.2.12.12).
#[derive(Clone, Copy, Debug, PartialEq, Eq)]
pub struct X2ApicEntry {
    /// The id of its local x2APIC. Offset 4, dword.
    pub apic: u32,
    /// Bit 0: it is enabled. Bit 1: it can be enabled while the machine runs. Offset 8, dword.
    pub flags: u32,
    /// The processor's UID. Offset 12, dword.
    pub uid: u32,
}

/// A local x2APIC's input of non-maskable interrupts (Local x2APIC NMI Structure, ACPI 6.5, 5.2.12.13).
#[derive(Clone, Copy, Debug, PartialEq, Eq)]
pub struct X2ApicNmiEntry {
    /// Its polarity in bits 0 and 1, and its trigger mode in bits 2 and 3. Offset 2, word.
    pub flags: u16,
    /// The processor's UID, or 0xFFFFFFFF for all processors. Offset 4, dword.
    pub uid: u32,
    /// The number of the input, LINT0 or LINT1. Offset 8, byte.
    pub lint: u8,
}

impl MadtEntry {
    /// Returns its type.
    pub fn kind(&self) -> u8
        ensures { result ≡ kind_of (madt_entry_of self.now) }
    {
        match self {
            MadtEntry::LocalApic(_) => LOCAL_APIC_TYPE,
            MadtEntry::IoApic(_) => IO_APIC_TYPE,
            MadtEntry::Override(_) => OVERRIDE_TYPE,
            MadtEntry::LocalNmi(_) => LOCAL_NMI_TYPE,
            MadtEntry::X2Apic(_) => X2APIC_TYPE,
            MadtEntry::X2ApicNmi(_) => X2APIC_NMI_TYPE,
            MadtEntry::Other { kind, .. } => *kind,
        }
    }

    /// Returns how many bytes it has, with its type and its length.
    pub fn size(&self) -> u8
        ensures { result ≡ madt_entry_size self.now }
    {
        match self {
            MadtEntry::LocalApic(_) => 8,
            MadtEntry::IoApic(_) => 12,
            MadtEntry::Override(_) => 10,
            MadtEntry::LocalNmi(_) => 6,
            MadtEntry::X2Apic(_) => 16,
            MadtEntry::X2ApicNmi(_) => 12,
            MadtEntry::Other { length, .. } => *length,
        }
    }
}

impl Laid for LocalApicEntry {
    const ROWS: u8 = 3;

    ghost ROWS = { 3 };

    ghost fields = { local_apic_fields };

    ghost made = { local_apic_made };

    ghost lawful = { λ t u. record { back = refl; shaped = refl; counted = refl; readable = refl } };

    fn put<'a>(&'a self, rows: &mut RowList<'a>) {
        rows.byte(self.uid);
        rows.byte(self.apic);
        rows.dword(self.flags);
    }

    fn take(values: &mut Values) -> LocalApicEntry {
        LocalApicEntry {
            uid: values.take_byte(),
            apic: values.take_byte(),
            flags: values.take_dword(),
        }
    }
}

impl Laid for IoApicEntry {
    const ROWS: u8 = 4;

    ghost ROWS = { 4 };

    ghost fields = { io_apic_fields };

    ghost made = { io_apic_made };

    ghost lawful = { λ t u. record { back = refl; shaped = refl; counted = refl; readable = refl } };

    fn put<'a>(&'a self, rows: &mut RowList<'a>) {
        rows.byte(self.id);
        rows.reserved(1);
        rows.dword(self.address);
        rows.dword(self.gsi);
    }

    fn take(values: &mut Values) -> IoApicEntry {
        let id = values.take_byte();
        values.pass();
        IoApicEntry {
            id,
            address: values.take_dword(),
            gsi: values.take_dword(),
        }
    }
}

impl Laid for OverrideEntry {
    const ROWS: u8 = 4;

    ghost ROWS = { 4 };

    ghost fields = { override_fields };

    ghost made = { override_made };

    ghost lawful = { λ t u. record { back = refl; shaped = refl; counted = refl; readable = refl } };

    fn put<'a>(&'a self, rows: &mut RowList<'a>) {
        rows.byte(self.bus);
        rows.byte(self.irq);
        rows.dword(self.gsi);
        rows.word(self.flags);
    }

    fn take(values: &mut Values) -> OverrideEntry {
        OverrideEntry {
            bus: values.take_byte(),
            irq: values.take_byte(),
            gsi: values.take_dword(),
            flags: values.take_word(),
        }
    }
}

impl Laid for LocalNmiEntry {
    const ROWS: u8 = 3;

    ghost ROWS = { 3 };

    ghost fields = { local_nmi_fields };

    ghost made = { local_nmi_made };

    ghost lawful = { λ t u. record { back = refl; shaped = refl; counted = refl; readable = refl } };

    fn put<'a>(&'a self, rows: &mut RowList<'a>) {
        rows.byte(self.uid);
        rows.word(self.flags);
        rows.byte(self.lint);
    }

    fn take(values: &mut Values) -> LocalNmiEntry {
        LocalNmiEntry {
            uid: values.take_byte(),
            flags: values.take_word(),
            lint: values.take_byte(),
        }
    }
}

impl Laid for X2ApicEntry {
    const ROWS: u8 = 4;

    ghost ROWS = { 4 };

    ghost fields = { x2apic_fields };

    ghost made = { x2apic_made };

    ghost lawful = { λ t u. record { back = refl; shaped = refl; counted = refl; readable = refl } };

    fn put<'a>(&'a self, rows: &mut RowList<'a>) {
        rows.reserved(2);
        rows.dword(self.apic);
        rows.dword(self.flags);
        rows.dword(self.uid);
    }

    fn take(values: &mut Values) -> X2ApicEntry {
        values.pass();
        X2ApicEntry {
            apic: values.take_dword(),
            flags: values.take_dword(),
            uid: values.take_dword(),
        }
    }
}

impl Laid for X2ApicNmiEntry {
    const ROWS: u8 = 4;

    ghost ROWS = { 4 };

    ghost fields = { x2apic_nmi_fields };

    ghost made = { x2apic_nmi_made };

    ghost lawful = { λ t u. record { back = refl; shaped = refl; counted = refl; readable = refl } };

    fn put<'a>(&'a self, rows: &mut RowList<'a>) {
        rows.word(self.flags);
        rows.dword(self.uid);
        rows.byte(self.lint);
        rows.reserved(3);
    }

    fn take(values: &mut Values) -> X2ApicNmiEntry {
        let entry = X2ApicNmiEntry {
            flags: values.take_word(),
            uid: values.take_dword(),
            lint: values.take_byte(),
        };
        values.pass();
        entry
    }
}
