ghost use Rattle.std.specs.Prelude.{◌≡◌, IfOk, refl};
ghost use Rattle.smbios_model.specs.ProcessorInformation.{processor_fields, processor_in, processor_of, count_byte};

use crate::texts::three_copies_of;
use machine_desc::Socket;
use vt_layout::{Laid, RowList, Values};
use vt_outside::{OutOfMemory, Text};

/// Processor Information (DSP0134 7.5). An empty text is no text.
#[derive(Debug, Drop)]
pub struct ProcessorInfo {
    /// What is printed at the socket. Offset 0x04, string.
    pub designation: Text,
    /// The type of the processor (7.5.1). Offset 0x05, byte.
    pub kind: u8,
    /// Its family (7.5.2), or 0xFE where the second field has it. Offset 0x06, byte.
    pub family: u8,
    /// The manufacturer. Offset 0x07, string.
    pub manufacturer: Text,
    /// What the processor itself tells of its model and its features (7.5.3). Offset 0x08, qword.
    pub id: u64,
    /// The version. Offset 0x10, string.
    pub version: Text,
    /// The voltage (7.5.4). Offset 0x11, byte.
    pub voltage: u8,
    /// The external clock in MHz, or 0 where it is unknown. Offset 0x12, word.
    pub clock: u16,
    /// The greatest speed in MHz that the socket supports, or 0 where it is unknown. Offset 0x14, word.
    pub max_speed: u16,
    /// The speed in MHz at boot. Offset 0x16, word.
    pub speed: u16,
    /// Whether the socket is populated, and the state of its processor (7.5). Offset 0x18, byte.
    pub status: u8,
    /// The socket's form (7.5.5). Offset 0x19, byte.
    pub upgrade: u8,
    /// The handle of its level 1 cache, or 0xFFFF where none is told. Offset 0x1A, word.
    pub l1: u16,
    /// The handle of its level 2 cache, or 0xFFFF where none is told. Offset 0x1C, word.
    pub l2: u16,
    /// The handle of its level 3 cache, or 0xFFFF where none is told. Offset 0x1E, word.
    pub l3: u16,
    /// The serial number. Offset 0x20, string.
    pub serial: Text,
    /// The asset tag. Offset 0x21, string.
    pub asset: Text,
    /// The part number. Offset 0x22, string.
    pub part: Text,
    /// How many cores it has, or 0xFF where the second field tells (7.5.6). Offset 0x23, byte.
    pub cores: u8,
    /// How many of them are enabled, or 0xFF where the second field tells (7.5.7). Offset 0x24, byte.
    pub enabled: u8,
    /// How many threads it has, or 0xFF where the second field tells (7.5.8). Offset 0x25, byte.
    pub threads: u8,
    /// What it supports, a bit each (7.5.9). Offset 0x26, word.
    pub characteristics: u16,
    /// Its family (7.5.2). Offset 0x28, word.
    pub family2: u16,
    /// How many cores it has. Offset 0x2A, word.
    pub cores2: u16,
    /// How many of them are enabled. Offset 0x2C, word.
    pub enabled2: u16,
    /// How many threads it has. Offset 0x2E, word.
    pub threads2: u16,
}

impl Laid for ProcessorInfo {
    const ROWS: u8 = 26;

    ghost ROWS = { 26 };

    ghost fields = { processor_fields };

    ghost made = { processor_in };

    ghost lawful = { λ t u. record { back = refl; shaped = refl; counted = refl; readable = refl } };

    fn put<'a>(&'a self, rows: &mut RowList<'a>) {
        rows.text(&self.designation);
        rows.byte(self.kind);
        rows.byte(self.family);
        rows.text(&self.manufacturer);
        rows.qword(self.id);
        rows.text(&self.version);
        rows.byte(self.voltage);
        rows.word(self.clock);
        rows.word(self.max_speed);
        rows.word(self.speed);
        rows.byte(self.status);
        rows.byte(self.upgrade);
        rows.word(self.l1);
        rows.word(self.l2);
        rows.word(self.l3);
        rows.text(&self.serial);
        rows.text(&self.asset);
        rows.text(&self.part);
        rows.byte(self.cores);
        rows.byte(self.enabled);
        rows.byte(self.threads);
        rows.word(self.characteristics);
        rows.word(self.family2);
        rows.word(self.cores2);
        rows.word(self.enabled2);
        rows.word(self.threads2);
    }

    fn take(values: &mut Values) -> ProcessorInfo {
        ProcessorInfo {
            designation: values.take_text(),
            kind: values.take_byte(),
            family: values.take_byte(),
            manufacturer: values.take_text(),
            id: values.take_qword(),
            version: values.take_text(),
            voltage: values.take_byte(),
            clock: values.take_word(),
            max_speed: values.take_word(),
            speed: values.take_word(),
            status: values.take_byte(),
            upgrade: values.take_byte(),
            l1: values.take_word(),
            l2: values.take_word(),
            l3: values.take_word(),
            serial: values.take_text(),
            asset: values.take_text(),
            part: values.take_text(),
            cores: values.take_byte(),
            enabled: values.take_byte(),
            threads: values.take_byte(),
            characteristics: values.take_word(),
            family2: values.take_word(),
            cores2: values.take_word(),
            enabled2: values.take_word(),
            threads2: values.take_word(),
        }
    }
}

/// Returns the Processor Information of a machine's `socket`, with copies of its texts. Its processor is a central one, of the family
/// "other" and without caches, and is enabled, with all its cores. Returns `OutOfMemory` when memory runs out.
pub fn processor_of(socket: &Socket) -> Result<ProcessorInfo, OutOfMemory>
    ensures { IfOk result (λ info. info ≡ processor_of socket.now) }
{
    let (designation, manufacturer, version) = three_copies_of(
        &socket.designation,
        &socket.manufacturer,
        &socket.version,
    )?;
    let (serial, asset, part) = three_copies_of(&socket.serial, &socket.asset, &socket.part)?;
    Ok(ProcessorInfo {
        designation,
        kind: 3,
        family: 1,
        manufacturer,
        id: 0,
        version,
        voltage: 0,
        clock: 0,
        max_speed: socket.mhz,
        speed: socket.mhz,
        status: 0x41,
        upgrade: 1,
        l1: 0xFFFF,
        l2: 0xFFFF,
        l3: 0xFFFF,
        serial,
        asset,
        part,
        cores: count_byte(socket.cores),
        enabled: count_byte(socket.cores),
        threads: count_byte(socket.threads),
        characteristics: 2,
        family2: 1,
        cores2: socket.cores,
        enabled2: socket.cores,
        threads2: socket.threads,
    })
}

// The byte of a count, which is 0xFF from 255 on (7.5.6 to 7.5.8).
fn count_byte(count: u16) -> u8
    ensures { result ≡ count_byte count }
{
    count.min(0xFF) as u8
}
