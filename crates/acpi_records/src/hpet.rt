ghost use Rattle.std.specs.Prelude.{◌≡◌, refl};
ghost use Rattle.acpi_records.specs.Header.{FitsHead};
ghost use Rattle.acpi_records.specs.Hpet.{hpet_fields, hpet_made, hpet_of, hpet_in};

use crate::generic_address::GenericAddress;
use crate::header::{Head, head_of};
use machine_desc::{Acpi, Hpet};
use vt_layout::{Laid, RowList, Values};

/// The table of a high precision event timer (IA-PC HPET 1.0a, 3.2.4).
#[derive(Clone, Copy, Debug, PartialEq, Eq)]
pub struct HpetTable {
    /// The table's header.
    pub head: Head,
    /// The identifier of the event timer block. Offset 36, dword.
    pub block_id: u32,
    /// Where its registers are. Offset 40, 12 bytes.
    pub address: GenericAddress,
    /// Its number among the HPETs. Offset 52, byte.
    pub number: u8,
    /// The least number of clock ticks between interrupts in periodic mode. Offset 53, word.
    pub min_tick: u16,
}

impl Laid for HpetTable {
    const ROWS: u8 = 18;

    ghost ROWS = { 18 };

    ghost fields = { hpet_fields };

    ghost made = { hpet_made };

    ghost lawful = { λ t u. record { back = refl; shaped = refl; counted = refl; readable = refl } };

    fn put<'a>(&'a self, rows: &mut RowList<'a>) {
        self.head.put(rows);
        rows.dword(self.block_id);
        self.address.put(rows);
        rows.byte(self.number);
        rows.word(self.min_tick);
        rows.reserved(1);
    }

    fn take(values: &mut Values) -> HpetTable {
        let table = HpetTable {
            head: Head::take(values),
            block_id: values.take_dword(),
            address: GenericAddress::take(values),
            number: values.take_byte(),
            min_tick: values.take_word(),
        };
        values.pass();
        table
    }
}

/// Returns the HPET table of a machine's timer `hpet`. `acpi` is the maker; its `oem_id` has at most 6 bytes and its
/// `oem_table_id` at most 8. The timer's registers are in memory, 64 bits wide.
pub fn hpet_of(acpi: &Acpi, hpet: Hpet) -> HpetTable
    requires { FitsHead acpi.now }
    ensures table { result ≡ hpet_of acpi.now hpet }

    // A reader gets the timer back from it.
    ensures back { hpet_in (hpet_of acpi.now hpet) ≡ hpet }
{
    HpetTable {
        head: head_of(acpi, 1),
        block_id: hpet.block_id,
        address: GenericAddress {
            space: 0,
            width: 64,
            offset: 0,
            access: 0,
            address: u64::from(hpet.address),
        },
        number: hpet.number,
        min_tick: hpet.min_tick,
    }
}
