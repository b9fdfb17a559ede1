ghost use Rattle.std.specs.Prelude.{◌≡◌, ◌≤◌, ◌+◌, ◌-◌, ◌++◌, replicate, true, IfOk};
ghost use Rattle.vt_layout.specs.Rows.{size};
ghost use Rattle.vt_layout.specs.Reading.{row_at, IsNumber, Reach};
ghost use Rattle.acpi_model.specs.FadtKind.{filled_in};
ghost use Rattle.acpi_model.specs.declared.acpi.Table.TheVariants.{Fadt as FadtVariant};
ghost use Rattle.acpi_decode.specs.Seen.{is_ram, bytes_from};
ghost use Rattle.acpi_decode.specs.Read.{links_of_rows};
ghost use Rattle.acpi_decode.specs.ShortFadts.{fadt_at, fadt_front, front_end};

use crate::view::MemView;
use acpi_model::{
    FADT_DSDT_ROW, FADT_FACS_ROW, FADT_X_DSDT_ROW, FADT_X_FACS_ROW, Fadt, FadtLinks, Link,
    register_at,
};
use std::alloc::Global;
use vt_layout::{Row, read_plain, read_u32, read_u64, rows_of};
use vt_outside::OutOfMemory;

// How many bytes an FADT has that is whole (ACPI 6.5, 5.2.9).
const FADT_SIZE: u32 = 276;

// Where its fields end, of which a register's address is one.
const FIELD_ENDS: [u16; 55] = [
    40, 44, 45, 46, 48, 52, 53, 54, 55, 56, 60, 64, 68, 72, 76, 80, 84, 88, 89, 90, 91, 92, 93, 94,
    95, 96, 98, 100, 102, 104, 105, 106, 107, 108, 109, 111, 112, 116, 128, 129, 131, 132, 140,
    148, 160, 172, 184, 196, 208, 220, 232, 244, 256, 268, 276,
];

/// An FADT, and its pointers.
#[derive(Clone, Copy)]
pub(crate) struct FoundFadt {
    pub(crate) fadt: Fadt,
    pub(crate) links: FadtLinks,
}

/// Reads the FADT of `length` bytes at `address`, which must be RAM. What lies behind its last field that is wholly inside them is filled in.
pub(crate) fn read_fadt<V: MemView>(
    alloc: Global,
    view: &V,
    address: u64,
    length: u32,
) -> Result<FoundFadt, OutOfMemory>
    requires long { 36 ≤ length }
    requires ram { is_ram (V.seen view.now) address length ≡ true }
    ensures { IfOk result (λ t. FadtVariant t.fadt t.links ≡ fadt_at (V.seen view.now) address length) }
{
    let size = whole_size(length);
    let bytes = read_padded(view, address, size);
    let fadt: Fadt = read_plain(alloc, &bytes)?;
    let links = links_in(&bytes, rows_of(alloc, &fadt)?.rows());
    Ok(FoundFadt {
        fadt: filled_in(fadt, size),
        links,
    })
}

// Reads the `size` bytes from `address` on, which must be RAM, and puts zeros behind them.
fn read_padded<V: MemView>(view: &V, address: u64, size: u32) -> [u8; FADT_SIZE as usize]
    requires few { size ≤ 276 }
    requires ram { is_ram (V.seen view.now) address size ≡ true }
    ensures { result ≡ bytes_from (V.seen view.now) address size ++ replicate (276 - size) 0 }
{
    let mut bytes = [0; FADT_SIZE as usize];
    view.copy_out(address, &mut bytes[..size as usize]);
    bytes
}

// How many bytes an FADT of `length` bytes has up to the end of its last field that is wholly inside them.
fn whole_size(length: u32) -> u32
    requires long { 36 ≤ length }
    ensures front { result ≡ 36 + size (fadt_front length) }
    ensures within { result ≤ length }
    ensures few { result ≤ 276 }
{
    front_end(&FIELD_ENDS, length)
}

// The last of these ends that is no greater than `length`, and 36 where there is none.
fn front_end(ends: &[u16], length: u32) -> u32
    ensures { result ≡ front_end ends.now length 36 }
{
    let mut end = 36;
    for index in 0..ends.len() {
        let next = u32::from(ends[index]);
        if next > length {
            return end;
        }
        end = next;
    }
    end
}

// An FADT of which there are `size` bytes, with what lies behind them filled in as a machine's is.
fn filled_in(fadt: Fadt, size: u32) -> Fadt
    ensures { result ≡ filled_in size fadt }
{
    let mut fadt = fadt;
    if size < 276 {
        fadt.head.revision = 6;
    }
    if size < 132 {
        fadt.minor = 5;
    }
    if size < 160 {
        fadt.x_pm1a_evt = register_at(32, 2, fadt.pm1a_evt);
    }
    if size < 184 {
        fadt.x_pm1a_cnt = register_at(16, 2, fadt.pm1a_cnt);
    }
    if size < 220 {
        fadt.x_pm_tmr = register_at(32, 3, fadt.pm_tmr);
    }
    if size < 232 {
        fadt.x_gpe0 = register_at(fadt.gpe0_len.saturating_mul(8), 1, fadt.gpe0);
    }
    fadt
}

// Reads the pointers in `bytes`, those of an FADT, at their rows among `rows`.
fn links_in(bytes: &[u8], rows: &[Row]) -> FadtLinks
    requires whole { Reach bytes.now rows.now }
    requires facs { IsNumber 4 (row_at 9 rows.now) }
    requires dsdt { IsNumber 4 (row_at 10 rows.now) }
    requires x_facs { IsNumber 8 (row_at 55 rows.now) }
    requires x_dsdt { IsNumber 8 (row_at 56 rows.now) }
    ensures { result ≡ links_of_rows rows.now bytes.now }
{
    FadtLinks {
        firmware_ctrl: Link::Address(u64::from(read_u32(bytes, rows, FADT_FACS_ROW))),
        dsdt: Link::Address(u64::from(read_u32(bytes, rows, FADT_DSDT_ROW))),
        x_firmware_ctrl: Link::Address(read_u64(bytes, rows, FADT_X_FACS_ROW)),
        x_dsdt: Link::Address(read_u64(bytes, rows, FADT_X_DSDT_ROW)),
    }
}
