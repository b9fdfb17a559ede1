ghost use Rattle.std.specs.Prelude.{◌≡◌, OnOk, OnErr};
ghost use Rattle.vt_outside.specs.Stream.{Took, TookFront};
ghost use Rattle.scan_text.specs.List.{acpi_lines, foreign_dsdt, known_lines, known_tables, length_line, length_lines, line_if_there, oem_line};
ghost use Rattle.scan_text.specs.List.{table_line, unread_lines};

use crate::shown::push_shown;
use crate::writing::write_line;
use acpi_model::{AcpiTables, Dsdt, OtherTable};
use vt_outside::{Failed, Line, Sink, write_all};

/// Writes the lines of `tables` to `out`: the maker's id of the RSDP, a line for each table of a known signature that is there, and
/// then one for each table of which only the length is told; or the line that says that there are no tables. Returns `Failed` when a
/// write fails; `out` then took a part of the lines from their front.
pub(crate) fn write_acpi<K: Sink>(tables: &Option<AcpiTables>, out: &mut K) -> Result<(), Failed>
    ensures ok { OnOk result (Took (acpi_lines tables.now) (K.seen out.old) (K.seen out.new)) }
    ensures front { OnErr result (TookFront (acpi_lines tables.now) (K.seen out.old) (K.seen out.new)) }
{
    match tables {
        Some(tables) => {
            write_line(out, &oem_line(&tables.oem_id))?;
            write_known(&known_tables(tables), out)?;
            write_unread(tables, out)
        }
        None => write_all(out, b"acpi none\n"),
    }
}

fn oem_line(oem_id: &[u8; 6]) -> Line
    ensures { result.bytes ≡ oem_line oem_id.now }
{
    let mut line = Line::new();
    line.push_str("acpi ");
    push_shown(&mut line, oem_id);
    line.push_str("\n");
    line
}

// The signatures that are known, in the order of the list, and whether a table of each is there.
fn known_tables(tables: &AcpiTables) -> [([u8; 4], bool); 9]
    ensures { result ≡ known_tables tables.now }
{
    [
        (*b"XSDT", true),
        (*b"FACP", tables.fadt.is_some()),
        (*b"FACS", tables.facs.is_some()),
        (*b"DSDT", tables.dsdt.is_some()),
        (*b"APIC", tables.madt.is_some()),
        (*b"SRAT", tables.srat.is_some()),
        (*b"SLIT", tables.slit.is_some()),
        (*b"MCFG", tables.mcfg.is_some()),
        (*b"HPET", tables.hpet.is_some()),
    ]
}

fn write_known<K: Sink>(tables: &[([u8; 4], bool)], out: &mut K) -> Result<(), Failed>
    ensures ok { OnOk result (Took (known_lines tables.now) (K.seen out.old) (K.seen out.new)) }
    ensures front { OnErr result (TookFront (known_lines tables.now) (K.seen out.old) (K.seen out.new)) }
{
    for table in tables {
        write_if_there(table, out)?;
    }
    Ok(())
}

fn write_if_there<K: Sink>(table: &([u8; 4], bool), out: &mut K) -> Result<(), Failed>
    ensures ok { OnOk result (Took (line_if_there table.now) (K.seen out.old) (K.seen out.new)) }
    ensures front { OnErr result (TookFront (line_if_there table.now) (K.seen out.old) (K.seen out.new)) }
{
    let (signature, there) = table;
    if *there {
        write_line(out, &table_line(signature))
    } else {
        Ok(())
    }
}

fn table_line(signature: &[u8; 4]) -> Line
    ensures { result.bytes ≡ table_line signature.now }
{
    let mut line = Line::new();
    line.push_str("table ");
    push_shown(&mut line, signature);
    line.push_str("\n");
    line
}

// Writes the lines of the tables of which only the length is told: of a DSDT whose definition block spells no terms, and of the others.
fn write_unread<K: Sink>(tables: &AcpiTables, out: &mut K) -> Result<(), Failed>
    ensures ok { OnOk result (Took (unread_lines tables.now) (K.seen out.old) (K.seen out.new)) }
    ensures front { OnErr result (TookFront (unread_lines tables.now) (K.seen out.old) (K.seen out.new)) }
{
    write_foreign(&tables.dsdt, out)?;
    write_lengths(tables.others.as_slice(), out)
}

fn write_foreign<K: Sink>(dsdt: &Option<Dsdt>, out: &mut K) -> Result<(), Failed>
    ensures ok { OnOk result (Took (length_lines (foreign_dsdt dsdt.now)) (K.seen out.old) (K.seen out.new)) }
    ensures front { OnErr result (TookFront (length_lines (foreign_dsdt dsdt.now)) (K.seen out.old) (K.seen out.new)) }
{
    match dsdt {
        Some(Dsdt::Foreign { length, .. }) => {
            let signature = *b"DSDT";
            write_lengths(
                &[OtherTable {
                    signature,
                    length: *length,
                }],
                out,
            )
        }
        Some(Dsdt::Terms { .. }) => Ok(()),
        None => Ok(()),
    }
}

fn write_lengths<K: Sink>(tables: &[OtherTable], out: &mut K) -> Result<(), Failed>
    ensures ok { OnOk result (Took (length_lines tables.now) (K.seen out.old) (K.seen out.new)) }
    ensures front { OnErr result (TookFront (length_lines tables.now) (K.seen out.old) (K.seen out.new)) }
{
    for table in tables {
        write_line(out, &length_line(table))?;
    }
    Ok(())
}

fn length_line(table: &OtherTable) -> Line
    ensures { result.bytes ≡ length_line table.now }
{
    let mut decimal = itoa::Buffer::new();
    let mut line = Line::new();
    line.push_str("table ");
    push_shown(&mut line, &table.signature);
    line.push_str(" length ");
    line.push_str(decimal.format(table.length));
    line.push_str("\n");
    line
}
