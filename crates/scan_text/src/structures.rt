ghost use Rattle.std.specs.Prelude.{◌≡◌, OnOk, OnErr};
ghost use Rattle.vt_outside.specs.Stream.{Took, TookFront};
ghost use Rattle.scan_text.specs.List.{smbios_lines, structure_line, structure_lines, table_head_line};

use crate::digits::push_digits;
use crate::writing::write_line;
use smbios_model::{SmbiosTable, Structure};
use vt_outside::{Failed, Line, Sink, write_all};

/// Writes the lines of `table` to `out`: its version and the number of its structures, and each structure in its order; or the line
/// that says that there is no table. Returns `Failed` when a write fails; `out` then took a part of the lines from their front.
pub(crate) fn write_smbios<K: Sink>(table: &Option<SmbiosTable>, out: &mut K) -> Result<(), Failed>
    ensures ok { OnOk result (Took (smbios_lines table.now) (K.seen out.old) (K.seen out.new)) }
    ensures front { OnErr result (TookFront (smbios_lines table.now) (K.seen out.old) (K.seen out.new)) }
{
    match table {
        Some(table) => {
            write_line(out, &table_head_line(table))?;
            write_structures(table.structures.as_slice(), out)
        }
        None => write_all(out, b"smbios none\n"),
    }
}

fn table_head_line(table: &SmbiosTable) -> Line
    ensures { result.bytes ≡ table_head_line table.now }
{
    let mut decimal = itoa::Buffer::new();
    let mut line = Line::new();
    line.push_str("smbios ");
    line.push_str(decimal.format(table.major));
    line.push_str(".");
    line.push_str(decimal.format(table.minor));
    line.push_str(".");
    line.push_str(decimal.format(table.docrev));
    line.push_str(" structures ");
    line.push_str(decimal.format(table.structures.len()));
    line.push_str("\n");
    line
}

fn write_structures<K: Sink>(structures: &[Structure], out: &mut K) -> Result<(), Failed>
    ensures ok { OnOk result (Took (structure_lines structures.now) (K.seen out.old) (K.seen out.new)) }
    ensures front { OnErr result (TookFront (structure_lines structures.now) (K.seen out.old) (K.seen out.new)) }
{
    for structure in structures {
        write_line(out, &structure_line(structure))?;
    }
    Ok(())
}

fn structure_line(structure: &Structure) -> Line
    ensures { result.bytes ≡ structure_line structure.now }
{
    let mut decimal = itoa::Buffer::new();
    let mut line = Line::new();
    line.push_str("type ");
    line.push_str(decimal.format(structure.body.number()));
    line.push_str(" handle ");
    push_digits(&mut line, &structure.handle.to_be_bytes());
    line.push_str("\n");
    line
}
