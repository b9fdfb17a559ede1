ghost use Rattle.std.specs.Prelude.{◌≡◌, [], length, Ok, Err, IfOk, IfErr};
ghost use Rattle.vt_layout.specs.Reading.{read_number, read_name};
ghost use Rattle.cfg_directory.specs.Items.{entry_rows};

use crate::directory::entry_rows;
use vt_layout::{blank_name, read_name, read_u16, read_u32};
use vt_outside::{Name, NameFault};

/// What an entry of the directory says of a file.
#[derive(Clone, Copy, Debug)]
pub struct Listed {
    /// The file's name.
    pub name: Name,
    /// The number that selects it.
    pub select: u16,
    /// How many bytes it holds.
    pub size: u32,
}

impl Listed {
    /// Reads what an entry, of 64 bytes, says. It fails where its name is none.
    pub(crate) fn read(entry: &[u8]) -> Result<Listed, NameFault>
        requires { length entry.now ≡ 64 }
        ensures size { IfOk result (λ listed. read_number 0 (entry_rows 0 0 []) entry.now ≡ listed.size) }
        ensures select { IfOk result (λ listed. read_number 1 (entry_rows 0 0 []) entry.now ≡ listed.select) }
        ensures name { IfOk result (λ listed. read_name 3 (entry_rows 0 0 []) entry.now ≡ Ok listed.name) }
        ensures err { IfErr result (λ fault. read_name 3 (entry_rows 0 0 []) entry.now ≡ Err fault) }
    {
        let rows = entry_rows(0, 0, &blank_name());
        let name = read_name(entry, &rows, 3)?;
        let size = read_u32(entry, &rows, 0);
        let select = read_u16(entry, &rows, 1);
        Ok(Listed { name, select, size })
    }
}
