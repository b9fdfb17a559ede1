ghost use Rattle.std.specs.Prelude.{◌≡◌};
ghost use Rattle.vt_outside.specs.Name.{IsName};
ghost use Rattle.vt_layout.specs.declared.row.Row.TheVariants.{Named};

use crate::row::Row;
use vt_outside::Name;

impl Row {
    /// Makes the row of 56 bytes that holds `name`.
    pub fn of_name(name: &Name) -> Row
        ensures row { result ≡ Named name.now }
        ensures name { IsName name.now }
    {
        // That a name is one is said of its bytes.
        let _field = name.bytes();
        Row::Named(*name)
    }
}
