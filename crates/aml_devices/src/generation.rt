//! The file to which a machine's DSDT leads.

ghost use Rattle.std.specs.Prelude.{◌≡◌};
ghost use Rattle.dsdt_terms.specs.Dsdt.{generation_file};

use vt_outside::Name;

/// The name of the file of fw_cfg that holds the id of a machine's generation. The pointer to the id has its place added.
pub const GENERATION_FILE: &str = "etc/vmgenid_guid";

/// Returns that name as one of a file of fw_cfg.
pub fn generation_name() -> Name
    ensures { result ≡ generation_file }
{
    Name::of(GENERATION_FILE).unwrap()
}
