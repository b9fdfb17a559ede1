//! The names that QEMU gives the files of SMBIOS structures (hw/smbios/smbios.c).

ghost use Rattle.std.specs.Prelude.{◌≡◌};
ghost use Rattle.cfg_directory.specs.SmbiosNames.{anchor_name, structures_name};

use vt_outside::Name;

/// Returns the name of the file of the SMBIOS anchor, `etc/smbios/smbios-anchor`.
pub fn anchor_name() -> Name
    ensures { result ≡ anchor_name }
{
    Name::of("etc/smbios/smbios-anchor").unwrap()
}

/// Returns the name of the file of the SMBIOS structures, `etc/smbios/smbios-tables`.
pub fn structures_name() -> Name
    ensures { result ≡ structures_name }
{
    Name::of("etc/smbios/smbios-tables").unwrap()
}
