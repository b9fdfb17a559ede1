//! The names of an image's files in the directory of fw_cfg.

ghost use Rattle.std.specs.Prelude.{◌≡◌};
ghost use Rattle.vm_image.specs.Image.{rsdp_name, address_name};
ghost use Rattle.acpi_model.specs.Kinds.{tables_name as acpi_tables_name};

use acpi_append::TABLES_FILE;
use vt_outside::Name;

/// Returns the name of the file of the RSDP.
pub(crate) fn rsdp_name() -> Name
    ensures { result ≡ rsdp_name }
{
    Name::of("etc/acpi/rsdp").unwrap()
}

/// Returns the name of the file into which the firmware writes where the id of the generation is.
pub(crate) fn address_name() -> Name
    ensures { result ≡ address_name }
{
    Name::of("etc/vmgenid_addr").unwrap()
}

/// Returns the name of the file of the XSDT and the tables that it names.
pub(crate) fn acpi_tables_name() -> Name
    ensures { result ≡ acpi_tables_name }
{
    Name::of(TABLES_FILE).unwrap()
}
