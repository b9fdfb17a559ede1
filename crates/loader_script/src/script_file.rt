ghost use Rattle.std.specs.Prelude.{◌≡◌};
ghost use Rattle.loader_script.specs.LoaderName.{loader_name};

use vt_outside::Name;

/// Returns the name of a script's file, `etc/table-loader` (QEMU, hw/acpi/bios-linker-loader.c).
pub fn loader_name() -> Name
    ensures { result ≡ loader_name }
{
    Name::of("etc/table-loader").unwrap()
}
