ghost use Rattle.std.specs.Prelude.{◌≡◌};
ghost use Rattle.acpi_model.specs.MachineMcfg.{ecam_in};

use acpi_model::Mcfg;

/// Returns the guest address of a bridge's configuration space in memory: that of the first allocation of `mcfg`, and 0 where there is none
/// (PCI Firmware Specification 3.3, 4.1.2).
pub fn ecam_in(mcfg: &Option<Mcfg>) -> u64
    ensures { result ≡ ecam_in mcfg.now }
{
    match mcfg {
        Some(mcfg) => match mcfg.allocations.as_slice().first() {
            Some(allocation) => allocation.base,
            None => 0,
        },
        None => 0,
    }
}
