ghost use Rattle.std.specs.Prelude.{◌≡◌, IfOk};
ghost use Rattle.acpi_records.specs.Header.{FitsHead};
ghost use Rattle.acpi_model.specs.MachineMcfg.{mcfg_of_bridge};

use acpi_records::{Mcfg, McfgAllocation, head_of};
use machine_desc::{Acpi, Bridge};
use std::alloc::Global;
use vt_outside::{List, OutOfMemory};

/// Returns the MCFG of a machine with `bridge` (PCI Firmware Specification 3.3, 4.1.2): one allocation, of all its buses, in segment group 0.
/// `acpi` is the maker; its `oem_id` has at most 6 bytes and its `oem_table_id` at most 8. The list takes its memory from `alloc`. Returns
/// `OutOfMemory` when memory runs out.
pub fn mcfg_of_bridge(alloc: Global, acpi: &Acpi, bridge: &Bridge) -> Result<Mcfg, OutOfMemory>
    requires { FitsHead acpi.now }
    ensures { IfOk result (λ mcfg. mcfg ≡ mcfg_of_bridge acpi.now bridge.now) }
{
    let mut allocations = List::new(alloc);
    allocations.push(McfgAllocation {
        base: bridge.ecam,
        segment: 0,
        last_bus: bridge.last_bus,
    })?;
    Ok(Mcfg {
        head: head_of(acpi, 1),
        allocations,
    })
}
