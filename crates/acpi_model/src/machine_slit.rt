ghost use Rattle.std.specs.Prelude.{◌≡◌, IfOk};
ghost use Rattle.acpi_records.specs.Header.{FitsHead};
ghost use Rattle.acpi_model.specs.MachineSlit.{slit_of_machine};

use acpi_records::{Slit, head_of};
use machine_desc::{Acpi, Numa};
use std::alloc::Global;
use vt_outside::{Bytes, OutOfMemory};

/// Returns the SLIT of a machine with the nodes `numa` (ACPI 6.5, 5.2.17). `acpi` is the maker; its `oem_id` has at most 6 bytes and its
/// `oem_table_id` at most 8. The distances take their memory from `alloc`. Returns `OutOfMemory` when memory runs out.
pub fn slit_of_machine(alloc: Global, acpi: &Acpi, numa: &Numa) -> Result<Slit, OutOfMemory>
    requires { FitsHead acpi.now }
    ensures { IfOk result (λ slit. slit ≡ slit_of_machine acpi.now numa.now) }
{
    let mut distances = Bytes::new(alloc);
    distances.extend(numa.distance.as_slice())?;
    Ok(Slit {
        head: head_of(acpi, 1),
        count: u64::from(numa.nodes),
        distances,
    })
}
