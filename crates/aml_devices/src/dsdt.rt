ghost use Rattle.std.specs.Prelude.{◌≡◌, ◌<◌, ◌^◌, length, IfOk, OnOk, IsSome, IsSomeAnd};
ghost use Rattle.machine_desc.specs.Rules.{IsAccepted};
ghost use Rattle.dsdt_terms.specs.Dsdt.{dsdt_bytes, dsdt_body};
ghost use Rattle.blob_holes.specs.Blob.{next_place};
ghost use Rattle.acpi_append.specs.DsdtPut.{IsDsdtPut};
ghost use Rattle.aml_devices.specs.MachineDsdt.{IsMachineDsdtPut};

use crate::generation::generation_name;
use acpi_append::put_dsdt;
use acpi_model::{Head, head_of};
use aml_encode::{TermFault, encode_terms};
use blob_holes::{Blob, Part};
use dsdt_terms::{ID_OFFSET, dsdt_terms};
use machine_desc::Machine;
use machine_desc::laws::numbers_of_a_machine_fit;
use std::alloc::Global;
use vt_outside::{Bytes, OutOfMemory};

// How many bytes the address of the id is written as, at the end of the block: a dword and a byte.
const ADDRESS_BYTES: usize = 5;

/// Appends the DSDT of `machine`, which is accepted and has power management, to `blob` at the next multiple of 16, and returns its offset
/// in bytes. Where the machine has an id of its generation, the DSDT has a pointer to it: the place of the file with the id is to be added.
/// `blob` has less than 2 GiB before. Returns `OutOfMemory` when memory runs out; what `blob` then holds is unspecified.
pub fn append_dsdt(blob: &mut Blob, machine: &Machine) -> Result<u32, OutOfMemory>
    requires accepted { IsAccepted machine.now }
    requires wanted { IsSome machine.now.power }
    requires short { length blob.old.bytes < 2 ^ 31 }

    // Where the DSDT is in the file.
    ensures place { IfOk result (λ place. place ≡ next_place 16 blob.old) }

    // What the file then is, exactly; that it has only grown, and can be linked as before; and that wherever a view holds it with its
    // holes filled, the machine's DSDT stands at its place, as the terms of its devices. Where the machine has an id of its generation,
    // the first number of `ADDR` in `VGEN` is then the one in the hole: the address of the id, which is 40 more than the place of its
    // file. That is said of an address below 4 GiB, and of a view that shows bytes alone, as a memory does.
    ensures put { OnOk result (IsSomeAnd machine.now.acpi (λ acpi. IsMachineDsdtPut blob.old blob.new acpi machine.now)) }
{
    let Some(acpi) = &machine.acpi else {
        unreachable!()
    };
    numbers_of_a_machine_fit(machine);
    let block = block_of(blob.alloc(), machine)?;
    put_block(blob, &head_of(acpi, 2), block.as_slice(), machine)
}

// The definition block of an accepted machine: its terms as bytes, none of which is too long.
fn block_of(alloc: Global, machine: &Machine) -> Result<Bytes, OutOfMemory>
    requires { IsAccepted machine.now }
    ensures { IfOk result (λ bytes. bytes ≡ dsdt_bytes machine.now) }
{
    let terms = dsdt_terms(alloc, machine)?;
    let mut bytes = Bytes::new(alloc);
    match encode_terms(terms.as_slice(), &mut bytes) {
        Ok(()) => Ok(bytes),
        Err(TermFault::OutOfMemory) => Err(OutOfMemory),
        Err(TermFault::TermTooLong) => unreachable!(),
    }
}

// Appends the DSDT with the header `head` and that block, which ends in the address of the id where there is one: a pointer's hole, and a
// zero.
fn put_block(
    blob: &mut Blob,
    head: &Head,
    block: &[u8],
    machine: &Machine,
) -> Result<u32, OutOfMemory>
    requires accepted { IsAccepted machine.now }
    requires block { block.now ≡ dsdt_bytes machine.now }
    requires short { length blob.old.bytes < 2 ^ 31 }
    ensures place { IfOk result (λ place. place ≡ next_place 16 blob.old) }
    ensures put { OnOk result (IsDsdtPut blob.old blob.new head.now (dsdt_body machine.now)) }
{
    match machine.generation {
        None => put_dsdt(blob, head, &[Part::Bytes(block)]),
        Some(_) => {
            let front = &block[..block.len() - ADDRESS_BYTES];
            let pointer = Part::Pointer {
                target: generation_name(),
                offset: ID_OFFSET,
            };
            put_dsdt(
                blob,
                head,
                &[Part::Bytes(front), pointer, Part::Bytes(&[0])],
            )
        }
    }
}
