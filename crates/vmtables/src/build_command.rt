ghost use Rattle.std.specs.Prelude.{◌≡◌, ◌≢◌, ℕ, List, Err, IfErr, IfOk};
ghost use Rattle.machine_desc.specs.Rules.{IsAccepted};
ghost use Rattle.desc_toml.specs.Reading.{Reads};
ghost use Rattle.vmtables.specs.Build.{IsImage, BuildMakes, CannotBeBuilt};
ghost use Rattle.vmtables.specs.Calls.{ReadsAll, Ran, Seen, Streams};
ghost use Rattle.vmtables.specs.Outcome.{status_of};

use crate::describing::{machine_image, machine_of};
use crate::fault::Fault;
use crate::input::read_to_end;
use crate::writing::write_text;
use cfg_directory::write_image;
use machine_desc::Machine as Described;
use std::alloc::Global;
use vt_outside::{Bytes, Sink, Source};

/// Reads a description, and writes the container of its machine's files.
pub(crate) fn build<S: Source, K: Sink>(
    alloc: Global,
    source: &mut S,
    out: &mut K,
) -> Result<(), Fault>
    ensures ran { (seen : Seen) → Ran (ReadsAll BuildMakes seen seen) result
        (S.seen source.old) (S.seen source.new) (K.seen out.old) (K.seen out.new) }
    ensures known { result ≢ Err Fault.Usage }
    ensures streams { Streams (status_of result)
        (S.seen source.old) (S.seen source.new) (K.seen out.old) (K.seen out.new) }
{
    let bytes = read_to_end(alloc, source)?;
    let text = container_of(alloc, bytes.as_slice())?;
    write_text(text.as_slice(), out)
}

// The container of the files of the machine that a description describes.
fn container_of(alloc: Global, description: &[u8]) -> Result<Bytes, Fault>
    ensures ok { IfOk result (λ text. IsImage description.now text) }
    ensures err { IfErr result (CannotBeBuilt description.now) }
{
    let machine = machine_of(alloc, description)?;
    let container = image_container(alloc, &machine);
    drop(machine);
    container
}

// The container of the files of a machine that is read from these bytes.
fn image_container(alloc: Global, machine: &Described) -> Result<Bytes, Fault>
    requires { IsAccepted machine.now }
    ensures ok { IfOk result (λ text. (bytes : List ℕ) → Reads bytes machine.now → IsImage bytes text) }
    ensures err { IfErr result (λ fault. (bytes : List ℕ) → Reads bytes machine.now → CannotBeBuilt bytes fault) }
{
    let image = machine_image(alloc, machine)?;
    Ok(write_image(alloc, &image.items)?)
}
