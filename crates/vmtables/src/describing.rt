//! A machine of a description, and its image.

ghost use Rattle.std.specs.Prelude.{◌≤◌, IfErr, IfOk, OnOk};
ghost use Rattle.cfg_directory.specs.Items.{total_size};
ghost use Rattle.desc_toml.specs.Reading.{Reads};
ghost use Rattle.image_files.specs.Items.{image_limit};
ghost use Rattle.machine_desc.specs.Rules.{IsAccepted};
ghost use Rattle.vm_image.specs.Built.{IsBuilt};
ghost use Rattle.vm_image.specs.Image.{image_items};
ghost use Rattle.vmtables.specs.Described.{CannotBeDescribed, HasNoImage};

use crate::fault::Fault;
use desc_toml::read_machine;
use machine_desc::Machine;
use std::alloc::Global;
use vm_image::{Image, image_of};

/// Reads a description as a machine.
pub(crate) fn machine_of(alloc: Global, description: &[u8]) -> Result<Machine, Fault>
    ensures ok { IfOk result (Reads description.now) }
    ensures err { IfErr result (CannotBeDescribed description.now) }
{
    Ok(read_machine(alloc, description)?)
}

/// Builds the image of a machine.
pub(crate) fn machine_image(alloc: Global, machine: &Machine) -> Result<Image, Fault>
    requires { IsAccepted machine.now }
    ensures built { IfOk result (λ image. IsBuilt machine.now image.items image.script) }
    ensures small { OnOk result (total_size (image_items machine.now) ≤ image_limit) }
    ensures err { IfErr result (HasNoImage machine.now) }
{
    Ok(image_of(alloc, machine, 0)?)
}
