ghost use Rattle.std.specs.Prelude.{◌≡◌, ◌<◌, ◌≤◌, IfOk, IfErr, OnOk};
ghost use Rattle.machine_desc.specs.Rules.{IsAccepted};
ghost use Rattle.cfg_directory.specs.Items.{total_size};
ghost use Rattle.image_files.specs.Items.{image_limit};
ghost use Rattle.image_files.specs.declared.image.ImageBuildFault.TheVariants.{ImageTooLarge};
ghost use Rattle.vm_image.specs.Image.{image_items};
ghost use Rattle.vm_image.specs.Built.{IsBuilt};

use crate::acpi::push_acpi;
use crate::generation::{link_telling, push_generation};
use crate::smbios::push_smbios;
use image_files::{Image, ImageBuildFault};
use machine_desc::Machine;
use machine_desc::laws::numbers_of_a_machine_fit;
use std::alloc::Global;

/// Builds the image of `machine`, which is accepted: its files, and the script that places and links them, in memory from
/// `alloc`. `order` is 0, which stands for the only order of commands. Returns `ImageTooLarge` where the files, with that of the
/// script, have more than 409,600 bytes in all, and `OutOfMemory` when memory runs out.
pub fn image_of(alloc: Global, machine: &Machine, order: u64) -> Result<Image, ImageBuildFault>
    requires accepted { IsAccepted machine.now }
    requires order { order ≡ 0 }

    // It is the machine's image, whose script runs, and whose memory shows the machine, wherever its files come to stand.
    ensures built { IfOk result (λ image. IsBuilt machine.now image.items image.script) }

    // It is given only where its files are few bytes, and refused as too large only where they aren't.
    ensures small { OnOk result (total_size (image_items machine.now) ≤ image_limit) }
    ensures large { IfErr result (λ fault. fault ≡ ImageTooLarge → image_limit < total_size (image_items machine.now)) }
{
    let _ = order;
    numbers_of_a_machine_fit(machine);
    let mut files = Vec::new(alloc);
    push_acpi(alloc, &mut files, machine)?;
    push_smbios(alloc, &mut files, machine)?;
    push_generation(alloc, &mut files, machine.generation)?;
    link_telling(alloc, files, machine.generation)
}
