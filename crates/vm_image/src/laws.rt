//! Laws of a machine's image. Each is the contract of a function that does nothing.

ghost use Rattle.std.specs.Prelude.{◌≡◌, ℕ, ◌+◌, ◌%◌, List, [], IsSome};
ghost use Rattle.loader_script.specs.Run.{Placed, place_of};
ghost use Rattle.acpi_model.specs.Kinds.{tables_name};
ghost use Rattle.acpi_model.specs.Acpi.{facs_place};
ghost use Rattle.image_files.specs.Places.{ArePlaces};
ghost use Rattle.image_files.specs.Linked.{AreLinked};
ghost use Rattle.loader_script.specs.declared.entry.Entry.{Entry};
ghost use Rattle.cfg_directory.specs.declared.item.Item.{Item};
ghost use Rattle.machine_desc.specs.declared.machine.Machine.{Machine};
ghost use Rattle.machine_desc.specs.Rules.{IsAccepted};
ghost use Rattle.machine_desc.specs.Fields.{HasFittingFields};
ghost use Rattle.vm_image.specs.Image.{image_files, image_items, image_script};
ghost use Rattle.vm_image.specs.Built.{IsBuilt};
ghost use Rattle.vm_image.specs.Promised.{top_of, AreShownAlike};

/// Says that exactly one image is that of an accepted machine whose numbers fit their fields.
pub fn a_machine_has_one_image()
    ensures built { (m : Machine) → IsAccepted m → HasFittingFields m → IsBuilt m (image_items m) (image_script m) }
    ensures only { (m : Machine) (items : List Item) (script : List Entry) → IsBuilt m items script
        → (items ≡ image_items m) × (script ≡ image_script m) }
{}

/// Says that two memories that agree on the BIOS area and on the files of a machine's image, wherever these come to stand, both show
/// exactly the machine, where one of them holds the files: whatever the fill byte of the other is, and whatever lies elsewhere.
pub fn memories_that_agree_show_the_same()
    ensures { (m : Machine) (items : List Item) (script : List Entry) → IsBuilt m items script → AreShownAlike m }
{}

/// Says that the FACS of an accepted machine with power management stands at a multiple of 64 wherever the machine's files may stand, as
/// it has to (ACPI 6.5, 5.2.10).
pub fn facs_stands_at_a_multiple_of_64()
    ensures { (m : Machine) → IsAccepted m → IsSome m.power → (places : List ℕ) (placed : List Placed) → ArePlaces (top_of m) [] (image_files m) places
        → AreLinked (place_of placed) (image_files m) places placed → (place_of placed tables_name + facs_place) % 64 ≡ 0 }
{}
