//! Laws over the definitions, each the contract of a function that does nothing.

ghost use Rattle.std.specs.Prelude.{◌≡◌, ℕ, ◌≤◌, List, ◌++◌, length, slice_get, Some};
ghost use Rattle.std.specs.List.{AllByRecursion};
ghost use Rattle.machine_desc.specs.declared.machine.Machine.{Machine};
ghost use Rattle.machine_desc.specs.Rules.{IsAccepted};
ghost use Rattle.machine_desc.specs.Fields.{HasFittingFields};
ghost use Rattle.smbios_model.specs.declared.smbios.Structure.{Structure};
ghost use Rattle.smbios_model.specs.MachineStructures.{structures_of};
ghost use Rattle.smbios_model.specs.Smbios.{AreStructures};
ghost use Rattle.smbios_build.specs.Spelling.{structures_bytes};
ghost use Rattle.smbios_build.specs.Buildable.{AreBuildable, HasFittingNumbers};

/// States that a reader finds structures, whose numbers fit their fields, in the bytes that they are written as.
pub fn written_structures_are_read()
    ensures { (structures : List Structure) → AreBuildable structures → AllByRecursion HasFittingNumbers structures
        → AreStructures (structures_bytes structures) structures }
{}

/// States that the bytes of structures don't begin with those of others, whatever follows either.
pub fn no_spelling_is_a_prefix_of_another()
    ensures { (a b : List Structure) (x y : List ℕ) → AreBuildable a → AreBuildable b → AllByRecursion HasFittingNumbers a
        → AllByRecursion HasFittingNumbers b → structures_bytes a ++ x ≡ structures_bytes b ++ y → a ≡ b }
{}

/// States that the structures of an accepted machine can be built.
pub fn accepted_structures_are_buildable()
    ensures { (m : Machine) → IsAccepted m → AreBuildable (structures_of m) }
{}

/// States that the structures of an accepted machine are small. One with as much as can be described has 256 processors of at
/// most 439 bytes, 256 memory devices of at most 431, 64 slots of at most 83, 64 address ranges of 33, 32 texts of its maker of
/// at most 65, and less than 2,000 bytes more.
pub fn accepted_structures_are_small()
    ensures { (m : Machine) → IsAccepted m → length (structures_bytes (structures_of m)) ≤ 0x40000 }
{}

/// States that no two structures of an accepted machine have the same handle.
pub fn handles_of_a_machine_differ()
    ensures { (m : Machine) (i j : ℕ) (s t : Structure) → IsAccepted m → slice_get (structures_of m) i ≡ Some s
        → slice_get (structures_of m) j ≡ Some t → s.handle ≡ t.handle → i ≡ j }
{}

/// States that the numbers of an accepted machine's structures fit their fields, where those of the machine do, and that a reader finds
/// the structures in their bytes.
pub fn accepted_structures_are_read()
    ensures fit { (m : Machine) → IsAccepted m → HasFittingFields m → AllByRecursion HasFittingNumbers (structures_of m) }
    ensures read { (m : Machine) → IsAccepted m → HasFittingFields m → AreStructures (structures_bytes (structures_of m)) (structures_of m) }
{}
