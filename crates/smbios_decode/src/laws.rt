//! Laws over the definitions, each the contract of a function that does nothing.

ghost use Rattle.std.specs.Prelude.{◌≡◌, ℕ, List, Result};
ghost use Rattle.smbios_model.specs.declared.smbios.Structure.{Structure};
ghost use Rattle.smbios_decode.specs.declared.fault.SmbiosFault.{SmbiosFault};
ghost use Rattle.smbios_decode.specs.Faults.{Means};

/// States that bytes are read in one way: they begin with one list of structures, or have one first fault, and not both.
pub fn bytes_are_read_in_one_way()
    ensures { (bytes : List ℕ) (a b : Result (List Structure) SmbiosFault) → Means bytes a → Means bytes b → a ≡ b }
{}
