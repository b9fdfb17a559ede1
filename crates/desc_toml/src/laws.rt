//! Laws of what bytes are read as. Each is the contract of a function that does nothing.

ghost use Rattle.std.specs.Prelude.{◌≡◌, None, Some, ◌↔◌, ℕ, List};
ghost use Rattle.std.specs.Str.{IsUtf8};
ghost use Rattle.vt_outside.specs.Readings.{IsFaultOf};
ghost use Rattle.toml.specs.Parse.{parse_document};
ghost use Rattle.machine_desc.specs.declared.machine.Machine.{Machine};
ghost use Rattle.machine_desc.specs.Rules.{IsAccepted, HasFittingUuids};
ghost use Rattle.machine_desc.specs.Fields.{HasFittingFields};
ghost use Rattle.desc_toml.specs.Reading.{Reads, read_of, fault_of, reported};
ghost use Rattle.desc_toml.specs.declared.fault.DescFault.{DescFault};
ghost use Rattle.desc_toml.specs.declared.fault.DescFault.TheVariants.{OutOfMemory};
ghost use Rattle.desc_schema.specs.Names.{NumbersAscend, NumbersAreNames};
ghost use Rattle.desc_toml.specs.Keys.{schema};
ghost use Rattle.desc_toml.specs.Printed.{document_of};
ghost use Rattle.desc_toml.specs.Tables.{Describes};

/// Says that at most one machine is read from given bytes.
pub fn one_machine_is_read()
    ensures { (bytes : List ℕ) (a b : Machine) → Reads bytes a → Reads bytes b → a ≡ b }
{}

/// Says that a machine that is read keeps every rule.
pub fn read_machine_is_accepted()
    ensures { (bytes : List ℕ) (machine : Machine) → Reads bytes machine → IsAccepted machine }
{}

/// Says that the numbers of a machine that is read fit their fields, its UUIDs among them.
pub fn numbers_of_a_read_machine_fit()
    ensures fields { (bytes : List ℕ) (machine : Machine) → Reads bytes machine → HasFittingFields machine }
    ensures uuids { (bytes : List ℕ) (machine : Machine) → Reads bytes machine → HasFittingUuids machine }
{}

/// Says that a machine is read from bytes exactly where they are a document whose tables say, key by key by the schema, the values
/// that the machine is made of, and the machine keeps every rule.
pub fn machine_is_read_as_the_tables_say()
    ensures { (bytes : List ℕ) (machine : Machine) → Reads bytes machine ↔ Describes bytes machine }
{}

/// Says that what the reader tells, unless memory ran out, is the fault of the bytes, and that bytes that are read have none.
pub fn told_fault_is_of_the_bytes()
    ensures told { (bytes : List ℕ) (fault : DescFault) → IsFaultOf (reported fault) (read_of bytes) → ¬ (fault ≡ OutOfMemory) → fault_of bytes ≡ Some fault }
    ensures none { (bytes : List ℕ) (machine : Machine) → Reads bytes machine → fault_of bytes ≡ None }
{}

/// Says that a fault's number of a key is of that key alone: in each table the numbers of the keys ascend, and a line names the key that has
/// the number.
pub fn keys_are_named_by_their_numbers()
    ensures ascend { NumbersAscend schema }
    ensures named { NumbersAreNames schema }
{}

/// Says that a machine is read from each text of the document that it is printed as: the machine is accepted, and its numbers fit their
/// fields, as those of each machine of the program do.
pub fn a_printed_machine_is_read_again()
    ensures { (m : Machine) → IsAccepted m → HasFittingFields m → (text : List ℕ) → IsUtf8 text → parse_document text ≡ Some (document_of m)
        → Reads text m }
{}
