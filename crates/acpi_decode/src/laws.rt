//! Laws over the definitions, each the contract of a function that does nothing.

ghost use Rattle.std.specs.Prelude.{◌≡◌, ◌⊎◌, ℕ, List, Result};
ghost use Rattle.vt_bytes.specs.View.{View};
ghost use Rattle.acpi_model.specs.declared.form.Form.{Form};
ghost use Rattle.acpi_model.specs.declared.acpi.Table.{Table};
ghost use Rattle.acpi_model.specs.Rsdp.{HasRsdpBy};
ghost use Rattle.acpi_model.specs.Acpi.{IsFoundBehindBy};
ghost use Rattle.acpi_decode.specs.declared.fault.AcpiFault.{AcpiFault};
ghost use Rattle.acpi_decode.specs.declared.walked.Walked.{Walked};
ghost use Rattle.acpi_decode.specs.Faults.{IsFault, IsWalkedBy, FirstBy, MeansBy};

/// States that the table at an address, behind those that were found before it, is found or has a fault, never both, and one fault.
pub fn table_is_found_or_at_fault()
    ensures either { (form : Form) (view : View) (address : ℕ) (before : List Table)
        → IsFoundBehindBy form view address before ⊎ ((fault : AcpiFault) × IsFault form view address before fault) }
    ensures not_both { (form : Form) (view : View) (address : ℕ) (before : List Table) (fault : AcpiFault) → IsFoundBehindBy form view address before
        → IsFault form view address before fault → ⊥ }
    ensures one { (form : Form) (view : View) (address : ℕ) (before : List Table) (fault other : AcpiFault) → IsFault form view address before fault
        → IsFault form view address before other → fault ≡ other }
{}

/// States that a memory is read in one way from a valid RSDP on: tables are shown, or there is a first fault, never both, and one of them.
pub fn memory_is_read_in_one_way()
    ensures either { (form : Form) (view : View) (rsdp : ℕ) → HasRsdpBy form view rsdp
        → ((walked : Walked) × IsWalkedBy form view rsdp walked) ⊎ ((fault : AcpiFault) × FirstBy form view rsdp fault) }
    ensures one { (form : Form) (view : View) (rsdp : ℕ) (a b : Result Walked AcpiFault) → MeansBy form view rsdp a → MeansBy form view rsdp b → a ≡ b }
{}
