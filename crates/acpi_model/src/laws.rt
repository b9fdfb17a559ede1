//! Laws over the definitions, each the contract of a function that does nothing.

ghost use Rattle.std.specs.Prelude.{◌≡◌, ℕ, ◌+◌, ◌<◌, ◌≤◌, List, [], ◌∷◌, ◌++◌, length, map, true, not, codes, Option, Some, None, is_some, IsSome, IfSome};
ghost use Rattle.std.specs.List.{AllByRecursion};
ghost use Rattle.vt_bytes.specs.View.{View};
ghost use Rattle.vt_layout.specs.declared.row.Row.TheVariants.{Pointer};
ghost use Rattle.vt_layout.specs.Rows.{IsRow, linked, spelled};
ghost use Rattle.vt_layout.specs.Entries.{entries_rows};
ghost use Rattle.vt_layout.specs.Shown.{LayoutHeld};
ghost use Rattle.machine_desc.specs.declared.machine.Machine.{Machine};
ghost use Rattle.machine_desc.specs.declared.machine.Acpi.{Acpi};
ghost use Rattle.machine_desc.specs.declared.acpi_parts.Apic.{Apic};
ghost use Rattle.machine_desc.specs.Rules.{is_padded_text, apic_id, IsAccepted};
ghost use Rattle.machine_desc.specs.Fields.{HasFittingFields};
ghost use Rattle.dsdt_terms.specs.Dsdt.{id_address};
ghost use Rattle.acpi_records.specs.declared.header.Head.{Head};
ghost use Rattle.acpi_model.specs.declared.form.Form.{Form};
ghost use Rattle.acpi_model.specs.Form.{xsdt_form};
ghost use Rattle.acpi_model.specs.FadtKind.{fadt_shape, fadt_shape_in};
ghost use Rattle.acpi_model.specs.declared.acpi.AcpiTables.{AcpiTables};
ghost use Rattle.acpi_model.specs.declared.acpi.FadtTargets.{FadtTargets};
ghost use Rattle.acpi_model.specs.declared.acpi.OtherTable.{OtherTable};
ghost use Rattle.acpi_model.specs.declared.acpi.Table.{Table};
ghost use Rattle.acpi_records.specs.Header.{head_of, padded, FitsHead};
ghost use Rattle.acpi_model.specs.Maker.{acpi_in};
ghost use Rattle.acpi_model.specs.Acpi.{IsAt, IsAtBy, IsOther, IsWritable, CanBePut, rows_of, linked_table, signature_of, Walks, AreAt, AreDistinct};
ghost use Rattle.acpi_model.specs.Acpi.{bytes_behind, first_with, first_links, gathered, facs_place, tables_of, targets_of, acpi_of};
ghost use Rattle.acpi_model.specs.Acpi.{dsdt_place, dsdt_at, HasIdAt, no_targets, AreFoundBy, AreToldBy, is_first, TableLeadsTo, IsFoundBehindBy};
ghost use Rattle.acpi_model.specs.Acpi.{with_table, id_with, with_other};
ghost use Rattle.acpi_model.specs.Kinds.{tables_name};
ghost use Rattle.acpi_records.specs.Facs.{IsFacs};
ghost use Rattle.acpi_model.specs.declared.dsdt.Dsdt.{Dsdt};
ghost use Rattle.acpi_model.specs.declared.dsdt.Dsdt.TheVariants.{Terms};
ghost use Rattle.acpi_model.specs.Found.{IsDsdt, IsBlockRow, IsSpelledIn, dsdt_rows, LeadTo};
ghost use Rattle.aml_terms.specs.declared.term.Term.{Term};
ghost use Rattle.aml_terms.specs.Trees.{views};
ghost use Rattle.aml_terms.specs.Grammar.{Aml};
ghost use Rattle.vt_layout.specs.declared.row.Row.{Row};
ghost use Rattle.acpi_records.specs.Facs.{initial_facs};
ghost use Rattle.acpi_records.specs.MadtEntries.{madt_entry_of};
ghost use Rattle.acpi_model.specs.MachineMadt.{cpu_entries, nmi_entry, madt_of_machine, apic_in, cpus_in, io_apics_in, overrides_in, nmis_in, without_node};
ghost use Rattle.acpi_model.specs.WorkedMadt.{worked_cpus, worked_cpus_bytes, worked_nmis, worked_nmis_bytes};
ghost use Rattle.acpi_model.specs.MachineSrat.{srat_of_machine, cpu_nodes, range_nodes};
ghost use Rattle.acpi_model.specs.MachineSlit.{slit_of_machine, numa_in};
ghost use Rattle.acpi_model.specs.Xsdt.{IsXsdt, most_entries, xsdt_rows, given};

/// States that at most one table of a known kind stands at an address.
pub fn one_table_stands_at_an_address()
    ensures { (form : Form) (view : View) (address : ℕ) (a b : Table) → IsAtBy form view address a → IsAtBy form view address b → a ≡ b }
{}

/// States that, where each table stands at its address, a walk over the addresses finds the tables.
pub fn tables_at_their_addresses_are_walked()
    ensures { (view : View) (addresses : List ℕ) (tables : List Table) → AreAt view addresses tables → Walks view addresses tables [] }
{}

/// States that at no addresses nothing is found, whatever the RSDP's id and the header of the XSDT are.
pub fn nothing_is_found_at_no_addresses()
    ensures { (form : Form) (view : View) (oem_id : List ℕ) (head : Head) → AreToldBy form view [] (gathered oem_id head [] no_targets []) None }
{}

/// States that a table at one address more is added to what is told of those before: one of a known kind, where it is the first of its kind
/// and with what its pointers lead to, and another. It is found last.
pub fn found_tables_grow()
    ensures table { (form : Form) (view : View) (before : List ℕ) (all : AcpiTables) (id : Option (List ℕ)) (is : AreToldBy form view before all id)
        (address : ℕ) (t : Table) (targets : FadtTargets) → IsAtBy form view address t → is_first (signature_of t) is.tables ≡ true
        → TableLeadsTo view t targets
        → (told : AreToldBy form view (before ++ address ∷ []) (with_table t targets all) (id_with t targets id)) × (told.tables ≡ is.tables ++ t ∷ []) }
    ensures other { (form : Form) (view : View) (before : List ℕ) (all : AcpiTables) (id : Option (List ℕ)) (is : AreToldBy form view before all id)
        (address : ℕ) (t : OtherTable) → IsOther view address t
        → (told : AreToldBy form view (before ++ address ∷ []) (with_other t all) id) × (told.tables ≡ is.tables) }
{}

/// States that, where tables are found at addresses, some are found at the first of these, and behind them the table at the next one.
pub fn tables_are_found_in_turn()
    ensures { (form : Form) (view : View) (before : List ℕ) (address : ℕ) (after : List ℕ) (tables : List Table) (targets : FadtTargets)
        (others : List OtherTable) → AreFoundBy form view (before ++ address ∷ after) tables targets others
        → (t : List Table) × (g : FadtTargets) × (o : List OtherTable) × AreFoundBy form view before t g o × IsFoundBehindBy form view address t }
{}

/// States that a table would be the first of its kind behind others exactly where none of the kind is told of them.
pub fn known_table_is_told_apart()
    ensures fadt { (form : Form) (view : View) (before : List ℕ) (all : AcpiTables) (id : Option (List ℕ)) (is : AreToldBy form view before all id)
        → is_first (codes "FACP") is.tables ≡ not (is_some all.fadt) }
    ensures madt { (form : Form) (view : View) (before : List ℕ) (all : AcpiTables) (id : Option (List ℕ)) (is : AreToldBy form view before all id)
        → is_first (codes "APIC") is.tables ≡ not (is_some all.madt) }
    ensures srat { (form : Form) (view : View) (before : List ℕ) (all : AcpiTables) (id : Option (List ℕ)) (is : AreToldBy form view before all id)
        → is_first (codes "SRAT") is.tables ≡ not (is_some all.srat) }
    ensures slit { (form : Form) (view : View) (before : List ℕ) (all : AcpiTables) (id : Option (List ℕ)) (is : AreToldBy form view before all id)
        → is_first (codes "SLIT") is.tables ≡ not (is_some all.slit) }
    ensures mcfg { (form : Form) (view : View) (before : List ℕ) (all : AcpiTables) (id : Option (List ℕ)) (is : AreToldBy form view before all id)
        → is_first (codes "MCFG") is.tables ≡ not (is_some all.mcfg) }
    ensures hpet { (form : Form) (view : View) (before : List ℕ) (all : AcpiTables) (id : Option (List ℕ)) (is : AreToldBy form view before all id)
        → is_first (codes "HPET") is.tables ≡ not (is_some all.hpet) }
{}

/// States that by the form of ACPI 6.5 an FADT of 276 bytes or more has all its rows, and that one of fewer is none.
pub fn fadt_has_all_its_rows()
    ensures whole { (total : ℕ) → 276 ≤ total → fadt_shape_in xsdt_form total ≡ Some fadt_shape }
    ensures short { (total : ℕ) → total < 276 → fadt_shape_in xsdt_form total ≡ None }
{}

/// States that a table of a list, no two of which have one signature, is found in it by its signature.
pub fn table_in_a_list_is_found()
    ensures { (front back : List Table) (table : Table) → AreDistinct (front ++ table ∷ back)
        → first_with (signature_of table) (front ++ table ∷ back) ≡ Some table }
{}

/// States that the tables that a machine's XSDT names, wherever their pointers lead, are of different kinds and tell what the machine's
/// tables do.
pub fn tables_of_a_machine_are_gathered()
    ensures distinct { (place_of : List ℕ → ℕ) (machine : Machine) (acpi : Acpi) → AreDistinct (map (linked_table place_of) (tables_of machine acpi)) }
    ensures told { (place_of : List ℕ → ℕ) (machine : Machine) (acpi : Acpi)
        → gathered (padded 6 acpi.oem_id) (head_of acpi 1) (map (linked_table place_of) (tables_of machine acpi)) (targets_of machine acpi) []
        ≡ acpi_of machine acpi }
{}

/// States that, where the file of the tables isn't placed at 0, a machine's FADT leads to the FACS that a view shows where that file
/// begins, and to the machine's DSDT where the view shows it behind the FACS, and with it to the id of its generation where the view has it;
/// and that a machine without an FADT leads to nothing.
pub fn fadt_of_a_machine_leads_to_its_facs_and_its_dsdt()
    ensures { (view : View) (place_of : List ℕ → ℕ) (machine : Machine) (acpi : Acpi) → 0 < place_of tables_name
        → (IsSome machine.power → IsFacs view (place_of tables_name + facs_place) initial_facs)
        → (IsSome machine.power → IsDsdt view (place_of tables_name + dsdt_place) (dsdt_at (id_address place_of) machine acpi))
        → (IsSome machine.generation → IsSome machine.power) → HasIdAt view (id_address place_of) machine
        → LeadTo view (first_links (map (linked_table place_of) (tables_of machine acpi))) (targets_of machine acpi) }
{}

/// States that at most one DSDT stands at an address: its definition block spells one list of terms, or none.
pub fn one_dsdt_stands_at_an_address()
    ensures { (view : View) (address : ℕ) (d e : Dsdt) → IsDsdt view address d → IsDsdt view address e → d ≡ e }
{}

/// States that a DSDT that a view holds as it was written stands there, as the terms that the rows of its definition block spell, their
/// pointers with their targets' places added. Where they have pointers, the view shows bytes alone.
pub fn held_dsdt_is_there()
    ensures { (view : View) (place_of : List ℕ → ℕ) (address : ℕ) (head : Head) (block : List Row) (terms : List Term)
        → AllByRecursion IsRow (dsdt_rows head block) → AllByRecursion IsBlockRow block → LayoutHeld view place_of address (dsdt_rows head block)
        → IsSpelledIn view block → Aml (views terms) (spelled (linked place_of block)) → IsDsdt view address (Terms head terms) }
{}

/// States that the tables that a machine's XSDT names are few, and that those of an accepted machine can be written, are short, and can be
/// put into a file where its numbers fit their fields.
pub fn tables_of_a_machine_can_be_put()
    ensures writable { (machine : Machine) (acpi : Acpi) → IsAccepted machine → AllByRecursion IsWritable (tables_of machine acpi) }
    ensures number { (machine : Machine) (acpi : Acpi) → length (tables_of machine acpi) ≤ 16 }
    ensures bytes { (machine : Machine) (acpi : Acpi) → IsAccepted machine → bytes_behind (tables_of machine acpi) ≤ 0x30000 }
    ensures put { (machine : Machine) (acpi : Acpi) → FitsHead acpi → HasFittingFields machine → IsAccepted machine
        → AllByRecursion CanBePut (tables_of machine acpi) }
{}

/// States that a table that can be written, and that a view holds as it was written, stands there, its pointers with their targets'
/// places added.
pub fn held_table_is_there()
    ensures { (view : View) (place_of : List ℕ → ℕ) (address : ℕ) (table : Table)
        → IsWritable table → AllByRecursion IsRow (rows_of table) → LayoutHeld view place_of address (rows_of table)
        → IsAt view address (linked_table place_of table) }
{}

/// States that an XSDT that a view holds as it was written stands there, with the addresses of the tables at these offsets in a
/// file, where they are no more than an XSDT has entries.
pub fn held_xsdt_is_there()
    ensures { (view : View) (place_of : List ℕ → ℕ) (address : ℕ) (head : Head) (name offsets : List ℕ)
        → length offsets ≤ most_entries → AllByRecursion IsRow (xsdt_rows head (map (Pointer 8 name) offsets))
        → LayoutHeld view place_of address (xsdt_rows head (map (Pointer 8 name) offsets))
        → IsXsdt view address head (given (map (λ offset. offset + place_of name) offsets)) }
{}

/// States that the nodes of an accepted machine are got back from its tables: those of its processors, and of its ranges behind them, each
/// from the entry of the SRAT at its own place, and the distances from the SLIT.
pub fn nodes_of_a_machine_are_got_back()
    ensures cpus { (machine : Machine) (acpi : Acpi) → IsAccepted machine
        → cpu_nodes (map apic_id machine.cpus) (srat_of_machine machine acpi).entries ≡ map (λ cpu. cpu.node) machine.cpus }
    ensures ranges { (machine : Machine) (acpi : Acpi) → IsAccepted machine
        → range_nodes (length machine.cpus) machine.ranges (srat_of_machine machine acpi).entries ≡ map (λ range. range.node) machine.ranges }
    ensures numa { (machine : Machine) (acpi : Acpi) → IsAccepted machine
        → IfSome machine.numa (λ numa. numa_in (slit_of_machine acpi numa) ≡ numa) }
{}

/// States that the maker of tables is got back from the RSDP's id and the header of the XSDT, where its identifiers can be padded.
pub fn maker_is_got_back()
    ensures { (acpi : Acpi) → is_padded_text 6 acpi.oem_id ≡ true → is_padded_text 8 acpi.oem_table_id ≡ true
        → acpi_in (padded 6 acpi.oem_id) (head_of acpi 1) ≡ acpi }
{}

/// States what the entries of worked processors and NMIs are written as, one after the other: a processor, and the NMI of one, is told by
/// the longer entry where its position or its APIC id is above 254.
pub fn worked_processors_are_spelled()
    ensures cpus { spelled (entries_rows (map madt_entry_of (cpu_entries worked_cpus))) ≡ worked_cpus_bytes }
    ensures nmis { spelled (entries_rows (map madt_entry_of (map nmi_entry worked_nmis))) ≡ worked_nmis_bytes }
{}

/// States that the interrupt controllers of a machine, its I/O APICs, its overrides and its NMIs are got back from its MADT, and its
/// processors but for their nodes.
pub fn parts_of_a_machine_are_got_back_from_its_madt()
    ensures apic { (machine : Machine) (acpi : Acpi) (apic : Apic) → apic_in (madt_of_machine machine acpi apic) ≡ apic }
    ensures cpus { (machine : Machine) (acpi : Acpi) (apic : Apic) → cpus_in (madt_of_machine machine acpi apic) ≡ map without_node machine.cpus }
    ensures io_apics { (machine : Machine) (acpi : Acpi) (apic : Apic) → io_apics_in (madt_of_machine machine acpi apic) ≡ machine.io_apics }
    ensures overrides { (machine : Machine) (acpi : Acpi) (apic : Apic) → overrides_in (madt_of_machine machine acpi apic) ≡ machine.overrides }
    ensures nmis { (machine : Machine) (acpi : Acpi) (apic : Apic) → nmis_in (madt_of_machine machine acpi apic) ≡ machine.nmis }
{}
