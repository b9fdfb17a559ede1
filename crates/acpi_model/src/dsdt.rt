use acpi_records::Head;
use aml_terms::Term;
use vt_outside::List;

/// The DSDT (ACPI 6.5, 5.2.11.1).
#[derive(Debug, Drop)]
pub enum Dsdt {
    /// One whose definition block spells terms.
    Terms {
        /// The table's header.
        head: Head,
        /// The terms, in order.
        terms: List<Term>,
    },
    /// One whose definition block spells none: only its length is told.
    Foreign {
        /// The table's header.
        head: Head,
        /// How many bytes it has, with its header.
        length: u32,
    },
}
