use crate::same::{Same, are_all_same};
use acpi_model::{Dsdt, OtherTable};
use acpi_records::{Madt, MadtEntry, Mcfg, McfgAllocation, Slit, Srat, SratEntry};
use aml_terms::are_all_equal;

impl Same for Madt {
    fn is_same(&self, other: &Madt) -> bool {
        self.head == other.head
            && self.address == other.address
            && self.flags == other.flags
            && are_all_same(self.entries.as_slice(), other.entries.as_slice())
    }
}

impl Same for MadtEntry {
    fn is_same(&self, other: &MadtEntry) -> bool {
        self == other
    }
}

impl Same for Srat {
    fn is_same(&self, other: &Srat) -> bool {
        self.head == other.head && are_all_same(self.entries.as_slice(), other.entries.as_slice())
    }
}

impl Same for SratEntry {
    fn is_same(&self, other: &SratEntry) -> bool {
        self == other
    }
}

impl Same for Slit {
    fn is_same(&self, other: &Slit) -> bool {
        self.head == other.head
            && self.count == other.count
            && self.distances.as_slice() == other.distances.as_slice()
    }
}

impl Same for Mcfg {
    fn is_same(&self, other: &Mcfg) -> bool {
        self.head == other.head
            && are_all_same(self.allocations.as_slice(), other.allocations.as_slice())
    }
}

impl Same for McfgAllocation {
    fn is_same(&self, other: &McfgAllocation) -> bool {
        self == other
    }
}

impl Same for Dsdt {
    fn is_same(&self, other: &Dsdt) -> bool {
        match (self, other) {
            (
                Dsdt::Terms { head, terms },
                Dsdt::Terms {
                    head: other_head,
                    terms: other_terms,
                },
            ) => head == other_head && are_all_equal(terms.as_slice(), other_terms.as_slice()),
            (
                Dsdt::Foreign { head, length },
                Dsdt::Foreign {
                    head: other_head,
                    length: other_length,
                },
            ) => head == other_head && length == other_length,
            _ => false,
        }
    }
}

impl Same for OtherTable {
    fn is_same(&self, other: &OtherTable) -> bool {
        self == other
    }
}
