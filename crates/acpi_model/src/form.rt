ghost use Rattle.std.specs.Prelude.{◌≡◌, ◌≤◌};
ghost use Rattle.acpi_model.specs.Form.{form_of, has_revision, rsdp_size, root_place, address_size, root_signature};

/// The form of the tables of a memory, from its RSDP on (ACPI 6.5, 5.2).
#[derive(Clone, Copy, Debug, PartialEq, Eq)]
pub struct Form {
    /// Whether the RSDP is an extended one: of a revision of 2 or above, with 36 bytes, and it leads to an XSDT, whose entries have 8 bytes.
    /// Else it is one of ACPI 1.0: of a revision below 2, with 20 bytes, and it leads to an RSDT, whose entries have 4.
    pub extended: bool,
    /// How many bytes an FADT has at least.
    pub least_fadt: u32,
}

/// The form of ACPI 6.5: an extended RSDP, an XSDT, and an FADT of 276 bytes.
pub const XSDT_FORM: Form = Form {
    extended: true,
    least_fadt: 276,
};

/// The form of ACPI 1.0: an RSDP of 20 bytes, an RSDT, and an FADT of 116 bytes or more.
pub const LEGACY_FORM: Form = Form {
    extended: false,
    least_fadt: 116,
};

impl Form {
    /// Returns the form of legacy tables where `legacy` is true, and else that of ACPI 6.5.
    pub fn of(legacy: bool) -> Form
        ensures { result ≡ form_of legacy }
    {
        if legacy { LEGACY_FORM } else { XSDT_FORM }
    }

    /// Tells whether its RSDP may have the revision `revision`.
    pub fn has_revision(self, revision: u8) -> bool
        ensures { result ≡ has_revision self revision }
    {
        if self.extended {
            2 <= revision
        } else {
            revision < 2
        }
    }

    /// Returns how many bytes its RSDP has: 36 or 20.
    pub fn rsdp_size(self) -> u32
        ensures size { result ≡ rsdp_size self }
        ensures some { 20 ≤ result }
        ensures few { result ≤ 36 }
    {
        if self.extended { 36 } else { 20 }
    }

    /// Returns where the address of the root stands in its RSDP, in bytes.
    pub fn root_place(self) -> u64
        ensures place { result ≡ root_place self }
        ensures small { result ≤ 24 }
    {
        if self.extended { 24 } else { 16 }
    }

    /// Returns how many bytes the address of a table has, in its RSDP and in each entry of its root: 8 or 4.
    pub fn address_size(self) -> u32
        ensures size { result ≡ address_size self }
        ensures some { 4 ≤ result }
        ensures few { result ≤ 8 }
    {
        if self.extended { 8 } else { 4 }
    }

    /// Returns the signature of its root, which names the tables: `XSDT` or `RSDT`.
    pub fn root_signature(self) -> [u8; 4]
        ensures { result ≡ root_signature self }
    {
        if self.extended { *b"XSDT" } else { *b"RSDT" }
    }
}
