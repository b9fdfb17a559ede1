ghost use Rattle.std.specs.Prelude.{◌≡◌};
ghost use Rattle.table_model.specs.Search.{search_of, any_search};

use acpi_model::Form;
use smbios_model::AnchorForm;

/// What a guest looks for in its memory: which RSDP, and which anchor of SMBIOS structures.
#[derive(Clone, Copy, Debug, PartialEq, Eq)]
pub struct Search {
    /// The RSDP, with its root and its FADT.
    pub root: RootSearch,
    /// The anchor of SMBIOS structures.
    pub anchor: AnchorSearch,
}

/// Which RSDP a guest looks for (ACPI 6.5, 5.2.5).
#[derive(Clone, Copy, Debug, PartialEq, Eq)]
pub enum RootSearch {
    /// That of one form.
    One(Form),
    /// The first of any revision, with the root that its revision has, and an FADT of 116 bytes or more.
    Any,
}

/// Which anchor of SMBIOS structures a guest looks for (DSP0134 5.2).
#[derive(Clone, Copy, Debug, PartialEq, Eq)]
pub enum AnchorSearch {
    /// That of one form.
    One(AnchorForm),
    /// The first of either form.
    Any,
}

impl Search {
    /// Returns the search for legacy ACPI tables where `legacy` is true, and else for those of ACPI 6.5, and for the old anchor where
    /// `smbios2` is true, and else for the 64-bit entry point.
    pub fn of(legacy: bool, smbios2: bool) -> Search
        ensures { result ≡ search_of legacy smbios2 }
    {
        let anchor = if smbios2 {
            AnchorForm::Smbios2
        } else {
            AnchorForm::Smbios3
        };
        Search {
            root: RootSearch::One(Form::of(legacy)),
            anchor: AnchorSearch::One(anchor),
        }
    }

    /// Returns the search for the first anchors of any form.
    pub fn any() -> Search
        ensures { result ≡ any_search }
    {
        Search {
            root: RootSearch::Any,
            anchor: AnchorSearch::Any,
        }
    }
}
