ghost use Rattle.std.specs.Prelude.{◌≡◌};
ghost use Rattle.acpi_model.specs.Form.{xsdt_form};
ghost use Rattle.acpi_decode.specs.KnownKinds.{kind_of, known_kind};

/// The kinds of tables that are read as records, each of another signature.
#[derive(Clone, Copy, Debug, PartialEq, Eq)]
pub(crate) enum KnownKind {
    Fadt,
    Madt,
    Srat,
    Slit,
    Mcfg,
    Hpet,
}

// Each of them.
const KINDS: [KnownKind; 6] = [
    KnownKind::Fadt,
    KnownKind::Madt,
    KnownKind::Srat,
    KnownKind::Slit,
    KnownKind::Mcfg,
    KnownKind::Hpet,
];

impl KnownKind {
    // Its signature.
    fn signature(self) -> [u8; 4]
        ensures { result ≡ (kind_of xsdt_form self).signature }
    {
        match self {
            KnownKind::Fadt => *b"FACP",
            KnownKind::Madt => *b"APIC",
            KnownKind::Srat => *b"SRAT",
            KnownKind::Slit => *b"SLIT",
            KnownKind::Mcfg => *b"MCFG",
            KnownKind::Hpet => *b"HPET",
        }
    }
}

/// Returns the kind of a signature, or `None` where its tables aren't read as records.
pub(crate) fn known_kind(signature: &[u8; 4]) -> Option<KnownKind>
    ensures { result ≡ known_kind signature.now }
{
    KINDS
        .iter()
        .copied()
        .find(|kind| *signature == kind.signature())
}
