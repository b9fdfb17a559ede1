ghost use Rattle.std.specs.Prelude.{◌≡◌, ◌≤◌, ◌==◌, length};
ghost use Rattle.std.specs.List.{list_all, position_or_len};
ghost use Rattle.vt_outside.specs.Name.{name_of, before_nul, in_field, is_printable, IsName};

use std::marker::Model;

// The most bytes of a name, which leave room for a NUL in its field.
const LONGEST: usize = 55;

/// Why bytes are no file name.
#[derive(Clone, Copy, Debug, PartialEq, Eq)]
pub enum NameFault {
    /// The name would have more than 55 bytes: a field has no NUL, or a text leaves no room for one.
    NoNul,
    /// The name would have no bytes.
    EmptyName,
    /// A byte of the name isn't printable ASCII, 0x20 to 0x7E.
    BadNameByte,
}

/// The name of a file of fw_cfg: 1 to 55 bytes, each 0x20 to 0x7E (QEMU, docs/specs/fw_cfg). Contracts see the list of these
/// bytes.
#[derive(Clone, Copy, Debug)]
pub struct Name {
    field: [u8; 56],
}

impl Model for Name {
    ghost use Rattle.std.specs.Prelude.{ℕ, List};
    ghost use Rattle.std.proofs.Common.{ap};
    ghost use Rattle.vt_outside.specs.Name.{before_nul, in_field, IsField};

    ghost Value = { List ℕ };

    ghost view = { λ n. before_nul n.field };

    ghost invariant = { λ n. IsField n.field };

    ghost inverse = { λ name. record { field = in_field name } };

    ghost inverse_ok = { λ n h. ap (λ (field : List ℕ). record { field = field }) h.padded };
}

impl Name {
    /// Reads the name in `bytes`, a field of 56 bytes: the bytes before the first NUL. What follows the NUL is ignored.
    ///
    /// The error is the first that applies: `NoNul` if the field has no NUL, `EmptyName` if it begins with one, and
    /// `BadNameByte` if a byte before it isn't 0x20 to 0x7E.
    pub fn read(bytes: &[u8; 56]) -> Result<Name, NameFault>
        ensures { result ≡ name_of (before_nul bytes.now) }
    {
        Name::from_bytes(&bytes[..place_of_nul(bytes)])
    }

    /// Parses `text` as a file name: all of its bytes are the name.
    ///
    /// The error is the first that applies: `NoNul` if `text` has more than 55 bytes, `EmptyName` if it has none, and
    /// `BadNameByte` if one of them isn't 0x20 to 0x7E. A NUL is such a byte.
    pub fn of(text: &str) -> Result<Name, NameFault>
        ensures { result ≡ name_of text.now }
    {
        Name::from_bytes(text.as_bytes())
    }

    #[tactic(auto, unfolding(crate::specs::Name::name_of))]
    fn from_bytes(text: &[u8]) -> Result<Name, NameFault>
        ensures { result ≡ name_of text.now }
    {
        if text.len() > LONGEST {
            return Err(NameFault::NoNul);
        }
        if text.is_empty() {
            return Err(NameFault::EmptyName);
        }
        if !are_printable(text) {
            return Err(NameFault::BadNameByte);
        }
        let mut field = [0; 56];
        field[..text.len()].copy_from_slice(text);
        Ok(Name { field })
    }

    /// Returns the field of 56 bytes that holds the name: its bytes, and zeros after them.
    pub fn bytes(&self) -> [u8; 56]
        ensures field { result ≡ in_field self.now }
        ensures name { IsName self.now }
    {
        self.field
    }
}

impl PartialEq for Name {
    ghost use Rattle.std.specs.Str.{bytes_eq};
    ghost use Rattle.std.specs.Cmp.{partial_equiv_from_equiv};
    ghost use Rattle.std.proofs.lemmas.Cmp.{nat_list_eq_equiv};

    ghost eq = { bytes_eq };

    ghost laws = { partial_equiv_from_equiv nat_list_eq_equiv };

    fn eq(&self, other: &Name) -> bool {
        self.field == other.field
    }
}

impl Eq for Name {
    ghost use Rattle.std.proofs.lemmas.Cmp.{nat_list_eq_equiv};

    ghost laws = { nat_list_eq_equiv };
}

// Where the first NUL is, or the number of bytes where there is none.
fn place_of_nul(bytes: &[u8]) -> usize
    ensures first { result ≡ position_or_len (λ byte. byte == 0) bytes.now }
    ensures within { result ≤ length bytes.now }
{
    bytes
        .iter()
        .position(|byte| *byte == 0)
        .unwrap_or(bytes.len())
}

/// Tells whether each byte of `text` is printable ASCII, 0x20 to 0x7E, as those of a name are.
pub fn are_printable(text: &[u8]) -> bool
    ensures { result ≡ list_all is_printable text.now }
{
    text.iter().all(|byte| (0x20..=0x7E).contains(byte))
}
