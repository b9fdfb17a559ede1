//! The form of an anchor that is a file.

ghost use Rattle.std.specs.Prelude.{◌≡◌, ◌+◌, ◌≤◌, length};
ghost use Rattle.std.specs.Str.{bytes_eq};
ghost use Rattle.vt_bytes.specs.Parts.{part};
ghost use Rattle.smbios_install.specs.Forms.{form_of, is_smbios2, is_smbios3, pointer_place, pointer_size};

use smbios_model::AnchorForm;

// The mark of a 64-bit entry point, how many bytes it has, and where it tells them.
const SMBIOS3_MARK: &[u8] = b"_SM3_";

const SMBIOS3_SIZE: usize = 0x18;

const SMBIOS3_LENGTH_PLACE: usize = 6;

// The mark of an old anchor, how many bytes it has, and where it tells them.
const SMBIOS2_MARK: &[u8] = b"_SM_";

const SMBIOS2_SIZE: usize = 31;

const SMBIOS2_LENGTH_PLACE: usize = 5;

// The mark of the part of an old anchor that tells where the structures are, and where it stands.
const RANGE_MARK: &[u8] = b"_DMI_";

const RANGE_PLACE: usize = 0x10;

/// Returns the form of the anchor that `bytes` are, or `None`: 24 bytes with the mark `_SM3_` that tell this length (DSP0134 5.2.2), or 31
/// with the marks `_SM_` and `_DMI_` (5.2.1). What sums they have isn't looked at.
pub(crate) fn form_of(bytes: &[u8]) -> Option<AnchorForm>
    ensures { result ≡ form_of bytes.now }
{
    if is_smbios3(bytes) {
        Some(AnchorForm::Smbios3)
    } else if is_smbios2(bytes) {
        Some(AnchorForm::Smbios2)
    } else {
        None
    }
}

fn is_smbios3(bytes: &[u8]) -> bool
    ensures { result ≡ is_smbios3 bytes.now }
{
    bytes.len() == SMBIOS3_SIZE
        && has_mark(bytes, 0, SMBIOS3_MARK)
        && bytes[SMBIOS3_LENGTH_PLACE] == 0x18
}

fn is_smbios2(bytes: &[u8]) -> bool
    ensures { result ≡ is_smbios2 bytes.now }
{
    bytes.len() == SMBIOS2_SIZE
        && has_mark(bytes, 0, SMBIOS2_MARK)
        && bytes[SMBIOS2_LENGTH_PLACE] == 31
        && has_mark(bytes, RANGE_PLACE, RANGE_MARK)
}

// Whether a mark stands at a place, up to whose end the bytes reach.
fn has_mark(bytes: &[u8], place: usize, mark: &[u8]) -> bool
    requires { place + length mark.now ≤ length bytes.now }
    ensures { result ≡ bytes_eq (part bytes.now place (length mark.now)) mark.now }
{
    &bytes[place..place + mark.len()] == mark
}

/// Returns where the address of the structures stands in an anchor of the form `form`, in bytes.
pub(crate) fn pointer_place(form: AnchorForm) -> u32
    ensures { result ≡ pointer_place form }
{
    match form {
        AnchorForm::Smbios3 => 0x10,
        AnchorForm::Smbios2 => 0x18,
    }
}

/// Returns how many bytes this address has.
pub(crate) fn pointer_size(form: AnchorForm) -> u8
    ensures { result ≡ pointer_size form }
{
    match form {
        AnchorForm::Smbios3 => 8,
        AnchorForm::Smbios2 => 4,
    }
}
