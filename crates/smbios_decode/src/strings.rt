ghost use Rattle.std.specs.Prelude.{◌≡◌, ◌+◌, ◌<◌, ℕ, List, ◌++◌, length, None, Ok, IfOk, OnErr, IfSome, MatchBool, [], ◌∷◌, ◌==◌};
ghost use Rattle.std.specs.List.{slice_split};
ghost use Rattle.vt_layout.specs.Strings.{AreStrings, string_set};
ghost use Rattle.smbios_decode.specs.Ends.{HasEnd, IsFirstEnd};
ghost use Rattle.smbios_decode.specs.Faults.{BeginsStrings};

use std::alloc::Global;
use vt_outside::{List, OutOfMemory, Text};

/// The strings of a structure (DSP0134 6.1.3).
#[derive(Drop)]
pub(crate) struct Strings {
    /// The strings, in the order of their numbers, which count from 1.
    pub(crate) texts: List<Text>,
    /// How many bytes they have, with their NULs and the one behind them.
    pub(crate) size: usize,
}

/// Reads the strings that `bytes` begin with: they end at the first two NULs in a row, which at the very front mean that there are
/// none. The list takes its memory from `alloc`. Returns `None` when no two NULs in a row are there, and `OutOfMemory` when memory
/// runs out.
pub(crate) fn read_strings(alloc: Global, bytes: &[u8]) -> Result<Option<Strings>, OutOfMemory>
    ensures found { IfOk result (λ found. IfSome found (λ strings. AreStrings strings.texts × (length (string_set strings.texts) ≡ strings.size)
        × (rest : List ℕ) × (bytes.now ≡ string_set strings.texts ++ rest))) }
    ensures none { result ≡ Ok None → (strings : List (List ℕ)) (rest : List ℕ) → AreStrings strings
        → bytes.now ≡ string_set strings ++ rest → ⊥ }
    ensures no_memory { OnErr result (BeginsStrings bytes.now) }
{
    let Some(end) = end_of_strings(bytes) else {
        return Ok(None);
    };
    let texts = if end == 0 {
        List::new(alloc)
    } else {
        texts_in(alloc, &bytes[..end])?
    };
    Ok(Some(Strings {
        texts,
        size: end + 2,
    }))
}

// Where the first two NULs in a row are.
fn end_of_strings(bytes: &[u8]) -> Option<usize>
    ensures some { IfSome result (λ place. IsFirstEnd bytes.now place) }
    ensures none { result ≡ None → (place : ℕ) → HasEnd bytes.now place → ⊥ }
{
    bytes.windows(2).position(is_end)
}

// Whether two bytes are two NULs.
fn is_end(pair: &[u8]) -> bool
    ensures { MatchBool result (pair.now ≡ 0 ∷ 0 ∷ []) (pair.now ≡ 0 ∷ 0 ∷ [] → ⊥) }
{
    matches!(pair, [0, 0])
}

// The strings in bytes, with a NUL between each two.
fn texts_in(alloc: Global, bytes: &[u8]) -> Result<List<Text>, OutOfMemory>
    ensures { IfOk result (λ texts. texts ≡ slice_split (λ byte. byte == 0) bytes.now) }
{
    let mut texts = List::new(alloc);
    for piece in bytes.split(|byte| *byte == 0) {
        let mut text = Text::new(alloc);
        text.extend(piece)?;
        texts.push(text)?;
    }
    Ok(texts)
}
