//! Copies of texts. A structure's texts are copied by a few calls, since the proof of a function grows steeply with the texts that
//! it owns at a `?`.

ghost use Rattle.std.specs.Prelude.{◌≡◌, IfOk};

use std::alloc::Global;
use vt_outside::{List, OutOfMemory, Text};

/// Returns copies of two texts, each in memory from that text's allocator. Returns `OutOfMemory` when memory runs out.
pub fn two_copies_of(first: &Text, second: &Text) -> Result<(Text, Text), OutOfMemory>
    ensures first { IfOk result (λ texts. texts.0 ≡ first.now) }
    ensures second { IfOk result (λ texts. texts.1 ≡ second.now) }
{
    Ok((first.copy()?, second.copy()?))
}

/// Returns copies of three texts, each in memory from that text's allocator. Returns `OutOfMemory` when memory runs out.
pub fn three_copies_of(
    first: &Text,
    second: &Text,
    third: &Text,
) -> Result<(Text, Text, Text), OutOfMemory>
    ensures first { IfOk result (λ texts. texts.0 ≡ first.now) }
    ensures second { IfOk result (λ texts. texts.1 ≡ second.now) }
    ensures third { IfOk result (λ texts. texts.2 ≡ third.now) }
{
    Ok((first.copy()?, second.copy()?, third.copy()?))
}

/// Returns copies of `texts`, in order, each in memory from its own allocator. The list takes its memory from `alloc`. Returns `OutOfMemory`
/// when memory runs out.
pub fn copies_of(alloc: Global, texts: &[Text]) -> Result<List<Text>, OutOfMemory>
    ensures { IfOk result (λ copies. copies ≡ texts.now) }
{
    let mut copies = List::new(alloc);
    for text in texts {
        copies.push(text.copy()?)?;
    }
    Ok(copies)
}
