ghost use Rattle.std.specs.Prelude.{◌≡◌, ◌<◌, ◌≤◌, ◌+◌, ◌==◌, [], ◌∷◌, ◌++◌, length, map, IfOk, OnOk, OnErr, if◌then◌else◌};
ghost use Rattle.std.specs.List.{AllByRecursion};
ghost use Rattle.vt_layout.specs.Strings.{HasNoNul, IsString, strings_of, string_set};

use std::alloc::Global;
use std::marker::Model;
use vt_outside::{Bytes, OutOfMemory, Text};

/// The strings of a structure while it is built (DSP0134 6.1.3). Contracts see their list, in the order of their numbers, which
/// count from 1.
#[derive(Drop)]
pub struct StringSet {
    count: u8,
    // Each string with its NUL.
    bytes: Bytes,
}

impl Model for StringSet {
    ghost use Rattle.std.specs.Prelude.{ℕ, List};
    ghost use Rattle.smbios_build.specs.Cut.{cut_at_nuls, AreStringsIn};

    ghost Value = { List (List ℕ) };

    ghost view = { λ s. cut_at_nuls s.bytes };

    ghost invariant = { λ s. AreStringsIn s.bytes s.count };
}

impl StringSet {
    /// Returns a set without strings. It takes memory from `alloc` when a string is added, none before.
    pub fn new(alloc: Global) -> StringSet
        ensures { result ≡ [] }
    {
        StringSet {
            count: 0,
            bytes: Bytes::new(alloc),
        }
    }

    /// Adds `text`, which holds no NUL, and returns its number: the next one, or 0 for the empty text, which isn't added. The
    /// set has less than 255 strings before, so that their numbers fit a byte. Returns `OutOfMemory` when memory runs out; the
    /// set is then as before.
    pub fn add(&mut self, text: &Text) -> Result<u8, OutOfMemory>
        requires few { length self.old < 255 }
        requires no_nul { HasNoNul text.now }
        ensures number { IfOk result (λ number. number ≡ (if length text.now == 0 then 0 else length self.old + 1)) }
        ensures ok { OnOk result (self.new ≡ self.old ++ strings_of (text.now ∷ [])) }
        ensures err { OnErr result (self.new ≡ self.old) }
    {
        if text.len() == 0 {
            return Ok(0);
        }
        let size = self.bytes.len();
        self.bytes.extend(text.as_slice())?;
        if let Err(fault) = self.bytes.push(0) {
            self.bytes.cut(size);
            return Err(fault);
        }
        self.count += 1;
        Ok(self.count)
    }

    /// Appends the strings to `bytes`, which end in a structure's area: each with its NUL and one more NUL, or two NULs where
    /// there are none. Returns `OutOfMemory` when memory runs out; what `bytes` then holds is unspecified.
    pub(crate) fn put_after(&self, bytes: &mut Bytes) -> Result<(), OutOfMemory>
        ensures { OnOk result (bytes.new ≡ bytes.old ++ string_set self.now) }
    {
        if self.count == 0 {
            return bytes.extend(&[0, 0]);
        }
        bytes.extend(self.bytes.as_slice())?;
        bytes.push(0)
    }
}

/// Returns the set of `strings`, in order. There are at most 255 of them, and none is empty or holds a NUL. The set takes its
/// memory from `alloc`. Returns `OutOfMemory` when memory runs out.
pub(crate) fn set_of(alloc: Global, strings: &[Text]) -> Result<StringSet, OutOfMemory>
    requires few { length strings.now ≤ 255 }
    requires texts { AllByRecursion IsString strings.now }
    ensures { IfOk result (λ set. set ≡ strings.now) }
{
    let mut set = StringSet::new(alloc);
    for text in strings {
        set.add(text)?;
    }
    Ok(set)
}

/// Returns the set of `texts`, in order, without those that are empty. There are at most 255 of them, and none holds a NUL. The set
/// takes its memory from `alloc`. Returns `OutOfMemory` when memory runs out.
pub(crate) fn set_of_texts(alloc: Global, texts: &[&Text]) -> Result<StringSet, OutOfMemory>
    requires few { length texts.now ≤ 255 }
    requires no_nuls { AllByRecursion HasNoNul (map (λ text. text.now) texts.now) }
    ensures { IfOk result (λ set. set ≡ strings_of (map (λ text. text.now) texts.now)) }
{
    let mut set = StringSet::new(alloc);
    for text in texts {
        set.add(text)?;
    }
    Ok(set)
}
