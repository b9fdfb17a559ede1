use vt_outside::{Boxed, Bytes, List, Text};

/// Where a thing is named (ACPI 6.5, 20.2.2): from the root, or so many levels up, and then its segments, of which there are 1 to 255.
/// A path from the root has no levels up. Each segment has four characters: A to Z or `_`, and behind the first also 0 to 9.
#[derive(Debug, Drop)]
pub struct Path {
    /// Whether it begins at the root.
    pub root: bool,
    /// How many levels up it begins.
    pub parents: u8,
    /// Its segments.
    pub segments: List<[u8; 4]>,
}

/// A term of AML (ACPI 6.5, 20.2): a thing with a name, or a value.
#[derive(Debug, Drop)]
pub enum Term {
    /// An integer, written as short as it can be.
    Int(u64),
    /// An integer that is written as a dword, whatever its value. Nothing that is read gives it.
    Fixed(u32),
    /// The integer all of whose bits are one, however wide integers are.
    Ones,
    /// A text of the characters 01 to 7F.
    Chars(Text),
    /// Bytes.
    Buffer(Bytes),
    /// At most 255 values.
    Package(List<Term>),
    /// A name and its value.
    Named(Path, Boxed<Term>),
    /// Terms in a scope.
    Scope(Path, List<Term>),
    /// A device and the terms in it.
    Device(Path, List<Term>),
}
