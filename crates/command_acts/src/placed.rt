use vt_outside::Name;

/// Tells where a file was placed: its name, the guest address of its first byte, and how many bytes it has there.
#[derive(Clone, Copy, Debug)]
pub struct PlacedFile {
    /// The name of the file.
    pub name: Name,
    /// The guest address of its first byte.
    pub place: u64,
    /// How many bytes it has.
    pub size: u64,
}
