use vt_outside::{Bytes, Name};

/// A file of the device.
#[derive(Debug, Drop)]
pub struct Item {
    /// Its name.
    pub name: Name,
    /// The number that selects it, from 0x20 to 0x3FFF.
    pub select: u16,
    /// Whether the guest may write it.
    pub writable: bool,
    /// What it holds.
    pub bytes: Bytes,
}
