/// One step of a guest that loads its tables.
#[derive(Clone, Copy, Debug, PartialEq, Eq)]
pub enum Event {
    /// The device moves the next bytes of its transfer, so many, or as many as are left.
    Device(u32),
    /// The firmware takes a step.
    Firmware,
    /// Another processor writes one byte of memory. It has no effect where the address is no RAM, or is guarded.
    Other {
        /// The byte's address.
        addr: u64,
        /// What is written there.
        byte: u8,
    },
    /// The guest is reset: the firmware begins again, and the places of files are given back.
    Reset,
}
