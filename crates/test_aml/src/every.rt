//! A list of terms of every kind, as bytes and in words.

/// A scope of the root with a device and a name in it, and a name. There is each kind of value and each width of an integer, and a path of
/// each form.
pub static EVERY: [u8; 98] = *b"\x10\x4f\x04\x5c_SB_\
    \x5b\x82\x1ePCI0\x08_HID\x0c\xd0\x41\x0a\x08\x08_UID\x00\x08A__1\x0dHi\x00\
    \x08\x5e\x5e\x2eAB01CD02\x12\x1b\x07\x01\x0a\x05\x0b\x34\x12\x0e\x00\x01\x02\x03\x04\x05\x06\x07\xff\x11\x05\x0a\x02\x79\x00\x12\x02\x00\
    \x08\x2f\x03AAAABBBBCCCC\x11\x02\x00";

/// What they are.
pub static EVERY_TOLD: &str =
    "scope \\._SB_ [ device .PCI0 [ name ._HID int 00000000080a41d0 name ._UID int 0000000000000000 \
    name .A__1 text 4869 ] name ^^.AB01.CD02 package [ int 0000000000000001 int 0000000000000005 int 0000000000001234 \
    int 0706050403020100 ones buffer 7900 package [ ] ] ] name .AAAA.BBBB.CCCC buffer  ";
