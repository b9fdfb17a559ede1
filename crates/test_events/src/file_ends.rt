//! Pointers and sums at the ends of files, and numbers that are nearly too large.

use crate::cases::{Case, all_end};
use crate::rig::Held;
use crate::scripts::HIGH;
use crate::scripts::Line::{AddChecksum, AddPointer, Allocate};
use firmware_load::LoadFault;
use loader_script::Cause;
use std::test::Fail;

static CASES: [Case<'static>; 14] = [
    // Pointers in the last four bytes, and then in the last eight: 0x55443300 + 0x3000009 is 0x58443309, and 0x822 + 0x3000000 is 0x3000822.
    Case {
        script: &[
            Allocate("etc/holder", 1, HIGH),
            Allocate("etc/target", 1, HIGH),
            AddPointer("etc/holder", "etc/target", 5, 4),
            AddPointer("etc/holder", "etc/holder", 1, 8),
        ],
        answer: Ok(()),
        left: &[
            Held(0x300_0000, b"\x11\x22\x08\0\x03\x09\x33\x44\x58"),
            Held(0x300_0009, b"\xa1\xa2\xa3"),
        ],
    },
    // One byte further.
    Case {
        script: &[
            Allocate("etc/holder", 1, HIGH),
            Allocate("etc/target", 1, HIGH),
            AddPointer("etc/holder", "etc/target", 6, 4),
        ],
        answer: Err(LoadFault::Command {
            index: 2,
            cause: Cause::OutOfRange,
        }),
        left: &[
            Held(0x300_0000, b"\x11\x22\x08\0\0\0\x33\x44\x55"),
            Held(0x300_0009, b"\xa1\xa2\xa3"),
        ],
    },
    // An offset and a size whose sum isn't below 2^32.
    Case {
        script: &[
            Allocate("etc/target", 1, HIGH),
            AddPointer("etc/target", "etc/target", 0xFFFF_FFFF, 8),
        ],
        answer: Err(LoadFault::Command {
            index: 1,
            cause: Cause::OutOfRange,
        }),
        left: &[Held(0x300_0000, b"\xa1\xa2\xa3")],
    },
    // 0xFD000000FCFFFFFF + 0x3000008 carries into the upper four bytes.
    Case {
        script: &[
            Allocate("etc/edge", 8, HIGH),
            Allocate("etc/holder", 8, HIGH),
            AddPointer("etc/edge", "etc/holder", 0, 8),
        ],
        answer: Ok(()),
        left: &[
            Held(0x300_0000, b"\x07\0\0\0\x01\0\0\xfd"),
            Held(0x300_0008, b"\x11\x22\x08\0\0\0\x33\x44\x55"),
        ],
    },
    // Numbers that do not fit.
    Case {
        script: &[
            Allocate("etc/holder", 1, HIGH),
            AddPointer("etc/holder", "etc/holder", 3, 1),
        ],
        answer: Err(LoadFault::Command {
            index: 1,
            cause: Cause::TooFar,
        }),
        left: &[Held(0x300_0000, b"\x11\x22\x08\0\0\0\x33\x44\x55")],
    },
    Case {
        script: &[
            Allocate("etc/holder", 1, HIGH),
            AddPointer("etc/holder", "etc/holder", 3, 2),
        ],
        answer: Err(LoadFault::Command {
            index: 1,
            cause: Cause::TooFar,
        }),
        left: &[Held(0x300_0000, b"\x11\x22\x08\0\0\0\x33\x44\x55")],
    },
    // 0xFCFFFFFF + 0x3000000 is 0xFFFFFFFF, and 0xFD000000 + 0x3000000 is 2^32.
    Case {
        script: &[
            Allocate("etc/edge", 1, HIGH),
            AddPointer("etc/edge", "etc/edge", 0, 4),
            AddPointer("etc/edge", "etc/edge", 4, 4),
        ],
        answer: Err(LoadFault::Command {
            index: 2,
            cause: Cause::TooFar,
        }),
        left: &[Held(0x300_0000, b"\xff\xff\xff\xff\0\0\0\xfd")],
    },
    // The largest number of eight bytes.
    Case {
        script: &[
            Allocate("etc/ones", 1, HIGH),
            AddPointer("etc/ones", "etc/ones", 0, 8),
        ],
        answer: Err(LoadFault::Command {
            index: 1,
            cause: Cause::TooFar,
        }),
        left: &[Held(0x300_0000, b"\xff\xff\xff\xff\xff\xff\xff\xff")],
    },
    // The sum of a range up to the end of its file, with its byte there: 0x33 + 0x44 + 0x89 is 0x100. A whole file: 9 + 0xFF + 0xFF + 0xFC +
    // 0xFD is 0x400. No byte, from the end of a file on.
    Case {
        script: &[
            Allocate("etc/holder", 16, HIGH),
            Allocate("etc/edge", 16, HIGH),
            Allocate("etc/target", 16, HIGH),
            AddChecksum("etc/holder", 8, 5, 4),
            AddChecksum("etc/edge", 0, 0, 8),
            AddChecksum("etc/target", 0, 3, 0),
        ],
        answer: Ok(()),
        left: &[
            Held(0x300_0000, b"\x11\x22\x08\0\0\0\x33\x44\x89"),
            Held(0x300_0010, b"\x09\xff\xff\xfc\0\0\0\xfd"),
            Held(0x300_0020, b"\xa1\xa2\xa3"),
        ],
    },
    // A byte outside of its range: 0x11 - 0x33 - 0x44 is 0x9A - 0x100.
    Case {
        script: &[
            Allocate("etc/holder", 16, HIGH),
            AddChecksum("etc/holder", 0, 6, 2),
        ],
        answer: Ok(()),
        left: &[Held(0x300_0000, b"\x9a\x22\x08\0\0\0\x33\x44\x55")],
    },
    // A range that ends past its file, one of no bytes that starts there, one whose end isn't below 2^32, and a byte at the end.
    Case {
        script: &[
            Allocate("etc/target", 16, HIGH),
            AddChecksum("etc/target", 0, 1, 3),
        ],
        answer: Err(LoadFault::Command {
            index: 1,
            cause: Cause::OutOfRange,
        }),
        left: &[Held(0x300_0000, b"\xa1\xa2\xa3")],
    },
    Case {
        script: &[
            Allocate("etc/target", 16, HIGH),
            AddChecksum("etc/target", 0, 4, 0),
        ],
        answer: Err(LoadFault::Command {
            index: 1,
            cause: Cause::OutOfRange,
        }),
        left: &[Held(0x300_0000, b"\xa1\xa2\xa3")],
    },
    Case {
        script: &[
            Allocate("etc/target", 16, HIGH),
            AddChecksum("etc/target", 0, 0xFFFF_FFFF, 1),
        ],
        answer: Err(LoadFault::Command {
            index: 1,
            cause: Cause::OutOfRange,
        }),
        left: &[Held(0x300_0000, b"\xa1\xa2\xa3")],
    },
    Case {
        script: &[
            Allocate("etc/target", 16, HIGH),
            AddChecksum("etc/target", 3, 0, 3),
        ],
        answer: Err(LoadFault::Command {
            index: 1,
            cause: Cause::OutOfRange,
        }),
        left: &[Held(0x300_0000, b"\xa1\xa2\xa3")],
    },
];

#[test]
fn ends_of_files(rt: HostRuntime) -> Result<(), Fail> {
    all_end(&rt, rt.alloc(), &CASES)
}
