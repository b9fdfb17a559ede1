//! Scripts that are carried out, and what they leave.

use crate::cases::{Case, all_end};
use crate::rig::Held;
use crate::scripts::Line::{AddChecksum, AddPointer, Allocate, Number, Zeros};
use crate::scripts::{FSEG, HIGH};
use std::test::Fail;

/// Each kind of command. The number at 2 was 8, and is then 0x3000048; and 0x1C + 0x22 + 0x48 + 3 + 0x33 + 0x44 is 0x100.
pub(crate) const SMALL: Case<'static> = Case {
    script: &[
        Allocate("etc/holder", 16, HIGH),
        Zeros(128),
        Allocate("etc/target", 64, HIGH),
        AddPointer("etc/holder", "etc/target", 2, 4),
        AddChecksum("etc/holder", 0, 0, 8),
        Number(0x80),
    ],
    answer: Ok(()),
    left: SMALL_LEFT,
};

const SMALL_LEFT: &[Held<'static>] = &[
    Held(0x300_0000, b"\x1c\x22\x48\0\0\x03\x33\x44\x55"),
    Held(0x300_0040, b"\xa1\xa2\xa3"),
];

static CASES: [Case<'static>; 6] = [
    SMALL,
    // The same in 32 commands, to which QEMU pads a script.
    Case {
        script: &[
            Allocate("etc/holder", 16, HIGH),
            Allocate("etc/target", 64, HIGH),
            AddPointer("etc/holder", "etc/target", 2, 4),
            AddChecksum("etc/holder", 0, 0, 8),
            Zeros(28 * 128),
        ],
        answer: Ok(()),
        left: SMALL_LEFT,
    },
    // No command, and none that does something.
    Case {
        script: &[],
        answer: Ok(()),
        left: &[],
    },
    Case {
        script: &[Number(5), Zeros(128), Number(0xFFFF_FFFF)],
        answer: Ok(()),
        left: &[],
    },
    // The third file fits between the two others.
    Case {
        script: &[
            Allocate("etc/target", 1, HIGH),
            Allocate("etc/holder", 16, HIGH),
            Allocate("etc/edge", 4, HIGH),
        ],
        answer: Ok(()),
        left: &[
            Held(0x300_0000, b"\xa1\xa2\xa3"),
            Held(0x300_0004, b"\xff\xff\xff\xfc\0\0\0\xfd"),
            Held(0x300_0010, b"\x11\x22\x08\0\0\0\x33\x44\x55"),
        ],
    },
    // Two files in the F segment. 0xFCFFFFFF + 0xF0000 is 0xFD0EFFFF.
    Case {
        script: &[
            Allocate("etc/holder", 16, FSEG),
            Allocate("etc/target", 16, FSEG),
            Allocate("etc/edge", 0x1000, HIGH),
            AddPointer("etc/edge", "etc/holder", 0, 4),
        ],
        answer: Ok(()),
        left: &[
            Held(0xF_0000, b"\x11\x22\x08\0\0\0\x33\x44\x55"),
            Held(0xF_0010, b"\xa1\xa2\xa3"),
            Held(0x300_0000, b"\xff\xff\x0e\xfd\0\0\0\xfd"),
        ],
    },
];

#[test]
fn whole_scripts(rt: HostRuntime) -> Result<(), Fail> {
    all_end(&rt, rt.alloc(), &CASES)
}
