//! Memories in which a DSDT leads to the id of a machine's generation, each with a change, and what is told of it. The memory was made by a
//! program apart from this one, and what is expected by hand, from ACPI 6.5, 5.2 and 20.2.

use crate::told::is_told;
use anchor_scan::Seen;
use fixtures::{Put, memory_of, mend_all, put_all};
use guest_memory::GuestMemory;
use std::alloc::Global;
use std::process::Abort;
use std::test::Fail;

const RSDP: u64 = 0xF_0000;

// A change of a memory: its name, what is put there, the tables whose sums are then set, and what is told.
type Change<'a> = (&'a str, &'a [Put<'a>], &'a [u64], &'a str);

// An FADT leads to a DSDT of 68 bytes with the device `VGEN` in the scope of the system bus, whose name `ADDR` tells the address 0x03FFFF80, both
// halves as dwords. There the id stands.
const DUMP: &str = "top 04000000 fill 00
000f0000 52534420505452204a41424344454602
000f0010 000000002400000020f2ff0300000000
000f0020 c8000000000000000000000000000000
03fff000 46414353400000000000000000000000
03fff020 02000000000000000000000000000000
03fff040 44534454440000000280414243444546
03fff050 4748494a4b4c4d4e010000004f505152
03fff060 01000000101f5c5f53425f5b82175647
03fff070 454e0841444452120c020c80ffff030c
03fff100 4641435014010000067a414243444546
03fff110 4748494a4b4c4d4e010000004f505152
03fff120 01000000000000000000000000000000
03fff180 0000000000f0ff030000000040f0ff03
03fff220 585344542c0000000170414243444546
03fff230 4748494a4b4c4d4e010000004f505152
03fff240 0100000000f1ff030000000000000000
03ffff80 0c5e1a6f4d2b7e4c9a380d5c1b7e42f9
end
";

const DSDT: u64 = 0x3FF_F040;

// The name of the scope, and the low half of the address.
const SCOPE_NAME: u64 = DSDT + 0x27;

const LOW_HALF: u64 = DSDT + 0x3B;

const LED: &str = "
rsdp 414243444546
xsdt 01 414243444546 4748494a4b4c4d4e 01 4f505152 01
fadt 06 414243444546 4748494a4b4c4d4e 01 4f505152 01 00 00 00 00 00 00 00
facs 00 00 00 00 00 02 00
dsdt 02 414243444546 4748494a4b4c4d4e 01 4f505152 01 terms
scope \\_SB_
device VGEN
name ADDR package [ int 00 int 00 ]
end
end
generation 0c5e1a6f4d2b7e4c9a380d5c1b7e42f9";

const LED_TO_THE_LAST: &str = "
rsdp 414243444546
xsdt 01 414243444546 4748494a4b4c4d4e 01 4f505152 01
fadt 06 414243444546 4748494a4b4c4d4e 01 4f505152 01 00 00 00 00 00 00 00
facs 00 00 00 00 00 02 00
dsdt 02 414243444546 4748494a4b4c4d4e 01 4f505152 01 terms
scope \\_SB_
device VGEN
name ADDR package [ int 00 int 00 ]
end
end
generation a5a5a5a5a5a5a5a5a5a5a5a5a5a5a5a5";

const IN_ANOTHER_SCOPE: &str = "
rsdp 414243444546
xsdt 01 414243444546 4748494a4b4c4d4e 01 4f505152 01
fadt 06 414243444546 4748494a4b4c4d4e 01 4f505152 01 00 00 00 00 00 00 00
facs 00 00 00 00 00 02 00
dsdt 02 414243444546 4748494a4b4c4d4e 01 4f505152 01 terms
scope \\_TZ_
device VGEN
name ADDR package [ int 03ffff80 int 00 ]
end
end";

static IDS: [Change; 3] = [
    ("an id", &[], &[], LED),
    (
        "the last bytes of RAM",
        &[(LOW_HALF, b"\xf0"), (0x3FF_FFF0, &[0xA5; 16])],
        &[DSDT],
        LED_TO_THE_LAST,
    ),
    (
        "another scope",
        &[(SCOPE_NAME, b"_TZ_")],
        &[DSDT],
        IN_ANOTHER_SCOPE,
    ),
];

#[test]
fn ids_of_a_generation(rt: HostRuntime) -> Result<(), Fail> {
    for change in &IDS {
        is_told_with(&rt, rt.alloc(), change)?;
    }
    Ok(())
}

// What is told of the memory with a change.
fn is_told_with(rt: &impl Abort, alloc: Global, change: &Change) -> Result<(), Fail> {
    let mut memory = memory_of(alloc, DUMP)?;
    let told = is_told_of(rt, alloc, &mut memory, change);
    drop(memory);
    told
}

fn is_told_of(
    rt: &impl Abort,
    alloc: Global,
    memory: &mut GuestMemory,
    change: &Change,
) -> Result<(), Fail> {
    let (_, puts, mended, wanted) = change;
    put_all(memory, puts)?;
    mend_all(memory, mended)?;
    is_told(rt, alloc, &Seen(memory), RSDP, wanted)
}
