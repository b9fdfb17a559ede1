//! As many commands as a script may have: one that places a file, and 8,191 that each write the place of another byte of it.

use crate::files::{File, LOADER, items_with};
use crate::rig::Transfer::{self, Read, Skip, Write};
use crate::rig::{Content, End, Held, ends_without_events};
use crate::scripts::Line::{Allocate, WritePointer};
use crate::scripts::{HIGH, put_line};
use cfg_directory::Items;
use std::alloc::Global;
use std::process::Abort;
use std::test::Fail;
use vt_outside::{Bytes, List, OutOfMemory};

// How many numbers are written, each of 4 bytes, one behind the other.
const COUNT: u32 = 8191;

#[test]
fn as_many_writes_as_there_may_be(rt: HostRuntime) -> Result<(), Fail> {
    let items = most_items(rt.alloc())?;
    let transfers = most_transfers(rt.alloc())?;
    let numbers = numbers_written(rt.alloc())?;
    all_are_done(
        &rt,
        rt.alloc(),
        items,
        transfers.as_slice(),
        numbers.as_slice(),
    )
}

fn all_are_done(
    rt: &impl Abort,
    alloc: Global,
    items: Items,
    transfers: &[Transfer],
    numbers: &[u8],
) -> Result<(), Fail> {
    let end = End {
        answer: Ok(()),
        transfers,
        contents: &[Content(0x20, numbers)],
        left: &[
            Held(0x300_0000, &[0; 4096]),
            Held(0x300_1000, &[0; 4095]),
            Held(0x300_1FFF, b"\xa5"),
        ],
        others: false,
    };
    ends_without_events(rt, alloc, items, &[], &end)
}

// The files: one for the numbers, and one that they point into, both of zeros.
fn most_items(alloc: Global) -> Result<Items, Fail> {
    let script = most_lines(alloc)?;
    let zeros = vec![in alloc; 0; 4 * COUNT as usize]?;
    items_with_zeros(alloc, script.as_slice(), &zeros)
}

fn items_with_zeros(alloc: Global, script: &[u8], zeros: &[u8]) -> Result<Items, Fail> {
    let numbers = File {
        name: "etc/numbers",
        writable: true,
        bytes: zeros,
    };
    let marks = File {
        name: "etc/marks",
        writable: false,
        bytes: &zeros[..zeros.len() / 4],
    };
    let loader = File {
        name: LOADER,
        writable: false,
        bytes: script,
    };
    items_with(alloc, &[numbers, marks], 0, &[loader])
}

fn most_lines(alloc: Global) -> Result<Bytes, Fail> {
    let mut script = Bytes::new(alloc);
    put_line(alloc, &mut script, &Allocate("etc/marks", 1, HIGH))?;
    for number in 0..COUNT {
        put_line(
            alloc,
            &mut script,
            &WritePointer("etc/numbers", "etc/marks", 4 * number, number, 4),
        )?;
    }
    Ok(script)
}

// The entries of three files, 256 reads of the script, the read of the file that is placed, and two transfers for each number.
fn most_transfers(alloc: Global) -> Result<List<Transfer>, OutOfMemory> {
    let mut transfers = List::new(alloc);
    transfers.push(Read(0x19, 0, 4, 0x8000))?;
    transfers.push(Read(0x19, 4, 192, 0x8000))?;
    for part in 0..256 {
        transfers.push(Read(0x22, 4096 * part, 4096, 0x8000))?;
    }
    transfers.push(Read(0x21, 0, COUNT, 0x300_0000))?;
    put_writes(&mut transfers)?;
    Ok(transfers)
}

fn put_writes(transfers: &mut List<Transfer>) -> Result<(), OutOfMemory> {
    for number in 0..COUNT {
        transfers.push(Skip(0x20, 4 * number))?;
        transfers.push(Write(0x20, 4 * number, 4))?;
    }
    Ok(())
}

// From 0x3000000 to 0x3001FFE, each low byte first.
fn numbers_written(alloc: Global) -> Result<Bytes, OutOfMemory> {
    let mut numbers = Bytes::new(alloc);
    for number in 0..COUNT {
        numbers.extend(&(0x300_0000 + number).to_le_bytes())?;
    }
    Ok(numbers)
}
