//! SMBIOS structures and their anchor as bytes, which were made by hand from DSP0134, 5.2.2, 6.1 and 7.2.

ghost use Rattle.std.specs.Prelude.{◌≡◌, ◌<◌, ◌≤◌, ◌+◌, [], ◌∷◌, length, IfOk, OnOk};
ghost use Rattle.vt_layout.specs.Strings.{HasNoNul};
ghost use Rattle.smbios_build.specs.Buildable.{IsRaw, AreBuildable};
ghost use Rattle.test_machines.specs.Unended.{AreUnended};

use crate::tables::built::{are_built, is, structures_of_sketch, text_of};
use fixtures::{MINIMAL_MACHINE, Sketch, copy_of};
use smbios_build::{SmbiosBuildFault, StringSet, build_anchor, build_smbios};
use smbios_model::{Body, Structure};
use std::alloc::Global;
use std::process::Abort;
use std::test::Fail;
use vt_outside::{Bytes, List, OutOfMemory, Text};

// System Information of the minimal machine, whose texts are `ACME` and `VM`, and the end.
const MINIMAL_STRUCTURES: &[u8] = b"\x01\x1b\x00\x01\x01\x02\x00\x00\
    \x33\x22\x11\x00\x55\x44\x77\x66\x88\x99\xaa\xbb\xcc\xdd\xee\xff\
    \x06\x00\x00ACME\0VM\0\0\x7f\x04\x00\x7f\0\0";

// A structure of type 200 with two bytes and one string, and the end.
const RAW_STRUCTURES: &[u8] = b"\xc8\x06\x01\x02\x09\x08ab\0\0\x7f\x04\x00\x7f\0\0";

// The anchor of 64 bytes of structures, with zeros for its checksum and their address.
const ANCHOR: [u8; 24] = *b"_SM3_\0\x18\x03\0\0\x01\0\x40\0\0\0\0\0\0\0\0\0\0\0";

// That of the structures of the minimal machine.
const MINIMAL_ANCHOR: [u8; 24] = *b"_SM3_\0\x18\x03\0\0\x01\0\x2a\0\0\0\0\0\0\0\0\0\0\0";

// A static, since a constant is made anew in the proof of whoever lends it.
static MINIMAL: Sketch = MINIMAL_MACHINE;

#[test]
fn structures_of_a_machine(rt: HostRuntime) -> Result<(), Fail> {
    let structures = structures_of_sketch(rt.alloc(), &MINIMAL)?;
    are_built(&rt, rt.alloc(), structures.as_slice(), MINIMAL_STRUCTURES);
    Ok(())
}

#[test]
fn a_raw_structure(rt: HostRuntime) -> Result<(), Fail> {
    let structures = raw_and_end(rt.alloc())?;
    are_built(&rt, rt.alloc(), structures.as_slice(), RAW_STRUCTURES);
    Ok(())
}

fn raw_and_end(alloc: Global) -> Result<List<Structure>, OutOfMemory>
    ensures { IfOk result (λ structures. AreBuildable structures) }
{
    let mut structures = List::new(alloc);
    push_small(alloc, &mut structures)?;
    push_end(&mut structures)?;
    Ok(structures)
}

// Appends a structure of two bytes and one string.
fn push_small(alloc: Global, structures: &mut List<Structure>) -> Result<(), OutOfMemory>
    requires { AreUnended structures.old }
    ensures { OnOk result (AreUnended structures.new) }
{
    let area = copy_of(alloc, &[9, 8])?;
    let strings = one_text(alloc, &[b'a', b'b'])?;
    push_raw(structures, area, strings)
}

// More than 4,194,304 bytes.
#[test]
fn too_many_structures(rt: HostRuntime) -> Result<(), Fail> {
    let structures = many_and_end(rt.alloc())?;
    are_too_large(&rt, rt.alloc(), structures.as_slice());
    Ok(())
}

fn are_too_large(rt: &impl Abort, alloc: Global, structures: &[Structure])
    requires { AreBuildable structures.now }
{
    let built = build_smbios(alloc, structures);
    assert!(rt; matches!(built, Err(SmbiosBuildFault::TableTooLarge)));
}

// 70,000 structures of 66 bytes, and the end.
fn many_and_end(alloc: Global) -> Result<List<Structure>, OutOfMemory>
    ensures { IfOk result (λ structures. AreBuildable structures) }
{
    let mut structures = List::new(alloc);
    for _ in 0..70_000 {
        push_wide(alloc, &mut structures)?;
    }
    push_end(&mut structures)?;
    Ok(structures)
}

// Appends a structure of 60 bytes and no string.
fn push_wide(alloc: Global, structures: &mut List<Structure>) -> Result<(), OutOfMemory>
    requires { AreUnended structures.old }
    ensures { OnOk result (AreUnended structures.new) }
{
    let area = copy_of(alloc, &[7; 60])?;
    push_raw(structures, area, List::new(alloc))
}

// Appends a structure of type 200.
fn push_raw(
    structures: &mut List<Structure>,
    area: Bytes,
    strings: List<Text>,
) -> Result<(), OutOfMemory>
    requires raw { IsRaw 200 area strings }
    requires unended { AreUnended structures.old }
    ensures { OnOk result (AreUnended structures.new) }
{
    structures.push(Structure {
        handle: 0x0201,
        body: Body::Raw {
            kind: 200,
            area,
            strings,
        },
    })
}

#[tactic(auto, using(crate::proofs::Ended::ended))]
fn push_end(structures: &mut List<Structure>) -> Result<(), OutOfMemory>
    requires { AreUnended structures.old }
    ensures { OnOk result (AreBuildable structures.new) }
{
    structures.push(Structure {
        handle: 0x7F00,
        body: Body::End,
    })
}

#[test]
fn numbers_of_strings(rt: HostRuntime) -> Result<(), Fail> {
    let numbers = numbers(rt.alloc())?;
    is(&rt, &numbers, &[0, 1, 0, 2]);
    Ok(())
}

fn numbers(alloc: Global) -> Result<[u8; 4], OutOfMemory> {
    let mut strings = StringSet::new(alloc);
    let numbers = add_each(alloc, &mut strings);
    drop(strings);
    numbers
}

// No text, a text, no text again, and another text.
fn add_each(alloc: Global, strings: &mut StringSet) -> Result<[u8; 4], OutOfMemory>
    requires { length strings.old ≡ 0 }
{
    let none = add(alloc, strings, &[])?;
    let first = add(alloc, strings, &[b'A'])?;
    let none_again = add(alloc, strings, &[])?;
    let second = add(alloc, strings, &[b'B', b'C'])?;
    Ok([none, first, none_again, second])
}

fn add(alloc: Global, strings: &mut StringSet, text: &[u8]) -> Result<u8, OutOfMemory>
    requires few { length strings.old < 255 }
    requires no_nul { HasNoNul text.now }
    ensures { OnOk result (length strings.new ≤ length strings.old + 1) }
{
    strings.add(&text_of(alloc, text)?)
}

#[test]
fn anchors(rt: HostRuntime) {
    is(&rt, &build_anchor(0x40), &ANCHOR);
    is(&rt, &build_anchor(0x2A), &MINIMAL_ANCHOR);
}

// The byte that makes the anchor of 64 bytes at 0x03000000 sum to zero.
#[test]
fn the_checksum_of_an_anchor(rt: HostRuntime) {
    let mut anchor = build_anchor(0x40);
    anchor[19] = 0x03;
    let sum = anchor
        .iter()
        .fold(0_u8, |sum, byte| sum.wrapping_add(*byte));
    is(&rt, &sum.wrapping_neg(), &0x10);
}

fn one_text(alloc: Global, text: &[u8]) -> Result<List<Text>, OutOfMemory>
    ensures { IfOk result (λ texts. texts ≡ text.now ∷ []) }
{
    let mut texts = List::new(alloc);
    texts.push(text_of(alloc, text)?)?;
    Ok(texts)
}
