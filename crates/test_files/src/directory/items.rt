//! The files of a device, by name and by selector, bytes that are written into one or added at its end, and a copy of all.

ghost use Rattle.std.specs.Prelude.{◌≡◌, ◌+◌, ◌<◌, [], length, IfOk, OnOk};
ghost use Rattle.test_files.specs.Filled.{HasFiles};

use crate::directory::containers::are_bytes;
use cfg_directory::{Item, Items};
use std::alloc::Global;
use std::process::Abort;
use std::test::Fail;
use vt_outside::{Bytes, Name, OutOfMemory};

#[test]
fn files_by_name_and_selector(rt: HostRuntime) -> Result<(), Fail> {
    let (first, second) = (Name::of("etc/a")?, Name::of("etc/ab")?);
    let bytes = five_bytes(rt.alloc())?;
    let mut items = Items::new(rt.alloc());
    let done = is_added(&rt, &mut items, &first, &second, bytes);
    drop(items);
    done
}

// The first file that is added, a byte of which is then written.
fn is_added(
    rt: &impl Abort,
    items: &mut Items,
    first: &Name,
    second: &Name,
    bytes: Bytes,
) -> Result<(), Fail>
    requires none { items.old ≡ [] }
    requires five { length bytes ≡ 5 }
{
    assert_eq!(rt; items.add(*first, true, bytes)?, 0x20);
    items.write_at(0x20, 1, &[9, 8]);
    is_found(rt, items, first, second);
    is_selected(rt, items, first);
    Ok(())
}

// The file that was added is found by its name, and no other.
fn is_found(rt: &impl Abort, items: &Items, first: &Name, second: &Name) {
    match items.find(first) {
        Some(item) => is_the_file(rt, item),
        None => panic!(rt; "the file that was added isn't found"),
    }
    assert!(rt; items.find(second).is_none());
}

fn is_the_file(rt: &impl Abort, item: &Item) {
    assert_eq!(rt; (item.select, item.writable), (0x20, true));
    are_bytes(rt, "the file", item.bytes.as_slice(), &[7, 9, 8, 7, 7]);
}

// It is found by its selector, and no other.
fn is_selected(rt: &impl Abort, items: &Items, first: &Name) {
    match items.by_select(0x20) {
        Some(item) => assert!(rt; item.name == *first),
        None => panic!(rt; "the file that was added isn't found"),
    }
    assert!(rt; items.by_select(0x21).is_none());
}

fn five_bytes(alloc: Global) -> Result<Bytes, OutOfMemory>
    ensures { IfOk result (λ bytes. length bytes ≡ 5) }
{
    let mut bytes = Bytes::new(alloc);
    bytes.extend(&[7; 5])?;
    Ok(bytes)
}

#[test]
fn a_file_with_a_selector(rt: HostRuntime) -> Result<(), Fail> {
    let name = Name::of("etc/table-loader")?;
    let mut items = Items::new(rt.alloc());
    let added = items.add_at(name, 0x3FFF, true, Bytes::new(rt.alloc()));
    is_the_only_file(&rt, &items, &name);
    drop(items);
    added?;
    Ok(())
}

// The file has the selector that it was given, may be written and has no bytes, and no other has the first selector.
fn is_the_only_file(rt: &impl Abort, items: &Items, name: &Name) {
    match items.by_select(0x3FFF) {
        Some(item) => is_empty(rt, item, name),
        None => panic!(rt; "the file that was added isn't found"),
    }
    assert!(rt; items.by_select(0x20).is_none());
}

fn is_empty(rt: &impl Abort, item: &Item, name: &Name) {
    assert!(rt; item.name == *name);
    assert_eq!(rt; (item.writable, item.bytes.len()), (true, 0));
}

#[test]
fn the_second_of_three_files_extended(rt: HostRuntime) -> Result<(), Fail> {
    let mut items = Items::new(rt.alloc());
    let done = is_extended(&rt, rt.alloc(), &mut items);
    drop(items);
    done
}

// The bytes stand behind its own. The files beside it stay.
fn is_extended(rt: &impl Abort, alloc: Global, items: &mut Items) -> Result<(), Fail>
    requires none { items.old ≡ [] }
{
    add_pairs(alloc, items)?;
    extend_second(rt, items)?;
    are_the_pairs(rt, items, &[3, 4, 7, 8, 9])
}

fn extend_second(rt: &impl Abort, items: &mut Items) -> Result<(), OutOfMemory>
    requires files { HasFiles items.old 3 2 }
{
    assert!(rt; items.by_select(0x21).is_some());
    items.extend(0x21, &[7, 8, 9])
}

#[test]
fn a_copy_of_three_files(rt: HostRuntime) -> Result<(), Fail> {
    let mut items = Items::new(rt.alloc());
    let done = is_copied(&rt, rt.alloc(), &mut items);
    drop(items);
    done
}

// The copy holds what the files held, and goes on holding it where one of them is extended.
fn is_copied(rt: &impl Abort, alloc: Global, items: &mut Items) -> Result<(), Fail>
    requires none { items.old ≡ [] }
{
    add_pairs(alloc, items)?;
    let copy = items.copy(alloc)?;
    let extended = extend_second(rt, items);
    let done = are_the_pairs(rt, &copy, &[3, 4]);
    drop(copy);
    done?;
    Ok(extended?)
}

// Three files of two bytes each.
static PAIRS: [(&str, [u8; 2]); 3] = [("etc/a", [1, 2]), ("etc/b", [3, 4]), ("etc/c", [5, 6])];

fn add_pairs(alloc: Global, items: &mut Items) -> Result<(), Fail>
    requires none { items.old ≡ [] }
    ensures { OnOk result (HasFiles items.new 3 2) }
{
    for number in 0..3 {
        add_pair(alloc, items, number)?;
    }
    Ok(())
}

// Adds the file of a number, unless its name is another's.
#[tactic(auto, using(crate::proofs::Filled::none_named))]
fn add_pair(alloc: Global, items: &mut Items, number: usize) -> Result<(), Fail>
    requires few { number < 3 }
    requires files { HasFiles items.old number 2 }
    ensures { OnOk result (HasFiles items.new (number + 1) 2) }
{
    let (name, pair) = PAIRS[number];
    let name = Name::of(name)?;
    if items.find(&name).is_some() {
        return Err(Fail::from("a name that is another's"));
    }
    let bytes = two_bytes(alloc, pair)?;
    items.add(name, false, bytes)?;
    Ok(())
}

fn two_bytes(alloc: Global, pair: [u8; 2]) -> Result<Bytes, OutOfMemory>
    ensures { IfOk result (λ bytes. length bytes ≡ 2) }
{
    let mut bytes = Bytes::new(alloc);
    bytes.extend(&pair)?;
    Ok(bytes)
}

// The files are the three, the second of which holds these bytes.
fn are_the_pairs(rt: &impl Abort, items: &Items, second: &[u8]) -> Result<(), Fail> {
    let [a, b, c] = items.all() else {
        panic!(rt; "not three files");
    };
    is_the_pair(rt, a, &Name::of("etc/a")?, 0x20, &[1, 2]);
    is_the_pair(rt, b, &Name::of("etc/b")?, 0x21, second);
    is_the_pair(rt, c, &Name::of("etc/c")?, 0x22, &[5, 6]);
    Ok(())
}

fn is_the_pair(rt: &impl Abort, item: &Item, name: &Name, select: u16, bytes: &[u8]) {
    assert!(rt; item.name == *name);
    assert_eq!(rt; (item.select, item.writable), (select, false));
    are_bytes(rt, "one of three files", item.bytes.as_slice(), bytes);
}
