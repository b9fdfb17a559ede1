//! Lists, texts and byte strings.

ghost use Rattle.std.specs.Prelude.{◌≡◌, length, IfOk};

use std::alloc::Global;
use std::fmt::Debug;
use std::process::Abort;
use std::test::Fail;
use vt_outside::{Bytes, List, OutOfMemory, Text};

#[test]
fn lists(rt: HostRuntime) -> Result<(), Fail> {
    let mut list = list_of_three(rt.alloc())?;
    change_list(&rt, &mut list);
    let done = copy_and_cut_list(&rt, &mut list);
    drop(list);
    done?;
    Ok(())
}

fn list_of_three(alloc: Global) -> Result<List<u32>, OutOfMemory>
    ensures { IfOk result (λ list. length list ≡ 3) }
{
    let mut list = List::new(alloc);
    list.push(7)?;
    list.extend(&[8, 9])?;
    Ok(list)
}

fn change_list(rt: &impl Abort, list: &mut List<u32>)
    requires { length list.old ≡ 3 }
    ensures { length list.new ≡ 3 }
{
    assert_eq!(rt; list.len(), 3);
    is_item(rt, list.get(1), &8);
    list.set(1, 5);
    are_items(rt, list.as_slice(), &[7, 5, 9]);
}

fn copy_and_cut_list(rt: &impl Abort, list: &mut List<u32>) -> Result<(), OutOfMemory>
    requires { length list.old ≡ 3 }
{
    let copy = list.copy()?;
    list.cut(2);
    are_items(rt, list.as_slice(), &[7, 5]);
    are_items(rt, copy.as_slice(), &[7, 5, 9]);
    drop(copy);
    Ok(())
}

#[test]
fn texts(rt: HostRuntime) -> Result<(), Fail> {
    let mut text = text_of_three(rt.alloc())?;
    change_text(&rt, &mut text);
    let done = copy_and_cut_text(&rt, &mut text);
    drop(text);
    done?;
    Ok(())
}

fn text_of_three(alloc: Global) -> Result<Text, OutOfMemory>
    ensures { IfOk result (λ text. length text ≡ 3) }
{
    let mut text = Text::new(alloc);
    text.extend(b"vn")?;
    text.push(b'!')?;
    Ok(text)
}

fn change_text(rt: &impl Abort, text: &mut Text)
    requires { length text.old ≡ 3 }
    ensures { length text.new ≡ 3 }
{
    assert_eq!(rt; text.len(), 3);
    is_item(rt, text.get(2), &b'!');
    text.set(1, b'm');
    are_items(rt, text.as_slice(), b"vm!");
}

fn copy_and_cut_text(rt: &impl Abort, text: &mut Text) -> Result<(), OutOfMemory>
    requires { length text.old ≡ 3 }
{
    let copy = text.copy()?;
    text.cut(2);
    are_items(rt, text.as_slice(), b"vm");
    are_items(rt, copy.as_slice(), b"vm!");
    drop(copy);
    Ok(())
}

#[test]
fn byte_strings(rt: HostRuntime) -> Result<(), Fail> {
    let mut bytes = bytes_of_three(rt.alloc())?;
    change_bytes(&rt, &mut bytes);
    let done = copy_and_cut_bytes(&rt, &mut bytes);
    drop(bytes);
    done?;
    Ok(())
}

fn bytes_of_three(alloc: Global) -> Result<Bytes, OutOfMemory>
    ensures { IfOk result (λ bytes. length bytes ≡ 3) }
{
    let mut bytes = Bytes::new(alloc);
    bytes.extend(&[1, 2])?;
    bytes.push(255)?;
    Ok(bytes)
}

fn change_bytes(rt: &impl Abort, bytes: &mut Bytes)
    requires { length bytes.old ≡ 3 }
    ensures { length bytes.new ≡ 3 }
{
    assert_eq!(rt; bytes.len(), 3);
    is_item(rt, bytes.get(2), &255);
    bytes.set(1, 0);
    are_items(rt, bytes.as_slice(), &[1, 0, 255]);
}

fn copy_and_cut_bytes(rt: &impl Abort, bytes: &mut Bytes) -> Result<(), OutOfMemory>
    requires { length bytes.old ≡ 3 }
{
    let copy = bytes.copy()?;
    bytes.cut(2);
    are_items(rt, bytes.as_slice(), &[1, 0]);
    are_items(rt, copy.as_slice(), &[1, 0, 255]);
    drop(copy);
    Ok(())
}

#[test]
fn lists_with_room(rt: HostRuntime) -> Result<(), Fail> {
    let list = list_with_room(rt.alloc())?;
    are_items(&rt, list.as_slice(), &[7, 8]);
    drop(list);
    let bytes = bytes_with_room(rt.alloc())?;
    are_items(&rt, bytes.as_slice(), b"vm");
    drop(bytes);
    Ok(())
}

fn list_with_room(alloc: Global) -> Result<List<u32>, OutOfMemory> {
    let mut list = List::with_room(alloc, 2)?;
    list.extend(&[7, 8])?;
    Ok(list)
}

fn bytes_with_room(alloc: Global) -> Result<Bytes, OutOfMemory> {
    let mut bytes = Bytes::with_room(alloc, 2)?;
    bytes.extend(b"vm")?;
    Ok(bytes)
}

fn is_item<T: Debug + PartialEq>(rt: &impl Abort, is: &T, wanted: &T) {
    assert_eq!(rt; *is, *wanted);
}

fn are_items<T: Debug + PartialEq>(rt: &impl Abort, are: &[T], wanted: &[T]) {
    assert_eq!(rt; are, wanted);
}
