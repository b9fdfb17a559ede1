//! Scripts of as many bytes as one may have, 1,048,576, which are 8,192 commands, and of one command more. QEMU pads a script with
//! commands of the number 0 (hw/acpi/bios-linker-loader.c).

ghost use Rattle.std.specs.Prelude.{OnOk, IfOk};
ghost use Rattle.std.specs.List.{AllByRecursion};
ghost use Rattle.loader_script.specs.Spelling.{CanBeWritten};

use loader_script::{Entry, ScriptFault, decode_script, encode_script};
use std::alloc::Global;
use std::process::Abort;
use std::test::Fail;
use vt_outside::{Bytes, List, OutOfMemory};

// How many commands a script may have.
const COMMANDS: usize = 8192;

#[test]
fn the_longest_script_is_read(rt: HostRuntime) -> Result<(), Fail> {
    let bytes = zeros(rt.alloc(), COMMANDS)?;
    are_padding(&rt, rt.alloc(), bytes.as_slice())?;
    Ok(())
}

// The bytes are read as the longest script, each of whose commands changes nothing.
fn are_padding(rt: &impl Abort, alloc: Global, bytes: &[u8]) -> Result<(), ScriptFault> {
    let script = decode_script(alloc, bytes)?;
    assert_eq!(rt; script.len(), COMMANDS);
    for entry in script.as_slice() {
        assert!(rt; matches!(entry, Entry::Skipped(0)));
    }
    Ok(())
}

#[test]
fn one_command_more(rt: HostRuntime) -> Result<(), Fail> {
    let bytes = zeros(rt.alloc(), COMMANDS + 1)?;
    assert!(rt;
        matches!(
            decode_script(rt.alloc(), bytes.as_slice()),
            Err(ScriptFault::ScriptLength)
        )
    );
    Ok(())
}

#[test]
fn the_longest_script_is_written(rt: HostRuntime) -> Result<(), Fail> {
    let bytes = zeros(rt.alloc(), COMMANDS)?;
    let script = padding(rt.alloc())?;
    let written = encode_script(rt.alloc(), script.as_slice())?;
    assert!(rt; written.as_slice() == bytes.as_slice());
    Ok(())
}

// The longest script, each of whose commands changes nothing.
fn padding(alloc: Global) -> Result<List<Entry>, OutOfMemory>
    ensures { IfOk result (λ script. AllByRecursion CanBeWritten script) }
{
    let mut script = List::new(alloc);
    for _ in 0..COMMANDS {
        push_padding(&mut script)?;
    }
    Ok(script)
}

fn push_padding(script: &mut List<Entry>) -> Result<(), OutOfMemory>
    requires { AllByRecursion CanBeWritten script.old }
    ensures { OnOk result (AllByRecursion CanBeWritten script.new) }
{
    script.push(Entry::Skipped(0))
}

// So many commands of zeros.
fn zeros(alloc: Global, commands: usize) -> Result<Bytes, OutOfMemory> {
    let mut bytes = Bytes::new(alloc);
    for _ in 0..commands {
        bytes.extend(&[0; 128])?;
    }
    Ok(bytes)
}
