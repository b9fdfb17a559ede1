ghost use Rattle.std.specs.Prelude.{◌≡◌, ◌≤◌, ◌<◌, ◌-◌, ◌^◌, length, IfOk};
ghost use Rattle.load_states.specs.Moves.{script_size, most_commands, most_transfers, pieces_of};
ghost use Rattle.command_acts.specs.Script.{script_in};

use crate::guest::BUFFER_BYTES;
use cfg_directory::{ENTRY_SIZE, Items};
use loader_script::{ENTRY_BYTES, LONGEST_SCRIPT, loader_name};

/// Returns how many transfers a load of items makes at most.
pub(crate) fn most_transfers(items: &Items) -> u32
    ensures { result ≡ most_transfers items.now }
{
    let files = items.all().len() as u32;
    let commands = most_commands(items);
    1 + pieces_of(ENTRY_SIZE as u32 * files) + pieces_of(script_size(items)) + 2 * commands
}

/// Returns how many commands the script of items has at most.
pub(crate) fn most_commands(items: &Items) -> u32
    ensures value { result ≡ most_commands items.now }
    ensures small { result ≤ 8192 }
{
    script_size(items).min(LONGEST_SCRIPT as u32) / ENTRY_BYTES as u32
}

/// Returns a number of commands that no script of the items exceeds.
pub(crate) fn script_len(items: &Items) -> usize
    ensures { IfOk (script_in items.now) (λ script. length script ≤ result) }
{
    most_commands(items) as usize
}

// How many bytes the file of the script has, if there is one.
fn script_size(items: &Items) -> u32
    ensures size { result ≡ script_size items.now }
    ensures small { result < 2 ^ 32 - 4096 }
{
    // That the files are few and small is said where they are lent.
    let _items = items.all();
    match items.find(&loader_name()) {
        Some(item) => item.bytes.len() as u32,
        None => 0,
    }
}

// How many reads so many bytes take through the buffer.
fn pieces_of(size: u32) -> u32
    requires { size < 2 ^ 32 - 4096 }
    ensures value { result ≡ pieces_of size }
{
    (size + (BUFFER_BYTES - 1)) / BUFFER_BYTES
}
