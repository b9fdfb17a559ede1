//! The entries and the flags of a container, each read from the front of what is left.

ghost use Rattle.std.specs.Prelude.{◌≡◌, ◌≢◌, ◌==◌, ◌*◌, ◌≤◌, Ok, Err, IfOk, length, drop, map, nat_lt, sum_by};
ghost use Rattle.std.specs.List.{list_any, position};
ghost use Rattle.std.specs.Str.{bytes_eq};
ghost use Rattle.vt_outside.specs.Readings.{Agrees};
ghost use Rattle.cfg_directory.specs.declared.container.ImageFault.TheVariants.{OutOfMemory as NoMemory};
ghost use Rattle.cfg_directory.specs.Items.{file_limit};
ghost use Rattle.cfg_directory.specs.Container.{listed_so, entry_so, reported};
ghost use Rattle.cfg_directory.specs.Parts.{is_set, directory_at, flags_at};

use crate::container::ImageFault;
use crate::listed::Listed;
use crate::listing::ENTRY_SIZE;
use std::alloc::Global;
use vt_outside::{List, Name};

/// Reads what so many entries say. They must all be there before any is read.
pub(crate) fn read_directory(
    alloc: Global,
    count: u32,
    bytes: &[u8],
) -> Result<(List<Listed>, &[u8]), ImageFault>
    requires { count ≤ file_limit }
    ensures exact { Agrees reported (λ x. (x.0, x.1.now)) result (directory_at count bytes.now) }
    ensures count { IfOk result (λ x. length x.0 ≡ count) }
    ensures there { IfOk result (λ _. 64 * count ≤ length bytes.now) }
    ensures rest { IfOk result (λ x. x.1.now ≡ drop (64 * count) bytes.now) }
    ensures no_memory { result ≡ Err NoMemory → 64 * count ≤ length bytes.now }
{
    if bytes.len() < ENTRY_SIZE * count as usize {
        return Err(ImageFault::Truncated);
    }
    let mut listed = List::new(alloc);
    let mut rest = bytes;
    for index in 0..count {
        let (entry, after) = rest.split_at(ENTRY_SIZE);
        let entry = read_entry(index, listed.as_slice(), entry)?;
        listed.push(entry)?;
        rest = after;
    }
    Ok((listed, rest))
}

// What an entry at an index says, behind these.
#[tactic(auto, unfolding(crate::specs::Container::entry_so))]
fn read_entry(index: u32, before: &[Listed], entry: &[u8]) -> Result<Listed, ImageFault>
    requires { length entry.now ≡ 64 }
    ensures exact { Agrees reported (λ listed. listed) result (entry_so index before.now entry.now) }
    ensures sure { result ≢ Err NoMemory }
{
    let Ok(listed) = Listed::read(entry) else {
        return Err(ImageFault::BadName(index));
    };
    checked(index, before, listed)
}

// What an entry at an index says, unless it may not stand behind these.
fn checked(index: u32, before: &[Listed], listed: Listed) -> Result<Listed, ImageFault>
    ensures { result ≡ listed_so index before.now listed.size listed.select (Ok listed.name) }
{
    if is_named(before, &listed.name) {
        return Err(ImageFault::TwiceNamed(index));
    }
    if !(0x20..=0x3FFF).contains(&listed.select) {
        return Err(ImageFault::BadSelect(index));
    }
    if is_selected(before, listed.select) {
        return Err(ImageFault::TwiceSelected(index));
    }
    Ok(listed)
}

// Whether an entry has the name.
fn is_named(listed: &[Listed], name: &Name) -> bool
    ensures { result ≡ list_any (λ other. bytes_eq other.name name.now) listed.now }
{
    listed.iter().any(|other| other.name == *name)
}

// Whether an entry has the selector.
fn is_selected(listed: &[Listed], select: u16) -> bool
    ensures { result ≡ list_any (λ other. other.select == select) listed.now }
{
    listed.iter().any(|other| other.select == select)
}

/// Reads the flags of so many files.
#[tactic(auto, unfolding(crate::specs::Parts::flags_at))]
pub(crate) fn read_flags(count: u32, bytes: &[u8]) -> Result<(&[u8], &[u8]), ImageFault>
    ensures exact { Agrees reported (λ x. (map is_set x.0.now, x.1.now)) result (flags_at count bytes.now) }
    ensures count { IfOk result (λ x. length x.0.now ≡ count) }
    ensures there { IfOk result (λ _. count ≤ length bytes.now) }
    ensures rest { IfOk result (λ x. x.1.now ≡ drop count bytes.now) }
    ensures sure { result ≢ Err NoMemory }
{
    if bytes.len() < count as usize {
        return Err(ImageFault::Truncated);
    }
    let (flags, rest) = bytes.split_at(count as usize);
    if let Some(index) = bad_flag(flags) {
        return Err(ImageFault::BadFlag(index as u32));
    }
    Ok((flags, rest))
}

// Where the first flag is that is neither 0 nor 1.
fn bad_flag(flags: &[u8]) -> Option<usize>
    ensures { result ≡ position (nat_lt 1) flags.now }
{
    flags.iter().position(|flag| *flag > 1)
}

/// Returns how many bytes files have in all.
pub(crate) fn total_of(listed: &[Listed]) -> u64
    requires { length listed.now ≤ file_limit }
    ensures { result ≡ sum_by (λ l. l.size) listed.now }
{
    listed.iter().map(|entry| u64::from(entry.size)).sum()
}
