ghost use Rattle.std.specs.Prelude.{◌≡◌, ◌+◌, ◌*◌, ◌<◌, ◌≤◌, ◌++◌, length, vec_len, vec_capacity};
ghost use Rattle.cfg_directory.specs.Listing.{entry_says, listed_in};

use crate::listed::Listed;

/// How many bytes an entry of a directory has.
pub const ENTRY_SIZE: usize = 64;

/// Reads the files that the next `count` entries of a directory list, of which `entries` are the bytes, and puts them behind
/// those in `listed`, in which there is room for them. An entry whose name is none lists nothing. It takes no memory.
pub fn list_entries(count: u32, entries: &[u8], listed: &mut Vec<Listed>)
    requires there { 64 * count ≤ length entries.now }
    requires room { vec_len listed.old + count ≤ vec_capacity listed.old }
    ensures after { listed.new.items ≡ listed.old.items ++ listed_in count entries.now }
    ensures capacity { vec_capacity listed.new ≡ vec_capacity listed.old }
{
    let mut rest = entries;
    for _index in 0..count {
        let (entry, after) = rest.split_at(ENTRY_SIZE);
        list_entry(entry, listed);
        rest = after;
    }
}

// Puts the file that an entry lists behind those in `listed`.
fn list_entry(entry: &[u8], listed: &mut Vec<Listed>)
    requires size { length entry.now ≡ 64 }
    requires room { vec_len listed.old < vec_capacity listed.old }
    ensures after { listed.new.items ≡ listed.old.items ++ entry_says entry.now }
    ensures len { vec_len listed.new ≤ vec_len listed.old + 1 }
    ensures capacity { vec_capacity listed.new ≡ vec_capacity listed.old }
{
    if let Ok(file) = Listed::read(entry) {
        listed.push_reserved(file);
    }
}
