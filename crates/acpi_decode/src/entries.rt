ghost use Rattle.std.specs.Prelude.{◌≡◌, ◌+◌, ◌-◌, ◌<◌, ◌≤◌, length, map, true, List as ListOf, Some, IfOk, IfErr};
ghost use Rattle.vt_bytes.specs.View.{bytes_in};
ghost use Rattle.vt_layout.specs.Entries.{Entry, Types, EntriesShown};
ghost use Rattle.vt_layout.specs.BadEntries.{least_length, entry_in, AreReadable, IsBadEntry};
ghost use Rattle.acpi_decode.specs.declared.fault.AcpiFault.TheVariants.{BadEntry};
ghost use Rattle.acpi_decode.specs.Seen.{is_ram};
ghost use Rattle.acpi_decode.specs.EntryFaults.{EntryFault};
ghost use Rattle.acpi_decode.specs.EntryHeads.{IsHead, IsGoodLength};

use crate::fault::AcpiFault;
use crate::view::MemView;
use std::alloc::Global;
use vt_outside::{List, OutOfMemory};

/// Reads the entries of one kind of tables, each of a type and a length (ACPI 6.5, 5.2.12 and 5.2.16).
pub(crate) trait EntryReader<E: Drop>: Drop {
    // The shapes of the rows of its types.
    ghost types: { Types };

    // The record that is made of an entry.
    ghost entry: { Entry → E };

    /// Makes a reader, in memory from `alloc`.
    fn new(alloc: Global) -> Result<Self, OutOfMemory>;

    /// Returns how many bytes an entry of the type `kind` has at least, those of its type and its length among them.
    fn least_length(kind: u8) -> u32
        ensures { result ≡ least_length (types kind) };

    /// Reads the entry of the type `kind` and of `total` bytes, whose bytes behind both are `body`.
    fn read(&mut self, kind: u8, total: u8, body: &[u8]) -> Result<E, OutOfMemory>
        requires size { length body.now + 2 ≡ total }
        requires enough { least_length (types kind) ≤ total }
        ensures { IfOk result (λ e. e ≡ entry (entry_in (types kind) kind total body.now)) };

    // Any bytes can be their rows.
    ghost readable: { AreReadable types };
}

/// The type and the length with which an entry begins.
#[derive(Clone, Copy)]
struct EntryHead {
    kind: u8,
    total: u8,
}

// Reads the head of the entry at the address `at`.
fn read_entry_head<V: MemView>(view: &V, at: u64) -> EntryHead
    requires { is_ram (V.seen view.now) at 2 ≡ true }
    ensures { IsHead (V.seen view.now) at result.kind result.total }
{
    let mut bytes = [0; 2];
    view.copy_out(at, &mut bytes);
    let [kind, total] = bytes;
    EntryHead { kind, total }
}

// Returns the length of the entry at the address `at`, where the table has `left` bytes left. `BadEntry` tells that address.
fn next_length<V: MemView, E: Drop, R: EntryReader<E>>(
    view: &V,
    at: u64,
    left: u32,
) -> Result<u32, AcpiFault>
    requires ram { is_ram (V.seen view.now) at left ≡ true }
    requires some { 0 < left }
    ensures good { IfOk result (IsGoodLength R.types (V.seen view.now) at left) }
    ensures bad { IfErr result (λ fault. (fault ≡ BadEntry at) × IsBadEntry R.types (V.seen view.now) at left) }
{
    if left < 2 {
        return Err(AcpiFault::BadEntry(at));
    }
    let head = read_entry_head(view, at);
    let total = u32::from(head.total);
    if total < R::least_length(head.kind) || left < total {
        return Err(AcpiFault::BadEntry(at));
    }
    Ok(total)
}

/// Counts the entries that fill the table at `table` from the offset `front` up to its end. All of its `total` bytes must be RAM.
/// `BadEntry` tells the address of the first entry that is too short or runs past the end.
pub(crate) fn count_entries<V: MemView, E: Drop, R: EntryReader<E>>(
    view: &V,
    table: u64,
    front: u32,
    total: u32,
) -> Result<usize, AcpiFault>
    requires ram { is_ram (V.seen view.now) table total ≡ true }
    requires within { front ≤ total }
    ensures count { IfOk result (λ count. (entries : ListOf Entry)
        × EntriesShown R.types (V.seen view.now) table (table + front) (total - front) entries × (length entries ≡ count)) }
    ensures fault { IfErr result (EntryFault (Some R.types) (V.seen view.now) table (table + front) (total - front)) }
{
    let mut count = 0;
    let mut place = front;
    while place < total {
        place += next_length::<V, E, R>(view, table + u64::from(place), total - place)?;
        count += 1;
    }
    Ok(count)
}

/// Reads the entries that fill the table at `table` from the offset `front` up to its end, of which there must be `count`. All of its
/// `total` bytes must be RAM. The list's memory is taken from `alloc` once, at its size.
pub(crate) fn read_entries<V: MemView, E: Drop, R: EntryReader<E>>(
    alloc: Global,
    view: &V,
    table: u64,
    front: u32,
    total: u32,
    count: usize,
) -> Result<List<E>, OutOfMemory>
    requires ram { is_ram (V.seen view.now) table total ≡ true }
    requires within { front ≤ total }
    requires shown { (entries : ListOf Entry) × EntriesShown R.types (V.seen view.now) table (table + front) (total - front) entries
        × (length entries ≡ count) }
    ensures { IfOk result (λ list. (entries : ListOf Entry)
        × EntriesShown R.types (V.seen view.now) table (table + front) (total - front) entries × (list ≡ map R.entry entries)) }
{
    let mut list = List::with_room(alloc, count)?;
    let mut reader = R::new(alloc)?;
    let mut place = front;
    while place < total {
        let at = table + u64::from(place);
        let head = read_entry_head(view, at);
        list.push(read_body::<V, E, R>(view, &mut reader, at, head)?)?;
        place += u32::from(head.total);
    }
    Ok(list)
}

// Reads the entry at the address `at`, which begins with `head`.
fn read_body<V: MemView, E: Drop, R: EntryReader<E>>(
    view: &V,
    reader: &mut R,
    at: u64,
    head: EntryHead,
) -> Result<E, OutOfMemory>
    requires ram { is_ram (V.seen view.now) at head.total ≡ true }
    requires head { IsHead (V.seen view.now) at head.kind head.total }
    requires enough { least_length (R.types head.kind) ≤ head.total }
    ensures { IfOk result (λ e. (body : ListOf _) × (bytes_in (V.seen view.now) (at + 2) (head.total - 2) ≡ Some body)
        × (e ≡ R.entry (entry_in (R.types head.kind) head.kind head.total body))) }
{
    let mut room = [0; 255];
    let bytes = &mut room[..usize::from(head.total)];
    view.copy_out(at, bytes);
    reader.read(head.kind, head.total, &bytes[2..])
}
