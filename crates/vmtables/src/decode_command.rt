ghost use Rattle.std.specs.Prelude.{◌≡◌, ◌≢◌, ◌≤◌, ◌<◌, ◌^◌, length, Err, IfErr, IfOk};
ghost use Rattle.machine_desc.specs.Fields.{HasFittingFields};
ghost use Rattle.machine_desc.specs.Rules.{IsAccepted};
ghost use Rattle.table_describe.specs.Failing.{IsFirstFailing};
ghost use Rattle.table_model.specs.declared.search.Search.{Search};
ghost use Rattle.table_model.specs.Inventory.{inventory_of};
ghost use Rattle.vt_bytes.specs.Memory.{IsMemory};
ghost use Rattle.guest_memory.specs.Bytes.{HoldsBytes};
ghost use Rattle.memory_dump.specs.Dump.{dump};
ghost use Rattle.vmtables.specs.Calls.{ReadsAll, Ran, Seen, Streams};
ghost use Rattle.vmtables.specs.Decode.{DecodeMakes, ListMakes, DumpShows, IsDescriptionOf, CannotBeListed, CannotBeTold, search_for};
ghost use Rattle.vmtables.specs.Outcome.{faulty_line, input_limit, status_of};

use crate::fault::Fault;
use crate::input::read_to_end;
use crate::writing::{write_list, write_text};
use anchor_scan::scan_by;
use desc_toml::write_machine;
use guest_memory::GuestMemory;
use machine_desc::Machine;
use machine_desc::laws::numbers_of_a_machine_fit;
use memory_dump::{DumpFault, read_dump, whole_lines};
use std::alloc::Global;
use table_describe::describe;
use table_model::{Inventory, Search};
use vt_outside::{Bytes, Sink, Source};
use vt_words::Sought;

/// Returns the search of a list by what its options say.
pub(crate) fn search_for(sought: Sought) -> Search
    ensures { result ≡ search_for sought }
{
    match sought {
        Sought::One { legacy, smbios2 } => Search::of(legacy, smbios2),
        Sought::Any => Search::any(),
    }
}

/// Reads a dump, and writes the list of what its memory shows from its anchors, by the search `search` for them.
pub(crate) fn list<S: Source, K: Sink>(
    alloc: Global,
    search: Search,
    source: &mut S,
    out: &mut K,
) -> Result<(), Fault>
    ensures ran { (seen : Seen) → Ran (ReadsAll (ListMakes search) seen seen) result
        (S.seen source.old) (S.seen source.new) (K.seen out.old) (K.seen out.new) }
    ensures known { result ≢ Err Fault.Usage }
    ensures streams { Streams (status_of result)
        (S.seen source.old) (S.seen source.new) (K.seen out.old) (K.seen out.new) }
{
    let bytes = read_to_end(alloc, source)?;
    let inventory = inventory_in(alloc, search, bytes)?;
    let written = write_list(&inventory, out);
    drop(inventory);
    written
}

/// Reads a dump, and writes the description of the machine that its memory shows from its anchors, by the search `search` for them.
pub(crate) fn decode<S: Source, K: Sink>(
    alloc: Global,
    search: Search,
    source: &mut S,
    out: &mut K,
) -> Result<(), Fault>
    ensures ran { (seen : Seen) → Ran (ReadsAll (DecodeMakes search) seen seen) result
        (S.seen source.old) (S.seen source.new) (K.seen out.old) (K.seen out.new) }
    ensures known { result ≢ Err Fault.Usage }
    ensures streams { Streams (status_of result)
        (S.seen source.old) (S.seen source.new) (K.seen out.old) (K.seen out.new) }
{
    let bytes = read_to_end(alloc, source)?;
    let text = description_in(alloc, search, bytes)?;
    write_text(text.as_slice(), out)
}

// The description of the machine that the memory shows of which these bytes are the dump.
fn description_in(alloc: Global, search: Search, bytes: Bytes) -> Result<Bytes, Fault>
    requires { length bytes ≤ input_limit }
    ensures ok { IfOk result (λ text. (machine : _) × IsAccepted machine × HasFittingFields machine × DumpShows search bytes (inventory_of machine)
        × IsDescriptionOf machine text) }
    ensures err { IfErr result (CannotBeTold search bytes) }
{
    let machine = machine_in(alloc, search, bytes)?;
    numbers_of_a_machine_fit(&machine);
    let text = write_machine(alloc, &machine);
    drop(machine);
    Ok(text?)
}

// The machine that the memory shows of which these bytes are the dump.
fn machine_in(alloc: Global, search: Search, bytes: Bytes) -> Result<Machine, Fault>
    requires { length bytes ≤ input_limit }
    ensures accepted { IfOk result IsAccepted }
    ensures shown { IfOk result (λ machine. DumpShows search bytes (inventory_of machine)) }
    ensures err { IfErr result (CannotBeTold search bytes) }
{
    let inventory = inventory_in(alloc, search, bytes)?;
    let machine = describe(alloc, &inventory);
    drop(inventory);
    Ok(machine?)
}

// What the memory shows of which these bytes are the dump. They are given up as soon as the memory is read.
fn inventory_in(alloc: Global, search: Search, bytes: Bytes) -> Result<Inventory, Fault>
    requires { length bytes ≤ input_limit }
    ensures ok { IfOk result (DumpShows search bytes) }
    ensures err { IfErr result (CannotBeListed search bytes) }
{
    let memory = memory_in(alloc, bytes.as_slice())?;
    drop(bytes);
    Ok(scan_by(alloc, &memory, search)?)
}

// The memory of which these bytes are the dump.
fn memory_in(alloc: Global, bytes: &[u8]) -> Result<GuestMemory, Fault>
    requires { length bytes.now < 2 ^ 32 }
    ensures text { IfOk result (λ held. dump held.memory ≡ bytes.now) }
    ensures lawful { IfOk result (λ held. IsMemory held.memory) }
    ensures holds { IfOk result (λ held. HoldsBytes held.memory) }
    ensures err { IfErr result (λ fault. (search : Search) → CannotBeListed search bytes.now fault) }
{
    match read_dump(alloc, bytes) {
        Ok(memory) => Ok(memory),
        Err(DumpFault::OutOfMemory) => Err(Fault::OutOfMemory),
        Err(fault) => Err(Fault::Dump {
            fault,
            line: faulty_line(bytes, fault),
        }),
    }
}

// The number of the line that is at fault, counted from 1; of bytes that were cut off how many whole lines they have.
fn faulty_line(bytes: &[u8], fault: DumpFault) -> u32
    requires { length bytes.now < 2 ^ 32 }
    ensures { result ≡ faulty_line bytes.now fault }
{
    match fault {
        DumpFault::BadHeader => 1,
        DumpFault::BadLine(line)
        | DumpFault::OutOfOrder(line)
        | DumpFault::AllFill(line)
        | DumpFault::NotRam(line) => line,
        DumpFault::Truncated => whole_lines(bytes),
        DumpFault::OutOfMemory => 0,
    }
}
