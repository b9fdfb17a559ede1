ghost use Rattle.std.specs.Prelude.{◌≡◌, IfErr, IsSome, IsSomeAnd, OnErr, OnOk};
ghost use Rattle.vt_outside.specs.Stream.{IsFlushed, TookFront, WriteFailed};
ghost use Rattle.vt_bytes.specs.Memory.{IsMemory};
ghost use Rattle.guest_memory.specs.Bytes.{HoldsBytes};
ghost use Rattle.scan_text.specs.List.{list_of};
ghost use Rattle.load_states.specs.LoadState.{memory_of};
ghost use Rattle.memory_dump.specs.Dump.{dump};
ghost use Rattle.vmtables.specs.Calls.{TookWhole};

use crate::fault::Fault;
use firmware_load::World;
use memory_dump::dump_to;
use scan_text::list_to;
use table_model::Inventory;
use vt_outside::{Failed, Sink, write_all};

/// Writes the dump of the world's memory, and flushes it.
pub(crate) fn write_dump<K: Sink>(world: &World, out: &mut K) -> Result<(), Fault>
    requires { IsSome world.now.load }
    ensures ok { OnOk result (IsSomeAnd world.now.load (λ w. TookWhole (dump (memory_of w)) (K.seen out.old) (K.seen out.new))) }
    ensures fault { IfErr result (λ fault. fault ≡ Fault.WriteFault) }
    ensures front { OnErr result (IsSomeAnd world.now.load (λ w. TookFront (dump (memory_of w)) (K.seen out.old) (K.seen out.new))) }
    ensures lawful { IsSomeAnd world.now.load (λ w. IsMemory (memory_of w)) }
    ensures holds { IsSomeAnd world.now.load (λ w. HoldsBytes (memory_of w)) }
{
    match dump_to(world.memory(), out) {
        Ok(()) => flush(out),
        Err(Failed) => Err(Fault::WriteFault),
    }
}

/// Writes the list of an inventory, and flushes it.
pub(crate) fn write_list<K: Sink>(inventory: &Inventory, out: &mut K) -> Result<(), Fault>
    ensures ok { OnOk result (TookWhole (list_of inventory.now) (K.seen out.old) (K.seen out.new)) }
    ensures fault { IfErr result (λ fault. fault ≡ Fault.WriteFault) }
    ensures front { OnErr result (TookFront (list_of inventory.now) (K.seen out.old) (K.seen out.new)) }
{
    match list_to(inventory, out) {
        Ok(()) => flush(out),
        Err(Failed) => Err(Fault::WriteFault),
    }
}

/// Writes a text, and flushes it.
pub(crate) fn write_text<K: Sink>(text: &[u8], out: &mut K) -> Result<(), Fault>
    ensures ok { OnOk result (TookWhole text.now (K.seen out.old) (K.seen out.new)) }
    ensures fault { IfErr result (λ fault. fault ≡ Fault.WriteFault) }
    ensures front { OnErr result (TookFront text.now (K.seen out.old) (K.seen out.new)) }
{
    match write_all(out, text) {
        Ok(()) => flush(out),
        Err(Failed) => Err(Fault::WriteFault),
    }
}

fn flush<K: Sink>(out: &mut K) -> Result<(), Fault>
    ensures kept { OnOk result (K.seen out.new ≡ record (K.seen out.old) { flushed = (K.seen out.new).flushed }) }
    ensures flushed { OnOk result (IsFlushed (K.seen out.new)) }
    ensures fault { IfErr result (λ fault. fault ≡ Fault.WriteFault) }
    ensures failed { OnErr result (WriteFailed (K.seen out.old) (K.seen out.new)) }
{
    match out.flush() {
        Ok(()) => Ok(()),
        Err(Failed) => Err(Fault::WriteFault),
    }
}
