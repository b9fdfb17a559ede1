ghost use Rattle.std.specs.Prelude.{◌≡◌, ◌≢◌, ◌≤◌, ◌<◌, ◌+◌, ◌++◌, ◌∷◌, [], length, Err, IfErr, IfOk, OnOk};
ghost use Rattle.cfg_directory.specs.Items.{total_size};
ghost use Rattle.command_acts.specs.Allocators.{MayAnswer};
ghost use Rattle.generated_machine.specs.Generated.{generated};
ghost use Rattle.machine_desc.specs.Rules.{IsAccepted};
ghost use Rattle.image_files.specs.Items.{image_limit};
ghost use Rattle.vt_outside.specs.Stream.{SourceSeen};
ghost use Rattle.vmtables.specs.Boot.{FailsToBoot, IsMachineBooted};
ghost use Rattle.vmtables.specs.Calls.{ReadsNone, Ran, Streams, seen_by};
ghost use Rattle.vmtables.specs.Generate.{AreCounts, GenMakes, plain, summary_of};
ghost use Rattle.vmtables.specs.Outcome.{status_of};

use crate::describing::machine_image;
use crate::fault::Fault;
use crate::machine_booting::load_image;
use crate::writing::write_text;
use cfg_directory::Item;
use firmware_load::{Schedule, World};
use generated_machine::generated_machine;
use generated_machine::laws::generated_machines_are_accepted;
use machine_desc::Machine;
use memory_dump::row_count;
use std::alloc::Global;
use vm_image::Image;
use vt_outside::{Line, Sink};
use vt_words::Setting;
use zone_alloc::{Policy, ZoneAlloc};

// How a generated machine is booted.
const PLAIN: Setting = Setting {
    fill: 0,
    policy: Policy::Low,
    seed: 0,
};

// How many of each an image has.
#[derive(Clone, Copy)]
struct Counts {
    files: usize,
    bytes: usize,
    commands: usize,
}

/// Boots the machine that is generated of `processors` processors, 1 to 4,096, by the places that `place` gives, and writes how many of what
/// it has.
pub(crate) fn generate<K: Sink, A: ZoneAlloc, C: Schedule>(
    alloc: Global,
    processors: u32,
    out: &mut K,
    place: &mut A,
    plan: &mut C,
    world: &mut World,
) -> Result<(), Fault>
    requires lawful { (1 ≤ processors) × (processors ≤ 4096) }
    ensures ran { (source : SourceSeen) → Ran (ReadsNone (GenMakes (MayAnswer A.state A.gives) processors)
        (seen_by A.state C.plan world.old place.old plan.old)
        (seen_by A.state C.plan world.new place.new plan.new)) result
        source source (K.seen out.old) (K.seen out.new) }
    ensures known { result ≢ Err Fault.Usage }
    ensures streams { (source : SourceSeen) → Streams (status_of result) source source (K.seen out.old) (K.seen out.new) }
{
    let counts = boot_generated(alloc, processors, place, plan, world)?;
    let rows = row_count(world.memory());
    write_text(summary(processors, counts, rows).as_bytes(), out)
}

// Boots the machine that is generated of so many processors.
fn boot_generated<A: ZoneAlloc, C: Schedule>(
    alloc: Global,
    processors: u32,
    place: &mut A,
    plan: &mut C,
    world: &mut World,
) -> Result<Counts, Fault>
    requires lawful { (1 ≤ processors) × (processors ≤ 4096) }
    ensures counts { IfOk result (λ counts. AreCounts (generated processors) counts.files counts.bytes counts.commands) }
    ensures ok { OnOk result (IsMachineBooted (MayAnswer A.state A.gives) plain (generated processors)
        (seen_by A.state C.plan world.old place.old plan.old)
        (seen_by A.state C.plan world.new place.new plan.new)) }
    ensures err { IfErr result (FailsToBoot (MayAnswer A.state A.gives) plain (generated processors)
        (seen_by A.state C.plan world.old place.old plan.old)
        (seen_by A.state C.plan world.new place.new plan.new)) }
{
    generated_machines_are_accepted();
    let machine = generated_machine(alloc, processors)?;
    let counts = boot_counted(alloc, &machine, place, plan, world);
    drop(machine);
    counts
}

// Boots a machine, and counts what its image has.
fn boot_counted<A: ZoneAlloc, C: Schedule>(
    alloc: Global,
    machine: &Machine,
    place: &mut A,
    plan: &mut C,
    world: &mut World,
) -> Result<Counts, Fault>
    requires { IsAccepted machine.now }
    ensures counts { IfOk result (λ counts. AreCounts machine.now counts.files counts.bytes counts.commands) }
    ensures ok { OnOk result (IsMachineBooted (MayAnswer A.state A.gives) plain machine.now
        (seen_by A.state C.plan world.old place.old plan.old)
        (seen_by A.state C.plan world.new place.new plan.new)) }
    ensures err { IfErr result (FailsToBoot (MayAnswer A.state A.gives) plain machine.now
        (seen_by A.state C.plan world.old place.old plan.old)
        (seen_by A.state C.plan world.new place.new plan.new)) }
{
    let image = machine_image(alloc, machine)?;
    let counts = counts_of(&image);
    load_image(alloc, &PLAIN, machine, image, place, plan, world)?;
    Ok(counts)
}

// How many files an image has, how many bytes these have, and how many commands there are.
fn counts_of(image: &Image) -> Counts
    requires { total_size image.now.items ≤ image_limit }
    ensures files { result.files ≡ length image.now.items }
    ensures bytes { result.bytes ≡ total_size image.now.items }
    ensures commands { result.commands ≡ length image.now.script }
{
    let items = image.items.all();
    Counts {
        files: items.len(),
        bytes: size_of(items),
        commands: image.script.len(),
    }
}

// How many bytes files have in all.
fn size_of(items: &[Item]) -> usize
    requires { total_size items.now ≤ image_limit }
    ensures { result ≡ total_size items.now }
{
    let mut size = 0;
    for item in items {
        size += item.bytes.len();
    }
    size
}

// The text of the counts.
fn summary(processors: u32, counts: Counts, rows: u32) -> Line
    ensures { result.bytes ≡ summary_of processors counts.files counts.bytes counts.commands rows }
{
    let mut text = Line::new();
    let mut digits = itoa::Buffer::new();
    put_count(&mut text, "processors ", digits.format(processors));
    put_count(&mut text, "files ", digits.format(counts.files));
    put_count(&mut text, "bytes ", digits.format(counts.bytes));
    put_count(&mut text, "commands ", digits.format(counts.commands));
    put_count(&mut text, "rows ", digits.format(rows));
    text
}

// Adds a line with the name of a count, and its digits.
fn put_count(text: &mut Line, name: &str, digits: &str)
    requires room { length text.old.bytes + length name.now + length digits.now < 128 }
    ensures line { text.new.bytes ≡ text.old.bytes ++ name.now ++ digits.now ++ 10 ∷ [] }
    ensures size { length text.new.bytes ≡ length text.old.bytes + length name.now + length digits.now + 1 }
{
    text.push_str(name);
    text.push_str(digits);
    text.push_str("\n");
}
