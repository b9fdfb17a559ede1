//! Loads over a plan, and how they end.

ghost use Rattle.std.specs.Prelude.{◌≡◌, true, [], IfSome, IsSome, IsSomeAnd, OnOk};
ghost use Rattle.command_acts.specs.Allocators.{AreZonesOf};
ghost use Rattle.load_states.specs.Loads.{IsBegun};
ghost use Rattle.load_states.specs.LoadState.{memory_of, opening_of};

use cfg_directory::Items;
use cfg_dma::{Device, Finished, Kind};
use firmware_load::{ListSchedule, LoadFault, Schedule, State, World};
use guest_memory::GuestMemory;
use std::alloc::Global;
use std::process::Abort;
use std::test::Fail;
use vt_outside::{List, OutOfMemory};
use zone_alloc::{FailingAlloc, Policy, ZoneAlloc, zones_of};

/// The top of a memory of 64 MiB. Its high zone is 0x3000000 to 0x3FFFFFF.
pub(crate) const TOP: u32 = 0x400_0000;

/// What each byte of RAM holds before a load.
pub(crate) const FILL: u8 = 0xA5;

/// A transfer that is over, and didn't fail.
#[derive(Clone, Copy)]
pub(crate) enum Transfer {
    /// A read: the selector, the offset in the item, how many bytes, and their address.
    Read(u16, u32, u32, u64),
    /// A skip from the start of an item: the selector, and how many bytes.
    Skip(u16, u32),
    /// A write from the buffer: the selector, the offset in the item, and how many bytes.
    Write(u16, u32, u32),
}

/// All that a file of the device holds: its selector, and the bytes.
#[derive(Clone, Copy)]
pub(crate) struct Content<'a>(pub(crate) u16, pub(crate) &'a [u8]);

/// Bytes that memory holds from an address on. Lists of them have no byte twice.
#[derive(Clone, Copy)]
pub(crate) struct Held<'a>(pub(crate) u64, pub(crate) &'a [u8]);

/// How a load ends: its answer, the transfers that are over, what files of the device hold, and what is left in memory. Where no transfer is
/// listed they aren't looked at.
///
/// Each byte of RAM that `left` doesn't list is the fill byte, but for the work range where the load was refused, and where `others` says so for
/// memory below 640 KiB, in which other processors wrote.
#[derive(Clone, Copy)]
pub(crate) struct End<'a> {
    pub(crate) answer: Result<(), LoadFault>,
    pub(crate) transfers: &'a [Transfer],
    pub(crate) contents: &'a [Content<'a>],
    pub(crate) left: &'a [Held<'a>],
    pub(crate) others: bool,
}

/// Begins a load of `items` in a world, below [`TOP`].
pub(crate) fn begin(alloc: Global, world: &mut World, items: Items) -> Result<(), OutOfMemory>
    ensures fresh { OnOk result (IsSomeAnd world.new.load (λ w. IsBegun (opening_of w) w)) }
    ensures top { OnOk result (IfSome world.new.load (λ w. (memory_of w).top ≡ 0x4000000)) }
{
    begin_filled(alloc, world, items, FILL)
}

/// Begins one in which each byte of RAM is `fill`.
pub(crate) fn begin_filled(
    alloc: Global,
    world: &mut World,
    items: Items,
    fill: u8,
) -> Result<(), OutOfMemory>
    ensures fresh { OnOk result (IsSomeAnd world.new.load (λ w. IsBegun (opening_of w) w)) }
    ensures top { OnOk result (IfSome world.new.load (λ w. (memory_of w).top ≡ 0x4000000)) }
{
    world.begin(alloc, items, TOP, fill)
}

/// Begins an allocator with the zones below [`TOP`].
pub(crate) fn begin_zones<A: ZoneAlloc>(
    alloc: Global,
    place: &mut A,
    by: Policy,
) -> Result<(), OutOfMemory>
    ensures begun { OnOk result ((A.state place.new).begun.ready ≡ true) }
    ensures handed { OnOk result ((A.state place.new).handed ≡ []) }
    ensures zones { OnOk result (AreZonesOf 0x4000000 (A.state place.new).begun.zones) }
{
    place.begin(alloc, zones_of(TOP), by)
}

/// Makes a plan of no events.
pub(crate) fn no_events(alloc: Global) -> ListSchedule {
    let mut plan = ListSchedule::new(List::new(alloc));
    plan.begin(0);
    plan
}

/// The load of `items` over no events of a plan ends so, where these calls for a place are refused.
pub(crate) fn ends_without_events(
    rt: &impl Abort,
    alloc: Global,
    items: Items,
    fails: &[u32],
    end: &End<'_>,
) -> Result<(), Fail> {
    let mut plan = no_events(alloc);
    let done = ends(rt, alloc, items, fails, &mut plan, end);
    drop(plan);
    done
}

/// The load of `items` over the events of a plan ends so, where these calls for a place are refused.
pub(crate) fn ends<C: Schedule>(
    rt: &impl Abort,
    alloc: Global,
    items: Items,
    fails: &[u32],
    plan: &mut C,
    end: &End<'_>,
) -> Result<(), Fail> {
    let mut world = World::idle();
    let done = ends_in(rt, alloc, &mut world, items, fails, plan, end);
    drop(world);
    done
}

// The load of `items` in a world ends so.
fn ends_in<C: Schedule>(
    rt: &impl Abort,
    alloc: Global,
    world: &mut World,
    items: Items,
    fails: &[u32],
    plan: &mut C,
    end: &End<'_>,
) -> Result<(), Fail> {
    begin(alloc, world, items)?;
    begun_ends(rt, alloc, world, fails, plan, end)
}

// The load that was begun ends so, where these calls for a place are refused.
fn begun_ends<C: Schedule>(
    rt: &impl Abort,
    alloc: Global,
    world: &mut World,
    fails: &[u32],
    plan: &mut C,
    end: &End<'_>,
) -> Result<(), Fail>
    requires fresh { IsSomeAnd world.old.load (λ w. IsBegun (opening_of w) w) }
    requires top { IfSome world.old.load (λ w. (memory_of w).top ≡ 0x4000000) }
{
    let mut failing = failing_places(alloc, fails)?;
    let done = ends_placed(rt, alloc, world, &mut failing, Policy::Low, plan, end);
    drop(failing);
    done
}

/// The load that was begun ends so, with the places that an allocator gives by a policy.
pub(crate) fn ends_placed<A: ZoneAlloc, C: Schedule>(
    rt: &impl Abort,
    alloc: Global,
    world: &mut World,
    place: &mut A,
    by: Policy,
    plan: &mut C,
    end: &End<'_>,
) -> Result<(), Fail>
    requires fresh { IsSomeAnd world.old.load (λ w. IsBegun (opening_of w) w) }
    requires top { IfSome world.old.load (λ w. (memory_of w).top ≡ 0x4000000) }
    ensures { OnOk result (IsSome world.new.load) }
{
    begin_zones(alloc, place, by)?;
    ends_as(rt, world, place, plan, end);
    Ok(())
}

/// Makes an allocator that refuses these calls.
pub(crate) fn failing_places(alloc: Global, fails: &[u32]) -> Result<FailingAlloc, OutOfMemory> {
    let mut list = List::new(alloc);
    list.extend(fails)?;
    Ok(FailingAlloc::new(list))
}

/// The load that was begun ends so, over the events of a plan.
pub(crate) fn ends_as<A: ZoneAlloc, C: Schedule>(
    rt: &impl Abort,
    world: &mut World,
    place: &mut A,
    plan: &mut C,
    end: &End<'_>,
)
    requires fresh { IsSomeAnd world.old.load (λ w. IsBegun (opening_of w) w) }
    requires begun { (A.state place.old).begun.ready ≡ true }
    requires handed { (A.state place.old).handed ≡ [] }
    requires zones { IfSome world.old.load (λ w. AreZonesOf (memory_of w).top (A.state place.old).begun.zones) }
    ensures { IsSome world.new.load }
{
    let answer = world.load(place, plan);
    assert_eq!(rt; answer, end.answer);
    is_so(rt, world, end);
}

// The load has ended so.
fn is_so(rt: &impl Abort, world: &World, end: &End<'_>)
    requires { IsSome world.now.load }
{
    is_in(rt, world, state_after(end.answer));
    is_moved(rt, world.device(), end);
    is_left(rt, world.memory(), end);
}

fn is_moved(rt: &impl Abort, device: &Device, end: &End<'_>) {
    if !end.transfers.is_empty() {
        has_moved(rt, device, end.transfers);
    }
    contain(rt, device, end.contents);
}

// No byte but those that are listed is another than the fill byte. A load that is done leaves that in the work range, too.
fn is_left(rt: &impl Abort, memory: &GuestMemory, end: &End<'_>) {
    are_held(rt, memory, end.left);
    if end.answer.is_ok() {
        assert_eq!(rt; count_working(memory), 0);
    }
    let listed = count_left(end.left, memory.fill());
    assert_eq!(rt; changed_but(memory, end.others), listed);
}

// How many bytes of RAM outside of the work range aren't the fill byte: of all, or but of those below 640 KiB, where others wrote.
fn changed_but(memory: &GuestMemory, others: bool) -> u64 {
    if others {
        count_changed(memory, LOW_FRAMES, ALL_FRAMES)
    } else {
        count_changed(memory, 0, ALL_FRAMES).saturating_sub(count_working(memory))
    }
}

/// Memory holds these bytes, those of two lists, and the fill byte wherever none is listed.
pub(crate) fn are_all(rt: &impl Abort, memory: &GuestMemory, held: &[Held], more: &[Held]) {
    are_held(rt, memory, held);
    are_held(rt, memory, more);
    let listed = count_listed(held, memory.fill()).saturating_add(count_listed(
        more,
        memory.fill(),
    ));
    assert_eq!(rt; count_changed(memory, 0, ALL_FRAMES), listed);
}

// How many of these bytes aren't the fill byte.
fn count_listed(held: &[Held], fill: u8) -> u64 {
    let mut count = 0u64;
    for held in held {
        count = count.saturating_add(count_in(held.1, fill));
    }
    count
}

// How many of these bytes outside of the work range aren't.
fn count_left(left: &[Held], fill: u8) -> u64 {
    let mut count = 0u64;
    for held in left {
        if !is_working(held.0) {
            count = count.saturating_add(count_in(held.1, fill));
        }
    }
    count
}

/// Whether an address is in the work range.
pub(crate) fn is_working(address: u64) -> bool {
    (0x7000..0x7010).contains(&address) || (0x8000..0x9000).contains(&address)
}

fn count_in(bytes: &[u8], fill: u8) -> u64 {
    let mut count = 0u64;
    for byte in bytes {
        count = count.saturating_add(u64::from(*byte != fill));
    }
    count
}

// How many frames of 4,096 bytes there are below 640 KiB, and in all.
const LOW_FRAMES: u32 = 160;

const ALL_FRAMES: u32 = 8448;

/// How many bytes of RAM below 640 KiB aren't the fill byte.
pub(crate) fn count_low(memory: &GuestMemory) -> u64 {
    count_changed(memory, 0, LOW_FRAMES)
}

// How many bytes of RAM in these frames, up to one that isn't among them, aren't the fill byte. A frame that isn't touched holds the fill byte
// alone.
fn count_changed(memory: &GuestMemory, first: u32, end: u32) -> u64 {
    let mut count = 0u64;
    for frame in first..end.min(ALL_FRAMES) {
        if memory.touched(frame) {
            count = count.saturating_add(count_in_frame(memory, frame));
        }
    }
    count
}

fn count_in_frame(memory: &GuestMemory, frame: u32) -> u64 {
    count_at(memory, address_of(frame, memory.top()), 4096)
}

// The first 256 frames are those of the first MiB, and the others those of the 32 MiB that end at the top.
fn address_of(frame: u32, top: u32) -> u64 {
    let address = u64::from(frame) * 4096;
    if frame < 0x100 {
        address
    } else {
        (address + u64::from(top)).saturating_sub(8448 * 4096)
    }
}

// How many bytes of the work range aren't the fill byte.
fn count_working(memory: &GuestMemory) -> u64 {
    count_at(memory, 0x7000, 16).saturating_add(count_at(memory, 0x8000, 4096))
}

// How many of so many bytes from an address on, in one frame, aren't the fill byte, where it is RAM.
fn count_at(memory: &GuestMemory, address: u64, len: u32) -> u64 {
    if len > 4096 || address % 4096 + u64::from(len) > 4096 || !memory.is_ram(address) {
        return 0;
    }
    count_in(memory.window(address, len), memory.fill())
}

fn state_after(answer: Result<(), LoadFault>) -> State {
    match answer {
        Ok(()) => State::Done,
        Err(fault) => State::Refused(fault),
    }
}

/// The world is in a state.
pub(crate) fn is_in(rt: &impl Abort, world: &World, state: State) {
    assert_eq!(rt; world.state(), state);
}

/// These transfers are over.
pub(crate) fn has_moved(rt: &impl Abort, device: &Device, transfers: &[Transfer]) {
    assert_eq!(rt; device.finished().len(), transfers.len());
    for (finished, transfer) in device.finished().iter().zip(transfers) {
        assert_eq!(rt; *finished, finished_of(*transfer));
    }
}

fn finished_of(transfer: Transfer) -> Finished {
    match transfer {
        Transfer::Read(select, offset, length, address) => {
            moved(Kind::Read, select, offset, length, address)
        }
        Transfer::Skip(select, length) => moved(Kind::Skip, select, 0, length, 0),
        Transfer::Write(select, offset, length) => {
            moved(Kind::Write, select, offset, length, 0x8000)
        }
    }
}

fn moved(kind: Kind, select: u16, offset: u32, length: u32, address: u64) -> Finished {
    Finished {
        kind,
        select,
        offset,
        length,
        address,
        error: false,
    }
}

/// Files of the device hold these bytes.
pub(crate) fn contain(rt: &impl Abort, device: &Device, contents: &[Content<'_>]) {
    for content in contents {
        contains(rt, device, content);
    }
}

fn contains(rt: &impl Abort, device: &Device, content: &Content<'_>) {
    let Content(select, bytes) = *content;
    let item = device.item(select).expect(rt, "a file of this selector");
    assert_eq!(rt; item.bytes.as_slice(), bytes, "of {select}");
}

/// Memory holds these bytes.
pub(crate) fn are_held(rt: &impl Abort, memory: &GuestMemory, left: &[Held]) {
    for held in left {
        is_held(rt, memory, held);
    }
}

// All of its bytes are in one frame.
fn is_held(rt: &impl Abort, memory: &GuestMemory, held: &Held) {
    let Held(address, bytes) = held;
    assert!(rt; bytes.len() <= 4096);
    assert!(rt; memory.is_ram(*address) && *address % 4096 + bytes.len() as u64 <= 4096);
    assert_eq!(rt;
        memory.window(*address, bytes.len() as u32),
        *bytes,
        "at {address}"
    );
}
