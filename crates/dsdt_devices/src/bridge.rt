//! The bridge to PCI (ACPI 6.5, 6.2.2, 6.2.13 and 6.4.3.5).

ghost use Rattle.std.specs.Prelude.{◌≡◌, map, codes, option_map, IfOk};
ghost use Rattle.aml_terms.specs.Trees.{view};
ghost use Rattle.dsdt_devices.specs.BusTerms.{first_told, value_in};
ghost use Rattle.dsdt_devices.specs.Told.{items_of, resources_in, buses_in, last_bus_in, window_in, windows_in, rows_of, integer_of, integer_at};
ghost use Rattle.dsdt_devices.specs.Told.{route_in, bridge_in};

use crate::bus_terms::first_value;
use aml_terms::Term;
use machine_desc::{Bridge, Route, Window, WindowKind};
use resource_decode::items_in;
use resource_items::ResourceItem;
use std::alloc::Global;
use vt_outside::{List, OutOfMemory};

// The kind of address spaces that are ranges of buses (6.4.3.5.1, table 6.45).
const BUSES: u8 = 2;

// The flags of memory that may be read ahead, and is cacheable (6.4.3.5.5).
const PREFETCHABLE: u8 = 7;

// The bridge that what stands in its device tells, but for its configuration space.
pub(crate) fn bridge_in(alloc: Global, inside: &[Term]) -> Result<Bridge, OutOfMemory>
    ensures { IfOk result (λ bridge. bridge ≡ bridge_in (map view inside.now)) }
{
    let routes = routes_in(alloc, inside)?;
    let items = resources_in(alloc, inside)?;
    Ok(Bridge {
        ecam: 0,
        last_bus: last_bus_in(items.as_slice()),
        windows: windows_in(alloc, items.as_slice())?,
        routes,
    })
}

// The items of a device's first `_CRS`.
pub(crate) fn resources_in(
    alloc: Global,
    inside: &[Term],
) -> Result<List<ResourceItem>, OutOfMemory>
    ensures { IfOk result (λ items. items ≡ resources_in (map view inside.now)) }
{
    items_of(alloc, first_value(inside, b"_CRS"))
}

// The items of a buffer, and none of another value.
fn items_of(alloc: Global, value: Option<&Term>) -> Result<List<ResourceItem>, OutOfMemory>
    ensures { IfOk result (λ items. items ≡ items_of (option_map (λ value. view value.now) value.entry)) }
{
    match value {
        Some(Term::Buffer(bytes)) => items_in(alloc, bytes.as_slice()),
        _ => Ok(List::new(alloc)),
    }
}

// The last bus that the first range of buses tells.
fn last_bus_in(items: &[ResourceItem]) -> u8
    ensures { result ≡ last_bus_in items.now }
{
    for item in items {
        if let Some(last) = buses_in(item) {
            return u8::try_from(last).unwrap_or(0);
        }
    }
    u8::MAX
}

// The last bus of a range of buses.
fn buses_in(item: &ResourceItem) -> Option<u64>
    ensures { result ≡ buses_in item.now }
{
    match item {
        ResourceItem::Word(space) if space.kind == BUSES => Some(u64::from(space.last)),
        ResourceItem::Dword(space) if space.kind == BUSES => Some(u64::from(space.last)),
        ResourceItem::Qword(space) if space.kind == BUSES => Some(space.last),
        _ => None,
    }
}

// The windows: all address spaces but for the first range of buses.
fn windows_in(alloc: Global, items: &[ResourceItem]) -> Result<List<Window>, OutOfMemory>
    ensures { IfOk result (λ windows. windows ≡ windows_in items.now) }
{
    let mut windows = List::new(alloc);
    let mut is_told = false;
    for item in items {
        if !is_told && buses_in(item).is_some() {
            is_told = true;
        } else if let Some(window) = window_in(item) {
            windows.push(window)?;
        }
    }
    Ok(windows)
}

// The window of an address space, whose kind is told by the width of its numbers.
fn window_in(item: &ResourceItem) -> Option<Window>
    ensures { result ≡ window_in item.now }
{
    match item {
        ResourceItem::Word(space) => Some(Window {
            kind: WindowKind::Io,
            base: u64::from(space.first),
            size: u64::from(space.length),
            prefetch: false,
        }),
        ResourceItem::Dword(space) => Some(Window {
            kind: WindowKind::Mem32,
            base: u64::from(space.first),
            size: u64::from(space.length),
            prefetch: space.flags == PREFETCHABLE,
        }),
        ResourceItem::Qword(space) => Some(Window {
            kind: WindowKind::Mem64,
            base: space.first,
            size: space.length,
            prefetch: space.flags == PREFETCHABLE,
        }),
        _ => None,
    }
}

// The routes of the first `_PRT`.
fn routes_in(alloc: Global, inside: &[Term]) -> Result<List<Route>, OutOfMemory>
    ensures { IfOk result (λ routes. routes ≡ map route_in (rows_of (first_told (value_in (codes "_PRT")) (map view inside.now)))) }
{
    let mut routes = List::new(alloc);
    for row in rows_of(first_value(inside, b"_PRT")) {
        routes.push(route_in(row))?;
    }
    Ok(routes)
}

// What a package holds, and nothing of another value.
fn rows_of(value: Option<&Term>) -> &[Term]
    ensures { map view result.now ≡ rows_of (option_map (λ value. view value.now) value.entry) }
{
    match value {
        Some(Term::Package(rows)) => rows.as_slice(),
        _ => &[],
    }
}

// The route of a row: its address tells the device in its high half.
fn route_in(row: &Term) -> Route
    ensures { result ≡ route_in (view row.now) }
{
    Route {
        device: u8::try_from(integer_at(row, 0) / 0x1_0000).unwrap_or(0),
        pin: u8::try_from(integer_at(row, 1)).unwrap_or(0),
        gsi: u32::try_from(integer_at(row, 3)).unwrap_or(0),
    }
}

// The integer at a place of a row, and 0 where none stands there.
fn integer_at(row: &Term, place: usize) -> u64
    ensures { result ≡ integer_at place (view row.now) }
{
    integer_of(rows_of(Some(row)).get(place))
}

// The integer that a value is, and 0 of another value.
fn integer_of(value: Option<&Term>) -> u64
    ensures { result ≡ integer_of (option_map (λ value. view value.now) value.entry) }
{
    match value {
        Some(Term::Int(number)) => *number,
        Some(Term::Fixed(number)) => u64::from(*number),
        _ => 0,
    }
}
