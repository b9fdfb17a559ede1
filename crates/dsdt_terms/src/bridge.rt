//! The bridge to PCI as a device.

ghost use Rattle.std.specs.Prelude.{◌≡◌, true, [], ◌∷◌, ◌++◌, map, codes, IfOk, OnOk};
ghost use Rattle.std.specs.List.{list_all};
ghost use Rattle.machine_desc.specs.Rules.{is_lawful_window};
ghost use Rattle.aml_terms.specs.declared.term.Term.TheVariants.{Package};
ghost use Rattle.dsdt_terms.specs.Names.{name};
ghost use Rattle.dsdt_terms.specs.Bridge.{bus_item, memory_flags, last_of, window_item, bridge_items, route_term, bridge_ids, bridge_device};

use crate::names::{
    PCI_BRIDGE, PCI_EXPRESS_BRIDGE, device, push_compatible_id, push_hardware_id, push_name,
    push_resources, push_unique_id,
};
use aml_terms::Term;
use machine_desc::{Bridge, Route, Window, WindowKind};
use resource_items::{DwordSpace, QwordSpace, ResourceItem, WordSpace};
use std::alloc::Global;
use vt_outside::{List, OutOfMemory};

// The bridge of an accepted machine as a device.
pub(crate) fn bridge_device(alloc: Global, bridge: &Bridge) -> Result<Term, OutOfMemory>
    requires { list_all is_lawful_window bridge.now.windows ≡ true }
    ensures { IfOk result (λ term. term ≡ bridge_device bridge.now) }
{
    let items = bridge_items(alloc, bridge)?;
    let mut values = List::new(alloc);
    push_ids(&mut values, bridge.ecam)?;
    push_unique_id(&mut values, 0)?;
    push_name(&mut values, *b"_BBN", Term::Int(0))?;
    push_resources(&mut values, items.as_slice())?;
    push_routes(&mut values, bridge.routes.as_slice())?;
    device(alloc, *b"PCI0", values)
}

// Adds what the bridge is: one with configuration space in memory is one of PCI Express, which is compatible with one of PCI.
fn push_ids(values: &mut List<Term>, ecam: u64) -> Result<(), OutOfMemory>
    ensures { OnOk result (values.new ≡ values.old ++ bridge_ids ecam) }
{
    if ecam == 0 {
        push_hardware_id(values, PCI_BRIDGE)
    } else {
        push_hardware_id(values, PCI_EXPRESS_BRIDGE)?;
        push_compatible_id(values, PCI_BRIDGE)
    }
}

// Its buses, and then its windows in their order.
fn bridge_items(alloc: Global, bridge: &Bridge) -> Result<List<ResourceItem>, OutOfMemory>
    requires { list_all is_lawful_window bridge.now.windows ≡ true }
    ensures { IfOk result (λ items. items ≡ bridge_items bridge.now) }
{
    let mut items = List::new(alloc);
    items.push(bus_item(bridge.last_bus))?;
    push_windows(&mut items, bridge.windows.as_slice())?;
    Ok(items)
}

// Adds windows, whose numbers fit their items.
fn push_windows(items: &mut List<ResourceItem>, windows: &[Window]) -> Result<(), OutOfMemory>
    requires { list_all is_lawful_window windows.now ≡ true }
    ensures { OnOk result (items.new ≡ items.old ++ map window_item windows.now) }
{
    for window in windows {
        items.push(window_item(*window))?;
    }
    Ok(())
}

// The buses from 0 to the last one.
fn bus_item(last: u8) -> ResourceItem
    ensures { result ≡ bus_item last }
{
    ResourceItem::Word(WordSpace {
        kind: 2,
        flags: 0,
        granularity: 0,
        first: 0,
        last: u16::from(last),
        translation: 0,
        length: u16::from(last) + 1,
    })
}

// The item of a window, whose numbers fit it.
fn window_item(window: Window) -> ResourceItem
    requires { is_lawful_window window ≡ true }
    ensures { result ≡ window_item window }
{
    let last = last_of(window);
    match window.kind {
        WindowKind::Io => ResourceItem::Word(WordSpace {
            kind: 1,
            flags: 3,
            granularity: 0,
            first: window.base as u16,
            last: last as u16,
            translation: 0,
            length: window.size as u16,
        }),
        WindowKind::Mem32 => ResourceItem::Dword(DwordSpace {
            kind: 0,
            flags: memory_flags(window.prefetch),
            granularity: 0,
            first: window.base as u32,
            last: last as u32,
            translation: 0,
            length: window.size as u32,
        }),
        WindowKind::Mem64 => ResourceItem::Qword(QwordSpace {
            kind: 0,
            flags: memory_flags(window.prefetch),
            granularity: 0,
            first: window.base,
            last,
            translation: 0,
            length: window.size,
        }),
    }
}

// Its last address.
fn last_of(window: Window) -> u64
    requires { is_lawful_window window ≡ true }
    ensures { result ≡ last_of window }
{
    window.base + (window.size - 1)
}

// Memory that can be written; where it may be read ahead, it is cacheable and prefetchable, too.
fn memory_flags(prefetch: bool) -> u8
    ensures { result ≡ memory_flags prefetch }
{
    if prefetch { 7 } else { 1 }
}

// Adds the table of routes.
fn push_routes(values: &mut List<Term>, routes: &[Route]) -> Result<(), OutOfMemory>
    ensures { OnOk result (values.new ≡ values.old ++ name (codes "_PRT") (Package (map route_term routes.now)) ∷ []) }
{
    let mut terms = List::new(values.allocator());
    for route in routes {
        push_route(&mut terms, *route)?;
    }
    push_name(values, *b"_PRT", Term::Package(terms))
}

// Adds a route: all functions of the device, the pin, no device that could route it elsewhere, and the interrupt.
fn push_route(terms: &mut List<Term>, route: Route) -> Result<(), OutOfMemory>
    ensures { OnOk result (terms.new ≡ terms.old ++ route_term route ∷ []) }
{
    let mut parts = List::new(terms.allocator());
    parts.push(Term::Int(u64::from(route.device) * 0x1_0000 + 0xFFFF))?;
    parts.push(Term::Int(u64::from(route.pin)))?;
    parts.push(Term::Int(0))?;
    parts.push(Term::Int(u64::from(route.gsi)))?;
    terms.push(Term::Package(parts))
}
