//! The nodes of processors and of ranges of memory (SRAT, ACPI 6.5, 5.2.16).

ghost use Rattle.std.specs.Prelude.{◌≡◌, ℕ};
ghost use Rattle.machine_desc.specs.Fields.{fitted};
ghost use Rattle.acpi_records.specs.declared.srat_entry.SratEntry.{SratEntry as AnEntry};
ghost use Rattle.acpi_told.specs.Nodes.{on_told_nodes, node_at, node_of_cpu, cpu_on, node_of_range, range_on};
ghost use Rattle.acpi_told.specs.Parts.{affinities_of, affinities_in};

use acpi_model::{AcpiTables, Srat, SratEntry};
use machine_desc::{Cpu, MemRange};
use vt_outside::List;

/// A part of a machine that belongs to a node.
pub trait OnNode: Copy {
    // The node that an entry tells of it.
    ghost told: { Self → AnEntry → ℕ };

    // The part on a node.
    ghost placed: { Self → ℕ → Self };

    /// Returns the node that `entry` tells of it: 0 where the entry isn't of the kind that is written for it, and where its node has more
    /// than 8 bits.
    fn node_in(&self, entry: &SratEntry) -> u8
        ensures { result ≡ told self.now entry.now };

    /// Returns it on `node`.
    fn on(&self, node: u8) -> Self
        ensures { result ≡ placed self.now node };
}

impl OnNode for Cpu {
    ghost told = { node_of_cpu };

    ghost placed = { cpu_on };

    fn node_in(&self, entry: &SratEntry) -> u8 {
        match entry {
            SratEntry::Apic(affinity) if self.apic <= MOST_LOCAL => fitting(affinity.node),
            SratEntry::X2Apic(affinity) if self.apic > MOST_LOCAL => fitting(affinity.node),
            _ => 0,
        }
    }

    fn on(&self, node: u8) -> Cpu {
        Cpu { node, ..*self }
    }
}

impl OnNode for MemRange {
    ghost told = { node_of_range };

    ghost placed = { range_on };

    fn node_in(&self, entry: &SratEntry) -> u8 {
        match entry {
            SratEntry::Memory(affinity) => fitting(affinity.node),
            _ => 0,
        }
    }

    fn on(&self, node: u8) -> MemRange {
        MemRange { node, ..*self }
    }
}

// The greatest APIC id of an entry of a local APIC: from 255 on the entry is that of an x2APIC (5.2.16.1).
const MOST_LOCAL: u32 = 254;

// A node of 8 bits, and 0 where it has more.
fn fitting(node: u32) -> u8
    ensures { result ≡ fitted 8 node }
{
    u8::try_from(node).unwrap_or(0)
}

/// Puts each of `parts` on the node that the entry at its own place of `entries` tells, and on node 0 where there is none.
pub fn put_nodes<P: OnNode>(parts: &mut List<P>, entries: &[SratEntry])
    ensures { parts.new ≡ on_told_nodes P.told P.placed entries.now parts.old }
{
    for place in 0..parts.len() {
        let part = *parts.get(place);
        let node = node_at(part, entries, place);
        parts.set(place, part.on(node));
    }
}

// The node that the entry at a place tells of a part, and 0 where there is none.
fn node_at<P: OnNode>(part: P, entries: &[SratEntry], place: usize) -> u8
    ensures { result ≡ node_at P.told entries.now place part }
{
    match entries.get(place) {
        Some(entry) => part.node_in(entry),
        None => 0,
    }
}

/// Returns the entries of the SRAT among `tables`, and none where there is none.
pub fn affinities_in(tables: &Option<AcpiTables>) -> &[SratEntry]
    ensures { result.now ≡ affinities_in tables.now }
{
    match tables {
        Some(tables) => affinities_of(&tables.srat),
        None => &[],
    }
}

pub(crate) fn affinities_of(srat: &Option<Srat>) -> &[SratEntry]
    ensures { result.now ≡ affinities_of srat.now }
{
    match srat {
        Some(srat) => srat.entries.as_slice(),
        None => &[],
    }
}
