//! The rules of NUMA nodes, and of the nodes that processors and ranges belong to.

ghost use Rattle.std.specs.Prelude.{◌≡◌, ◌≤◌, true};
ghost use Rattle.std.specs.List.{list_all, enumerate_from};
ghost use Rattle.std.specs.Option.{option_map_or};
ghost use Rattle.machine_desc.specs.Rules.{first_failing, is_node, node_count, nodes_of, is_lawful_numa, is_lawful_distance};

use crate::acpi_parts::Numa;
use crate::machine::Machine;

impl Machine {
    // The place of the first node that isn't there, among those of the processors and then of the ranges.
    pub(crate) fn missing_node(&self) -> Option<usize>
        ensures { result ≡ first_failing (is_node (node_count self.now.numa)) (nodes_of self.now) }
    {
        let count = node_count(&self.numa);
        let cpus = self.cpus.as_slice().iter().map(|cpu| cpu.node);
        let ranges = self.ranges.as_slice().iter().map(|range| range.node);
        cpus.chain(ranges).position(|node| !is_node(count, node))
    }
}

// How many nodes there are. Where none are described, everything is on node 0.
fn node_count(numa: &Option<Numa>) -> u8
    ensures { result ≡ node_count numa.now }
{
    match numa {
        None => 1,
        Some(numa) => numa.nodes,
    }
}

fn is_node(count: u8, node: u8) -> bool
    ensures { result ≡ is_node count node }
{
    node < count
}

pub(crate) fn has_lawful_numa(numa: &Option<Numa>) -> bool
    ensures { result ≡ option_map_or is_lawful_numa numa.now true }
{
    match numa {
        None => true,
        Some(numa) => is_lawful_numa(numa),
    }
}

fn is_lawful_numa(numa: &Numa) -> bool
    ensures { result ≡ is_lawful_numa numa.now }
{
    let nodes = numa.nodes as usize;
    let distances = numa.distance.as_slice();
    1 <= nodes
        && nodes <= 64
        && distances.len() == nodes * nodes
        && are_lawful_distances(nodes, distances)
}

fn are_lawful_distances(nodes: usize, distances: &[u8]) -> bool
    requires { 1 ≤ nodes }
    ensures { result ≡ list_all (is_lawful_distance nodes) (enumerate_from 0 distances.now) }
{
    distances.iter().enumerate().all(|(place, distance)| is_lawful_distance(
        nodes, place, *distance,
    ))
}

// Of so many nodes, the distance at this place.
fn is_lawful_distance(nodes: usize, place: usize, distance: u8) -> bool
    requires { 1 ≤ nodes }
    ensures { result ≡ is_lawful_distance nodes (place, distance) }
{
    if place / nodes == place % nodes {
        distance == 10
    } else {
        10 <= distance
    }
}
