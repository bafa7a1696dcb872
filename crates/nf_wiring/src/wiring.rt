//! `Wiring`: the numbers of a graph's ports, and what reads each node.

ghost use Rattle.std.specs.Prelude.{◌≡◌, ◌<◌, ◌≤◌, ◌++◌, [], ℕ, List, length, slice_index_or, IfOk, OnOk};
ghost use Rattle.nf_graph.specs.declared.node.Node.{Node};
ghost use Rattle.nf_graph.specs.Node.{port_in};
ghost use Rattle.nf_graph.specs.WellMade.{IsWellMade, node_in};
ghost use Rattle.nf_wiring.specs.Places.{AreReaders, place_in, places_from, plain_place, port_count, port_numbered, row};

use crate::place::Place;
use crate::readers::Readers;
use nf_graph::{Graph, Node};
use nf_value::Mem;
use std::alloc::Global;

/// The numbers of a graph's ports, and what reads each node (own). A port's number is its place among the ports of all nodes, in the order
/// of the nodes and of each node's ports.
#[derive(Drop)]
pub struct Wiring {
    /// For each port number where the port stands.
    places: Vec<Place>,
    /// For each node the ports that read one of its outputs.
    readers: Vec<Readers>,
    ghost few: { length places.items ≤ 65536 },
}

impl Wiring {
    ghost use Rattle.nf_wiring.specs.Wiring.{IsWiring, count_of, nodes_of, readers_of};

    /// The wiring of a graph. Time: its nodes and ports.
    ///
    /// # Errors
    ///
    /// `Mem` if there is no memory for it.
    pub fn of(alloc: Global, graph: &Graph) -> Result<Wiring, Mem>
        ensures { IfOk result (IsWiring graph.now) }
    {
        let nodes = graph.nodes();
        let places = places_of(alloc, nodes)?;
        let readers = readers_of(alloc, nodes, &places)?;
        Ok(Wiring { places, readers })
    }

    /// How many ports there are.
    pub fn count(&self) -> u32
        ensures { result ≡ count_of self.now }
    {
        self.places.len() as u32
    }

    /// How many nodes there are.
    pub fn nodes(&self) -> usize
        ensures { result ≡ nodes_of self.now }
    {
        self.readers.len()
    }

    /// Where the port of a number stands.
    pub fn place(&self, number: u32) -> Place
        requires { number < count_of self.now }
        ensures { (nodes : List Node) → IsWiring nodes self.now → plain_place result ≡ place_in nodes number }
    {
        self.places[number as usize]
    }

    /// The ports that read an output of a node.
    pub fn readers(&self, node: u32) -> &[u32]
        requires { node < nodes_of self.now }
        ensures { result.now ≡ readers_of self.now node }
    {
        self.readers[node as usize].numbers()
    }
}

/// Where the port of each number stands.
fn places_of(alloc: Global, nodes: &[Node]) -> Result<Vec<Place>, Mem>
    requires { IsWellMade nodes.now }
    ensures { IfOk result (λ v. v.items ≡ places_from 0 nodes.now) }
{
    let mut places = Vec::new(alloc);
    for (at, node) in nodes.iter().enumerate() {
        put_places(&mut places, at as u32, node.ports.items().len() as u32)?;
    }
    Ok(places)
}

/// Adds the places of a node's ports.
fn put_places(places: &mut Vec<Place>, node: u32, ports: u32) -> Result<(), Mem>
    ensures { OnOk result (places.new.items ≡ places.old.items ++ row node 0 ports) }
{
    for port in 0..ports {
        places.push(Place { node, port })?;
    }
    Ok(())
}

/// The ports that read each node.
fn readers_of(alloc: Global, nodes: &[Node], places: &[Place]) -> Result<Vec<Readers>, Mem>
    requires well_made { IsWellMade nodes.now }
    requires places { places.now ≡ places_from 0 nodes.now }
    ensures { IfOk result (λ v. AreReaders nodes.now (port_count nodes.now) v.items) }
{
    let mut readers = no_readers(alloc, nodes.len())?;
    for number in 0..places.len() {
        let from = producer(nodes, places[number]);
        readers[from as usize].push(number as u32)?;
    }
    Ok(readers)
}

/// A list of so many nodes without readers.
fn no_readers(alloc: Global, count: usize) -> Result<Vec<Readers>, Mem>
    ensures len { IfOk result (λ v. length v.items ≡ count) }
    ensures each { IfOk result (λ v. (i : ℕ) → slice_index_or v.items i [] ≡ []) }
{
    let mut lists = Vec::new(alloc);
    for _node in 0..count {
        lists.push(Readers::new(alloc))?;
    }
    Ok(lists)
}

/// The node that the port at a place reads.
fn producer(nodes: &[Node], place: Place) -> u32
    requires node { place.node < length nodes.now }
    requires port { place.port < length (node_in nodes.now place.node).ports }
    ensures { result ≡ (port_in (node_in nodes.now place.node).ports place.port).from }
{
    nodes[place.node as usize].ports.items()[place.port as usize].from
}
