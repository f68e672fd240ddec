//! The graph of nodes and parts, as the quick searches go through it. Nothing is promised of it.

ghost use Rattle.netlist.specs.Fits.{DrivenInOrder};

use crate::reads::{first_not_before, is_before};
use netlist::design::{DrivenPart, Range};
use netlist::flat::Flat;
use netlist::node::Operation;
use std::alloc::{AllocError, Global};

// The end of a chain of links.
const END: usize = usize::MAX;

// An edge of the graph of nodes and parts, and the next one from the same place.
#[derive(Clone, Copy)]
struct Link {
    to: usize,
    next: usize,
}

/// The graph of nodes and parts: nodes by number, and after them the parts.
#[derive(Drop)]
pub(crate) struct Graph {
    heads: Vec<usize>,
    links: Vec<Link>,
}

impl Graph {
    // The graph of so many places, without edges.
    fn empty(alloc: Global, places: usize) -> Result<Graph, AllocError> {
        Ok(Graph {
            heads: vec![in alloc; END; places]?,
            links: Vec::new(alloc),
        })
    }

    // Adds an edge.
    fn add(&mut self, from: usize, to: usize) -> Result<(), AllocError> {
        let number = self.links.len();
        if let Some(head) = self.heads.get_mut(from) {
            let next = *head;
            *head = number;
            self.links.push(Link { to, next })?;
        }
        Ok(())
    }
}

/// The two directions of an edge.
#[derive(Clone, Copy)]
pub(crate) enum Direction {
    Reads,
    Readers,
}

// Adds an edge from what reads to what is read, or back.
fn join(
    graph: &mut Graph,
    direction: Direction,
    reader: usize,
    read: usize,
) -> Result<(), AllocError> {
    match direction {
        Direction::Reads => graph.add(reader, read),
        Direction::Readers => graph.add(read, reader),
    }
}

// Adds the edges between a node that reads a range and the parts that may share bits with it.
fn join_range(
    graph: &mut Graph,
    direction: Direction,
    driven: &[DrivenPart],
    range: &Range,
    nodes: usize,
    node: usize,
) -> Result<(), AllocError>
    requires { DrivenInOrder driven.now }
{
    for part in first_not_before(driven, range)..driven.len() {
        if is_before(range, &driven[part].range) {
            return Ok(());
        }
        join(graph, direction, node, nodes.saturating_add(part))?;
    }
    Ok(())
}

// Adds the edges between a node and the nodes that it reads.
fn join_operands(
    graph: &mut Graph,
    direction: Direction,
    operation: Operation,
    node: usize,
) -> Result<(), AllocError> {
    for operand in operation.operands() {
        if let Some(read) = operand {
            join(graph, direction, node, read as usize)?;
        }
    }
    Ok(())
}

// Adds the edges between nodes and what they read.
fn join_nodes(graph: &mut Graph, direction: Direction, flat: &Flat) -> Result<(), AllocError> {
    let nodes = flat.nodes();
    for number in 0..nodes.len() {
        let operation = nodes[number].operation;
        join_operands(graph, direction, operation, number)?;
        if let Operation::Bits { range } = operation {
            join_range(graph, direction, flat.driven(), &range, nodes.len(), number)?;
        }
    }
    Ok(())
}

// Adds the edges between parts and their nodes.
fn join_parts(graph: &mut Graph, direction: Direction, flat: &Flat) -> Result<(), AllocError> {
    let nodes = flat.nodes().len();
    let driven = flat.driven();
    for number in 0..driven.len() {
        join(
            graph,
            direction,
            nodes.saturating_add(number),
            driven[number].node as usize,
        )?;
    }
    Ok(())
}

impl Graph {
    /// The graph of a design, in the one direction or the other.
    pub(crate) fn of(
        alloc: Global,
        flat: &Flat,
        direction: Direction,
    ) -> Result<Graph, AllocError> {
        let places = flat.nodes().len().saturating_add(flat.driven().len());
        let mut graph = Graph::empty(alloc, places)?;
        join_nodes(&mut graph, direction, flat)?;
        join_parts(&mut graph, direction, flat)?;
        Ok(graph)
    }

    /// The number of nodes and parts together.
    pub(crate) fn places(&self) -> usize {
        self.heads.len()
    }

    /// The first edge from a place.
    pub(crate) fn head(&self, place: usize) -> usize {
        match self.heads.get(place) {
            Some(head) => *head,
            None => END,
        }
    }

    /// The place to which an edge of this number goes, and the next edge; none where the chain has ended.
    pub(crate) fn follow(&self, number: usize) -> Option<(usize, usize)> {
        match self.links.get(number) {
            Some(link) => Some((link.to, link.next)),
            None => None,
        }
    }
}
