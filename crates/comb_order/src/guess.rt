//! Labels and distances by quick searches, each linear in nodes, parts and what they read. Nothing is promised of
//! them: what rests on them judges them first.

use crate::distance::NEVER;
use crate::graph::{Direction, Graph};
use netlist::flat::Flat;
use std::alloc::{AllocError, Global};
use std::mem::swap;

// A search in depth: the edge at which each place stands, its tree, from 1 on (0: not reached), the places on the way
// to the one at hand, and those that are done.
#[derive(Drop)]
struct Depth {
    at: Vec<usize>,
    trees: Vec<u64>,
    stack: Vec<usize>,
    done: Vec<usize>,
}

impl Depth {
    fn new(alloc: Global, graph: &Graph) -> Result<Depth, AllocError> {
        let mut at = Vec::new(alloc);
        for place in 0..graph.places() {
            at.push(graph.head(place))?;
        }
        Ok(Depth {
            at,
            trees: vec![in alloc; 0u64; graph.places()]?,
            stack: Vec::new(alloc),
            done: Vec::new(alloc),
        })
    }

    // Goes down to a place, if it wasn't reached.
    fn enter(&mut self, place: usize, tree: u64) -> Result<(), AllocError> {
        if let Some(own) = self.trees.get_mut(place) {
            if *own == 0 {
                *own = tree;
                self.stack.push(place)?;
            }
        }
        Ok(())
    }

    // Goes on from a place: down the next edge, or up.
    fn step(&mut self, graph: &Graph, place: usize, tree: u64) -> Result<(), AllocError> {
        let edge = match self.at.get(place) {
            Some(edge) => graph.follow(*edge),
            None => None,
        };
        match edge {
            Some((to, next)) => {
                if let Some(at) = self.at.get_mut(place) {
                    *at = next;
                }
                self.enter(to, tree)
            }
            None => {
                self.stack.pop();
                match self.done.push(place) {
                    Ok(()) => Ok(()),
                    Err(_) => Err(AllocError),
                }
            }
        }
    }

    // Goes through all that a place reaches.
    fn tree(&mut self, graph: &Graph, root: usize, tree: u64) -> Result<(), AllocError> {
        self.enter(root, tree)?;
        for _ in 0..u64::MAX {
            let place = match self.stack.last() {
                Some(place) => *place,
                None => return Ok(()),
            };
            self.step(graph, place, tree)?;
        }
        Ok(())
    }
}

// The places in the order in which a search from each of them is done with them.
fn done_in_depth(alloc: Global, graph: &Graph) -> Result<Vec<usize>, AllocError> {
    let mut search = Depth::new(alloc, graph)?;
    for root in 0..graph.places() {
        search.tree(graph, root, 1)?;
    }
    Ok(search.done)
}

// The trees of a search from the places of a list, the last first.
fn trees_from(alloc: Global, graph: &Graph, roots: &[usize]) -> Result<Vec<u64>, AllocError> {
    let mut search = Depth::new(alloc, graph)?;
    let mut tree: u64 = 0;
    for root in roots.iter().rev() {
        tree = tree.saturating_add(1);
        search.tree(graph, *root, tree)?;
    }
    Ok(search.trees)
}

/// Labels of the driven parts: where p reads q, q's is the higher, or the same where q reads p, directly or through
/// others (Kosaraju's search for strong components).
pub(crate) fn labels(alloc: Global, flat: &Flat) -> Result<Vec<u64>, AllocError> {
    let reads = Graph::of(alloc, flat, Direction::Reads)?;
    let roots = done_in_depth(alloc, &reads)?;
    let readers = Graph::of(alloc, flat, Direction::Readers)?;
    let trees = trees_from(alloc, &readers, &roots)?;
    let nodes = flat.nodes().len();
    let mut labels = Vec::new(alloc);
    for part in 0..flat.driven().len() {
        labels.push(match trees.get(nodes.saturating_add(part)) {
            Some(tree) => *tree,
            None => 0,
        })?;
    }
    Ok(labels)
}

// A search in breadth from a part to what reads it: which places were reached, those at hand, the parts that come
// after them, and the distances.
#[derive(Drop)]
struct Breadth {
    nodes: usize,
    reached: Vec<bool>,
    level: Vec<usize>,
    later: Vec<usize>,
    ranks: Vec<u64>,
}

impl Breadth {
    // Comes to a place from one at a distance: a node is at the same one, a part at the next.
    fn reach(&mut self, place: usize, rank: u64) -> Result<(), AllocError> {
        if self.reached.get(place) != Some(&false) {
            return Ok(());
        }
        if let Some(reached) = self.reached.get_mut(place) {
            *reached = true;
        }
        if place < self.nodes {
            self.level.push(place)?;
            return Ok(());
        }
        if let Some(own) = self.ranks.get_mut(place - self.nodes) {
            *own = rank.saturating_add(1);
        }
        self.later.push(place)?;
        Ok(())
    }

    // Comes to all that reads a place.
    fn spread(&mut self, graph: &Graph, place: usize, rank: u64) -> Result<(), AllocError> {
        let mut edge = graph.head(place);
        for _ in 0..u64::MAX {
            match graph.follow(edge) {
                Some((to, next)) => {
                    self.reach(to, rank)?;
                    edge = next;
                }
                None => return Ok(()),
            }
        }
        Ok(())
    }

    // Goes through all places at a distance.
    fn level(&mut self, graph: &Graph, rank: u64) -> Result<(), AllocError> {
        for _ in 0..u64::MAX {
            match self.level.pop() {
                Some(place) => self.spread(graph, place, rank)?,
                None => return Ok(()),
            }
        }
        Ok(())
    }
}

/// The fewest reads in which each driven part comes to the part `to`.
pub(crate) fn ranks(alloc: Global, flat: &Flat, to: usize) -> Result<Vec<u64>, AllocError> {
    let graph = Graph::of(alloc, flat, Direction::Readers)?;
    let nodes = flat.nodes().len();
    let mut search = Breadth {
        nodes,
        reached: vec![in alloc; false; graph.places()]?,
        level: Vec::new(alloc),
        later: Vec::new(alloc),
        ranks: vec![in alloc; NEVER; flat.driven().len()]?,
    };
    if let Some(rank) = search.ranks.get_mut(to) {
        *rank = 0;
    }
    let start = nodes.saturating_add(to);
    if let Some(reached) = search.reached.get_mut(start) {
        *reached = true;
    }
    search.level.push(start)?;
    for rank in 0..u64::MAX {
        if search.level.is_empty() {
            break;
        }
        search.level(&graph, rank)?;
        swap(&mut search.level, &mut search.later);
    }
    Ok(search.ranks)
}
