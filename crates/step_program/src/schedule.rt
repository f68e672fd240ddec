//! An order of a builder's steps in which many of one kind stand together: again and again, of the kinds of which steps
//! are ready, the one on whose steps the longest chain waits, and of several such kinds the one with the most steps. A
//! chain is as long as it changes the kind. It is linear in the steps. Nothing is promised of the order: what it names
//! too early is passed over, and put last.

use crate::entry::Entry;
use crate::numbers::Numbers;
use crate::operands::operands;
use crate::step::{Slot, Step};
use std::alloc::{AllocError, Global};

// A step that reads another, and the place of the next one that does.
#[derive(Clone, Copy)]
struct Edge {
    reader: usize,
    next: usize,
}

// The place of no edge.
const NONE: usize = usize::MAX;

// The kinds of steps, from 0 on.
const KINDS: usize = 9;

fn kind_of(step: &Step) -> usize {
    match step {
        Step::And(_) => 0,
        Step::Or(_) => 1,
        Step::Xor(_) => 2,
        Step::Pick(_) => 3,
        Step::Test(_) => 4,
        Step::Join(_) => 5,
        Step::Take(_) => 6,
        Step::Sum(_) => 7,
        Step::Rare(_) => 8,
    }
}

// The kind of the step at a place.
fn kind_at(entries: &[Entry], place: usize) -> Option<usize> {
    let entry = entries.get(place)?;
    Some(kind_of(&entry.step))
}

// For each slot that a step gives, the step's place.
#[derive(Drop)]
struct Owners {
    given: Numbers,
    narrow: Vec<usize>,
    wide: Vec<usize>,
}

impl Owners {
    fn new(alloc: Global, given: Numbers, entries: &[Entry]) -> Result<Owners, AllocError> {
        let mut narrow = Vec::new(alloc);
        let mut wide = Vec::new(alloc);
        for (place, entry) in entries.iter().enumerate() {
            match entry.slot {
                Slot::Narrow(_) => narrow.push(place)?,
                Slot::Wide(_) => wide.push(place)?,
            }
        }
        Ok(Owners {
            given,
            narrow,
            wide,
        })
    }

    // The place of the step that gives a slot; none where it is given.
    fn place(&self, slot: Slot) -> Option<usize> {
        let found = match slot {
            Slot::Narrow(number) => {
                let after = number.checked_sub(self.given.narrow)?;
                self.narrow.get(after as usize)?
            }
            Slot::Wide(number) => {
                let after = number.checked_sub(self.given.wide)?;
                self.wide.get(after as usize)?
            }
        };
        Some(*found)
    }
}

// The steps of a kind that are ready, and how often the longest chain that waits for one of them changes the kind.
#[derive(Drop)]
struct Ready {
    steps: Vec<usize>,
    height: u32,
}

// For each step how many steps it waits for, the first edge to one that reads it, and how often the longest chain from it
// on changes the kind; the steps that are ready, by kind; those in order.
#[derive(Drop)]
struct Schedule {
    waits: Vec<u32>,
    heads: Vec<usize>,
    edges: Vec<Edge>,
    heights: Vec<u32>,
    ready: Vec<Ready>,
    order: Vec<usize>,
}

impl Schedule {
    fn new(alloc: Global, count: usize) -> Result<Schedule, AllocError> {
        let mut ready = Vec::new(alloc);
        for _ in 0..KINDS {
            ready.push(Ready {
                steps: Vec::new(alloc),
                height: 0,
            })?;
        }
        Ok(Schedule {
            waits: vec![in alloc; 0u32; count]?,
            heads: vec![in alloc; NONE; count]?,
            edges: Vec::new(alloc),
            heights: vec![in alloc; 0u32; count]?,
            ready,
            order: Vec::new(alloc),
        })
    }

    // The reader waits for the step.
    fn link(&mut self, reader: usize, step: usize) -> Result<(), AllocError> {
        let place = self.edges.len();
        if let Some(head) = self.heads.get_mut(step) {
            let next = *head;
            *head = place;
            self.edges.push(Edge { reader, next })?;
        }
        if let Some(waits) = self.waits.get_mut(reader) {
            *waits = waits.saturating_add(1);
        }
        Ok(())
    }

    // Each step waits for those that it reads.
    fn link_all(&mut self, owners: &Owners, entries: &[Entry]) -> Result<(), AllocError> {
        for (reader, entry) in entries.iter().enumerate() {
            for slot in operands(&entry.step) {
                if let Some(step) = slot.and_then(|slot| owners.place(slot)) {
                    self.link(reader, step)?;
                }
            }
        }
        Ok(())
    }

    // The height of a step: that of the highest one that reads it, and one more where that is of another kind.
    fn height_of(&self, entries: &[Entry], place: usize, kind: usize) -> u32 {
        let mut height = 0;
        let mut edge = self.head(place);
        for _ in 0..u64::MAX {
            let Some(at) = self.edges.get(edge) else {
                break;
            };
            let own = self.height(at.reader);
            if kind_at(entries, at.reader) == Some(kind) {
                height = height.max(own);
            } else {
                height = height.max(own.saturating_add(1));
            }
            edge = at.next;
        }
        height
    }

    // The heights of all steps, each of which is read by later ones alone.
    fn set_heights(&mut self, entries: &[Entry]) {
        for place in (0..entries.len()).rev() {
            if let Some(kind) = kind_at(entries, place) {
                let height = self.height_of(entries, place, kind);
                if let Some(own) = self.heights.get_mut(place) {
                    *own = height;
                }
            }
        }
    }

    fn head(&self, place: usize) -> usize {
        self.heads.get(place).copied().unwrap_or(NONE)
    }

    fn height(&self, place: usize) -> u32 {
        self.heights.get(place).copied().unwrap_or(0)
    }

    // A step waits for none.
    fn is_ready(&mut self, entries: &[Entry], place: usize) -> Result<(), AllocError> {
        let height = self.height(place);
        if let Some(kind) = kind_at(entries, place) {
            if let Some(ready) = self.ready.get_mut(kind) {
                ready.steps.push(place)?;
                ready.height = ready.height.max(height);
            }
        }
        Ok(())
    }

    // A step less for a reader to wait for.
    fn wait_less(&mut self, entries: &[Entry], reader: usize) -> Result<(), AllocError> {
        let left = match self.waits.get_mut(reader) {
            Some(waits) => {
                *waits = waits.saturating_sub(1);
                *waits
            }
            None => return Ok(()),
        };
        if left == 0 {
            return self.is_ready(entries, reader);
        }
        Ok(())
    }

    // A step comes next.
    fn take(&mut self, entries: &[Entry], place: usize) -> Result<(), AllocError> {
        self.order.push(place)?;
        let mut edge = self.head(place);
        for _ in 0..u64::MAX {
            match self.edges.get(edge) {
                Some(at) => {
                    let reader = at.reader;
                    edge = at.next;
                    self.wait_less(entries, reader)?;
                }
                None => return Ok(()),
            }
        }
        Ok(())
    }

    // The kind that comes next: none where no step is ready.
    fn next_kind(&self) -> Option<usize> {
        let mut best = (0u32, 0usize);
        let mut found = None;
        for (kind, ready) in self.ready.iter().enumerate() {
            let own = (ready.height, ready.steps.len());
            if own.1 > 0 && own > best {
                best = own;
                found = Some(kind);
            }
        }
        found
    }

    // A step of a kind that is ready; where it is the last one, no chain waits for the kind.
    fn take_ready(&mut self, kind: usize) -> Option<usize> {
        let ready = self.ready.get_mut(kind)?;
        let next = ready.steps.pop();
        if ready.steps.is_empty() {
            ready.height = 0;
        }
        next
    }

    // All steps of a kind that are ready, or become so by these. Each turn takes one, so the count of turns is no bound.
    fn take_kind(&mut self, entries: &[Entry], kind: usize) -> Result<(), AllocError> {
        for _ in 0..u64::MAX {
            let next = self.take_ready(kind);
            match next {
                Some(place) => self.take(entries, place)?,
                None => return Ok(()),
            }
        }
        Ok(())
    }

    fn take_all(&mut self, entries: &[Entry]) -> Result<(), AllocError> {
        for _ in 0..u64::MAX {
            match self.next_kind() {
                Some(kind) => self.take_kind(entries, kind)?,
                None => return Ok(()),
            }
        }
        Ok(())
    }
}

/// The places of the steps in that order.
pub(crate) fn order(
    alloc: Global,
    given: Numbers,
    entries: &[Entry],
) -> Result<Vec<usize>, AllocError> {
    let owners = Owners::new(alloc, given, entries)?;
    let mut schedule = Schedule::new(alloc, entries.len())?;
    schedule.link_all(&owners, entries)?;
    schedule.set_heights(entries);
    for place in 0..entries.len() {
        if schedule.waits.get(place) == Some(&0) {
            schedule.is_ready(entries, place)?;
        }
    }
    schedule.take_all(entries)?;
    Ok(schedule.order)
}
