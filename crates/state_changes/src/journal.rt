//! What was noted in each of the last cycles.

ghost use Rattle.std.specs.Prelude.{◌≡◌, ◌≤◌, ◌<◌, ◌+◌, ◌-◌, ◌^◌, ◌∷◌, [], length, take, IfOk, OnOk, MatchOption};
ghost use Rattle.state_changes.specs.Log.{has_nothing, NotesStand};

use circular_buffer::HeapCircularBuffer;
use dt_core::fault::NoMemory;
use std::alloc::Global;
use std::marker::Model;

/// What was noted in the last cycles, at most `most`, and in the cycle that isn't closed yet.
///
/// `items` holds all that was noted, `counts` how much of it in each closed cycle, both the newest first; the first `fresh`
/// items belong to the cycle that isn't closed.
#[derive(Drop)]
pub struct Journal<T> {
    most: u32,
    items: HeapCircularBuffer<T>,
    counts: HeapCircularBuffer<usize>,
    fresh: usize,
}

impl<T> Model for Journal<T> {
    ghost use Rattle.state_changes.specs.Log.{Log, log_code};

    ghost Value = { Log T };

    ghost coded = { log_code T.code };

    ghost use Rattle.state_changes.specs.Kept.{log_of, IsSound};

    ghost view = { log_of };

    ghost invariant = { IsSound };
}

impl<T: Copy + Drop> Journal<T> {
    /// Nothing noted yet, and room for nothing. It will keep the last `most` cycles.
    pub fn new(alloc: Global, most: u32) -> Result<Journal<T>, NoMemory>
        requires { 1 ≤ most }
        ensures { IfOk result (λ j. j ≡ has_nothing most) }
    {
        Ok(Journal {
            most,
            items: HeapCircularBuffer::with_capacity(alloc, 0)?,
            counts: HeapCircularBuffer::with_capacity(alloc, most as usize)?,
            fresh: 0,
        })
    }

    /// Takes memory for `count` notes more, where there isn't enough. What is noted stays, also after a refusal.
    pub fn reserve(&mut self, count: usize) -> Result<(), NoMemory>
        requires { count < 2 ^ 62 }
        ensures same { NotesStand self.old self.new }
        ensures room { OnOk result (count ≤ self.new.room) }
    {
        let needed = self.items.len() + count;
        let capacity = self.items.capacity();
        if capacity < needed {
            self.items.resize(needed.max(capacity * 2))?;
        }
        Ok(())
    }

    /// Notes an item in the cycle that isn't closed. It takes no memory.
    pub fn note(&mut self, item: T)
        requires { 0 < self.old.room }
        ensures fresh { self.new.fresh ≡ item ∷ self.old.fresh }
        ensures cycles { self.new.cycles ≡ self.old.cycles }
        ensures most { self.new.most ≡ self.old.most }
        ensures room { self.new.room + 1 ≡ self.old.room }
    {
        prove!(self.fresh <= self.items.len());
        let _ = self.items.push_front(item);
        self.fresh += 1;
    }

    /// Closes the cycle: what was noted since the last one is a cycle's. Beyond the most cycles the oldest is forgotten.
    pub fn close(&mut self)
        ensures cycles { self.new.cycles ≡ take self.old.most (self.old.fresh ∷ self.old.cycles) }
        ensures fresh { self.new.fresh ≡ [] }
        ensures most { self.new.most ≡ self.old.most }
    {
        let oldest = self.counts.push_front(self.fresh).unwrap_or(0);
        self.items.truncate_back(self.items.len() - oldest);
        self.fresh = 0;
    }

    /// Opens the newest cycle again, after which nothing was noted.
    pub fn reopen(&mut self)
        requires closed { self.old.fresh ≡ [] }
        requires some { 0 < length self.old.cycles }
        ensures cycles { self.old.cycles ≡ self.new.fresh ∷ self.new.cycles }
        ensures most { self.new.most ≡ self.old.most }
    {
        if let Some(count) = self.counts.pop_front() {
            self.fresh = count;
        }
    }

    /// Takes back the newest note of the cycle that isn't closed, if there is one.
    pub fn undo(&mut self) -> Option<T>
        ensures fresh { MatchOption result (self.old.fresh ≡ []) (λ c. self.old.fresh ≡ c ∷ self.new.fresh) }
        ensures none { MatchOption result (self.new ≡ self.old) (λ c. Unit {0}) }
        ensures cycles { self.new.cycles ≡ self.old.cycles }
        ensures most { self.new.most ≡ self.old.most }
    {
        if self.fresh == 0 {
            return None;
        }
        self.fresh -= 1;
        self.items.pop_front()
    }

    /// How many closed cycles there are.
    pub fn cycles(&self) -> usize
        ensures { result ≡ length self.now.cycles }
    {
        self.counts.len()
    }
}
