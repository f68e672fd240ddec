//! The last of many rows.

ghost use Rattle.std.specs.Prelude.{◌≡◌, ◌≤◌, ◌<◌, ◌+◌, ◌-◌, ◌++◌, ◌∷◌, [], length, slice_index_or, if◌then◌else◌, ◌==◌, IfOk};
ghost use Rattle.std.specs.List.{All, sum};
ghost use Rattle.packed_rows.specs.Kept.{last_ones};
ghost use Rattle.packed_rows.specs.Packed.{Fits};

use crate::rows::PackedRows;
use dt_core::fault::NoMemory;
use dt_core::limits::MAX_WIDTH;
use std::alloc::Global;
use std::marker::Model;

/// The last rows of those that were pushed, so many at most: a ring, in which the next row takes the place of the oldest.
#[derive(Drop)]
pub struct LastRows {
    rows: PackedRows,
    next: u32,
}

impl Model for LastRows {
    ghost use Rattle.packed_rows.specs.Kept.{Kept};

    ghost Value = { Kept };

    ghost use Rattle.packed_rows.specs.Turned.{kept_of, IsRing};

    ghost view = { kept_of };

    ghost invariant = { IsRing };
}

impl LastRows {
    /// No rows of values of these widths, and room for the last `most`.
    pub fn new(alloc: Global, widths: Vec<u32>, most: u32) -> Result<LastRows, NoMemory>
        requires wide { All (λ w. w ≤ MAX_WIDTH) widths.items }
        requires few { sum widths.items ≤ u32.MAX }
        requires some { 1 ≤ most }
        ensures { IfOk result (λ r. r ≡ record { widths = widths.items; most = most; rows = [] }) }
    {
        let rows = PackedRows::new(alloc, widths, most)?;
        Ok(LastRows { rows, next: 0 })
    }

    /// How many rows there are.
    pub fn count(&self) -> u32
        ensures { result ≡ length self.now.rows }
    {
        self.rows.count()
    }

    /// Appends a row: a value for each width, below 2^width. Where all room is taken the oldest row is forgotten. It takes no
    /// memory.
    pub fn push(&mut self, row: &[u128])
        requires fit { Fits self.old.widths row.now }
        ensures widths { self.new.widths ≡ self.old.widths }
        ensures most { self.new.most ≡ self.old.most }
        ensures rows { self.new.rows ≡ last_ones self.old.most (self.old.rows ++ row.now ∷ []) }
    {
        if self.rows.count() < self.rows.most() {
            self.rows.push(row);
            return;
        }
        self.rows.replace(self.next, row);
        self.next = place_after(self.next, self.rows.most());
    }

    /// Copies a row by its number, from 0, the oldest first. It takes no memory.
    pub fn read(&self, number: u32, row: &mut [u128])
        requires there { number < length self.now.rows }
        requires size { length row.old ≡ length self.now.widths }
        ensures row { row.new ≡ slice_index_or self.now.rows number [] }
        ensures fit { Fits self.now.widths row.new }
    {
        let behind = self.rows.count() - self.next;
        if number < behind {
            self.rows.read(self.next + number, row);
        } else {
            self.rows.read(number - behind, row);
        }
    }
}

// The place after this one in a ring of so many.
fn place_after(place: u32, most: u32) -> u32
    requires { place < most }
    ensures { result ≡ (if place + 1 == most then 0 else place + 1) }
{
    if place + 1 == most { 0 } else { place + 1 }
}
