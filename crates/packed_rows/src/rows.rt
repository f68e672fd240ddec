//! Rows of the same widths, kept packed.

ghost use Rattle.std.specs.Prelude.{◌≡◌, ◌≤◌, ◌<◌, ◌+◌, ◌++◌, ◌∷◌, [], length, take, drop, slice_index_or, slice_set, slice_range, IfOk, IsTrue};
ghost use Rattle.std.specs.List.{All, sum};
ghost use Rattle.packed_rows.specs.Packed.{Fits, number, packed, unpacked, word_count};

use crate::pack::pack;
use crate::unpack::unpack;
use dt_core::fault::NoMemory;
use dt_core::limits::MAX_WIDTH;
use std::alloc::Global;
use std::marker::Model;

/// Rows of values of the same widths, as many as there is room for at most.
///
/// A row takes as many words of 64 bits as its values' bits need together: its values follow one another without gaps,
/// the first at the lowest bits of the first word.
#[derive(Drop)]
pub struct PackedRows {
    widths: Vec<u32>,
    is_short: bool,
    each: usize,
    most: u32,
    count: u32,
    words: Vec<u64>,
}

impl Model for PackedRows {
    ghost use Rattle.std.specs.Prelude.{◌≡◌, ◌≤◌, ◌<◌, ◌*◌, length, IsTrue};
    ghost use Rattle.std.specs.List.{All, sum};
    ghost use Rattle.dt_core.specs.declared.limits.TheConstants.{MAX_WIDTH};
    ghost use Rattle.packed_rows.specs.Kept.{Kept};
    ghost use Rattle.packed_rows.specs.Packed.{rows_in, word_count};

    ghost Value = { Kept };

    ghost view = { λ r. record {
      widths = r.widths.items;
      most = r.most;
      rows = rows_in r.widths.items r.each r.count r.words.items;
    } };

    ghost invariant = { λ r. (r.each ≡ word_count (sum r.widths.items))
        × (length r.words.items ≡ r.most * r.each) × (r.count ≤ r.most)
        × All (λ w. w ≤ MAX_WIDTH) r.widths.items × (IsTrue r.is_short → sum r.widths.items < 64) };
}

impl PackedRows {
    /// No rows of values of these widths, and room for `most`.
    pub fn new(alloc: Global, widths: Vec<u32>, most: u32) -> Result<PackedRows, NoMemory>
        requires wide { All (λ w. w ≤ MAX_WIDTH) widths.items }
        requires few { sum widths.items ≤ u32.MAX }
        ensures { IfOk result (λ r. r ≡ record { widths = widths.items; most = most; rows = [] }) }
    {
        let bits = bits_of(&widths);
        let each = bits.div_ceil(64);
        let words = vec![in alloc; 0u64; most as usize * each]?;
        Ok(PackedRows {
            widths,
            is_short: bits < 64,
            each,
            most,
            count: 0,
            words,
        })
    }

    /// How many rows there are.
    pub fn count(&self) -> u32
        ensures count { result ≡ length self.now.rows }
        ensures within { result ≤ self.now.most }
    {
        self.count
    }

    /// For how many rows there is room.
    pub fn most(&self) -> u32
        ensures { result ≡ self.now.most }
    {
        self.most
    }

    /// Appends a row: a value for each width, below 2^width. It takes no memory.
    pub fn push(&mut self, row: &[u128])
        requires room { length self.old.rows < self.old.most }
        requires fit { Fits self.old.widths row.now }
        ensures widths { self.new.widths ≡ self.old.widths }
        ensures most { self.new.most ≡ self.old.most }
        ensures rows { self.new.rows ≡ self.old.rows ++ row.now ∷ [] }
    {
        let from = self.count as usize * self.each;
        pack_at(
            &self.widths,
            self.is_short,
            row,
            &mut self.words,
            from,
            self.each,
        );
        self.count += 1;
    }

    /// Puts a row in the place of another one, by its number, from 0. It takes no memory.
    pub fn replace(&mut self, number: u32, row: &[u128])
        requires there { number < length self.old.rows }
        requires fit { Fits self.old.widths row.now }
        ensures widths { self.new.widths ≡ self.old.widths }
        ensures most { self.new.most ≡ self.old.most }
        ensures rows { self.new.rows ≡ slice_set self.old.rows number row.now }
    {
        let from = number as usize * self.each;
        pack_at(
            &self.widths,
            self.is_short,
            row,
            &mut self.words,
            from,
            self.each,
        );
    }

    /// Copies a row by its number, from 0. It takes no memory.
    pub fn read(&self, number: u32, row: &mut [u128])
        requires there { number < length self.now.rows }
        requires size { length row.old ≡ length self.now.widths }
        ensures row { row.new ≡ slice_index_or self.now.rows number [] }
        ensures fit { Fits self.now.widths row.new }
    {
        let from = number as usize * self.each;
        unpack_at(&self.widths, &self.words, from, self.each, row);
    }

    /// Forgets all rows. The memory stays.
    pub fn clear(&mut self)
        ensures widths { self.new.widths ≡ self.old.widths }
        ensures most { self.new.most ≡ self.old.most }
        ensures rows { self.new.rows ≡ [] }
    {
        self.count = 0;
    }
}

// The bits of values of these widths together.
fn bits_of(widths: &[u32]) -> usize
    requires { sum widths.now ≤ u32.MAX }
    ensures { result ≡ sum widths.now }
{
    widths.iter().map(|width| *width as usize).sum()
}

// Packs a row into the words from a place on.
fn pack_at(
    widths: &[u32],
    is_short: bool,
    row: &[u128],
    words: &mut [u64],
    from: usize,
    each: usize,
)
    requires wide { All (λ w. w ≤ MAX_WIDTH) widths.now }
    requires short { IsTrue is_short → sum widths.now < 64 }
    requires fit { Fits widths.now row.now }
    requires long { length row.now ≡ length widths.now }
    requires each { each ≡ word_count (sum widths.now) }
    requires within { from + each ≤ length words.old }
    ensures before { take from words.new ≡ take from words.old }
    ensures after { drop (from + each) words.new ≡ drop (from + each) words.old }
    ensures row { number (slice_range words.new from (from + each)) ≡ packed widths.now row.now }
{
    pack(widths, is_short, row, &mut words[from..from + each]);
}

// Unpacks the row that stands in the words from a place on.
fn unpack_at(widths: &[u32], words: &[u64], from: usize, each: usize, row: &mut [u128])
    requires wide { All (λ w. w ≤ MAX_WIDTH) widths.now }
    requires each { each ≡ word_count (sum widths.now) }
    requires within { from + each ≤ length words.now }
    requires size { length row.old ≡ length widths.now }
    ensures { row.new ≡ unpacked widths.now (number (slice_range words.now from (from + each))) }
{
    unpack(widths, &words[from..from + each], row);
}
