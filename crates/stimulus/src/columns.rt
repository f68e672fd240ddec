//! What line 2 says of the rows, and the row that was read last.

ghost use Rattle.std.specs.Prelude.{◌≡◌, ◌≤◌, ◌<◌, [], length, map, drop, slice_index_or, IsTrue, IfSome};
ghost use Rattle.std.specs.List.{All};
ghost use Rattle.stimulus.specs.Stimulus.{bad_name, lack_fault, names_fault, or_else, words};
ghost use Rattle.stimulus.specs.Calls.Names.{Judges, shown};
ghost use Rattle.stimulus.specs.Calls.Judging.{IsLayout, ReadsRow};
ghost use Rattle.stimulus.specs.Calls.Single.{IsInOrder, ReadsSingle, row_of_values};

use crate::digits::read_values;
use crate::names::{LineFault, are_names_of, bad_name_of, places_of, widths_for, words_of};
use crate::refusal::{Input, RefusalKind};
use crate::single::{digit_limits, read_single};
use dt_core::limits::MAX_WIDTH;
use std::alloc::Global;
use std::marker::Model;

/// The widths of a row's values with the limits of their digits, the place of each input's value among them, whether they
/// are in order of the ports, and the values that were read last, with the row where they aren't.
#[derive(Drop)]
pub(crate) struct Columns {
    widths: Vec<u32>,
    limits: Vec<u8>,
    places: Vec<usize>,
    in_order: bool,
    values: Vec<u128>,
    row: Vec<u128>,
}

impl Model for Columns {
    ghost use Rattle.stimulus.specs.Reader.{Layout};

    ghost Value = { Layout };

    ghost use Rattle.stimulus.specs.Calls.Inside.{layout_of, IsSound};

    ghost view = { layout_of };

    ghost invariant = { IsSound };
}

impl Columns {
    /// No columns, before line 2.
    pub fn none(alloc: Global) -> Columns {
        Columns {
            widths: Vec::new(alloc),
            limits: Vec::new(alloc),
            places: Vec::new(alloc),
            in_order: false,
            values: Vec::new(alloc),
            row: Vec::new(alloc),
        }
    }

    /// The columns of line 2, or its fault.
    pub fn of_line(alloc: Global, inputs: &[Input], line: &[u8]) -> Result<Columns, LineFault>
        requires { All (λ i. i.width ≤ MAX_WIDTH) inputs.now }
        ensures { Judges (names_fault inputs.now (words line.now))
            (λ c. IsLayout inputs.now (drop 1 (words line.now)) c) result }
    {
        let words = words_of(alloc, line)?;
        if !are_names_of(&words) {
            return Err(LineFault::Refused(RefusalKind::BadHeader));
        }
        Columns::of_names(alloc, inputs, &words[1..])
    }

    // The columns of the names, or their fault.
    fn of_names(alloc: Global, inputs: &[Input], names: &[&[u8]]) -> Result<Columns, LineFault>
        requires { All (λ i. i.width ≤ MAX_WIDTH) inputs.now }
        ensures { Judges (or_else (bad_name inputs.now [] (shown names.now)) (lack_fault inputs.now (shown names.now)))
            (λ c. IsLayout inputs.now (shown names.now) c) result }
    {
        match bad_name_of(inputs, names) {
            Some(kind) => Err(LineFault::Refused(kind)),
            None => {
                let places = places_of(alloc, inputs, names)?;
                let widths = widths_for(alloc, inputs, names)?;
                let limits = digit_limits(alloc, &widths)?;
                let in_order = are_in_order(&places, widths.len());
                let values = vec![in alloc; 0u128; widths.len()]?;
                let row = vec![in alloc; 0u128; places.len()]?;
                Ok(Columns {
                    widths,
                    limits,
                    places,
                    in_order,
                    values,
                    row,
                })
            }
        }
    }

    /// Reads the row of a line, or its fault.
    pub fn read_row(&mut self, line: &[u8]) -> Result<(), RefusalKind>
        ensures reads { ReadsRow self.old self.new line.now result }
        ensures same { (self.new.widths ≡ self.old.widths) × (self.new.places ≡ self.old.places) }
    {
        match read_values(line, &self.widths, &mut self.values) {
            Ok(()) => {
                gather(&self.values, &self.places, self.in_order, &mut self.row);
                Ok(())
            }
            Err(kind) => Err(kind),
        }
    }

    /// Reads a row of single digits that stands at the head of the bytes: how many bytes it has before its LF.
    pub fn read_single(&mut self, bytes: &[u8]) -> Option<usize>
        ensures reads { IfSome result (ReadsSingle self.old self.new bytes.now) }
        ensures same { (self.new.widths ≡ self.old.widths) × (self.new.places ≡ self.old.places) }
    {
        if !read_single(bytes, &self.limits, &mut self.values) {
            return None;
        }
        gather(&self.values, &self.places, self.in_order, &mut self.row);
        Some(2 * self.limits.len() - 1)
    }

    /// The row that was read last.
    pub fn row(&self) -> &[u128]
        ensures { result.now ≡ self.now.row }
    {
        if self.in_order {
            &self.values
        } else {
            &self.row
        }
    }
}

// Whether the places are all those from 0 on, so many.
fn are_in_order(places: &[usize], count: usize) -> bool
    ensures { IsTrue result → IsInOrder count places.now }
{
    if places.len() != count {
        return false;
    }
    for (k, place) in places.iter().enumerate() {
        if *place != k {
            return false;
        }
    }
    true
}

// Puts the values at these places into the row, where they aren't in order.
fn gather(values: &[u128], places: &[usize], in_order: bool, row: &mut [u128])
    requires size { length row.old ≡ length places.now }
    requires within { All (λ place. place < length values.now) places.now }
    requires order { IsTrue in_order → IsInOrder (length values.now) places.now }
    ensures size { length row.new ≡ length row.old }
    ensures row { row_of_values in_order values.now row.new
        ≡ map (λ place. slice_index_or values.now place 0) places.now }
{
    if in_order {
        return;
    }
    for (k, place) in places.iter().enumerate() {
        row[k] = values[*place];
    }
}
