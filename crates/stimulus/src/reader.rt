//! The reader of a stimulus, which gives its rows one after another.

ghost use Rattle.std.specs.Prelude.{◌≡◌, ◌≤◌, ◌↔◌, ◌++◌, ◌∷◌, [], List, ℕ, true, false, IfOk, IsTrue, Ok, Err};
ghost use Rattle.std.specs.List.{All};
ghost use Rattle.std.specs.Io.KnownBytes.{Consumes};
ghost use Rattle.stimulus.specs.Reads.{Reads, RowIs};
ghost use Rattle.stimulus.specs.declared.refusal.StimFault.TheVariants as f;

use crate::buffer::Buffer;
use crate::columns::Columns;
use crate::refusal::{Input, StimFault};
use crate::take::{take_head, take_line, take_single};
use dt_core::fault::NoMemory;
use dt_core::limits::MAX_WIDTH;
use dt_io::outside::Source;
use std::alloc::Global;
use std::marker::Model;

/// A reader of the stimulus for these data inputs.
#[derive(Drop)]
pub struct StimReader {
    inputs: Vec<Input>,
    number: u64,
    columns: Columns,
    buffer: Buffer,
    live: bool,
}

impl Model for StimReader {
    ghost use Rattle.std.specs.Prelude.{◌≡◌, ◌+◌, ◌≤◌, ◌⊎◌};
    ghost use Rattle.std.specs.List.{All};
    ghost use Rattle.stimulus.specs.Reader.{Reader};
    ghost use Rattle.dt_core.specs.declared.limits.TheConstants.{MAX_ROWS, MAX_WIDTH};

    ghost Value = { Reader };

    ghost view = { λ r. record {
      inputs = r.inputs.items;
      number = r.number;
      layout = r.columns;
      held = r.buffer;
      live = r.live;
    } };

    ghost invariant = { λ r. All (λ i. i.width ≤ MAX_WIDTH) r.inputs.items × (r.number ≤ MAX_ROWS + 2)
        × ((r.number ≡ 0) ⊎ (2 ≤ r.number)) };
}

impl StimReader {
    /// A reader for the data inputs of a top module in order of its ports: memory for the text of a line and of one read.
    pub fn new(alloc: Global, inputs: Vec<Input>) -> Result<StimReader, NoMemory>
        requires { All (λ i. i.width ≤ MAX_WIDTH) inputs.items }
        ensures reads { IfOk result (λ r. Reads r [] []) }
        ensures inputs { IfOk result (λ r. r.inputs ≡ inputs.items) }
        ensures live { IfOk result (λ r. IsTrue r.live) }
    {
        Ok(StimReader {
            inputs,
            number: 0,
            columns: Columns::none(alloc),
            buffer: Buffer::new(alloc)?,
            live: true,
        })
    }

    /// Whether it may be asked for a row: not after the end, nor after a refusal.
    pub fn live(&self) -> bool
        ensures { result ≡ self.now.live }
    {
        self.live
    }

    /// Reads the next row into `row()`: true, or false at the end of a whole stimulus. It takes memory at the first call
    /// alone.
    pub fn next_row<S: Source>(&mut self, alloc: Global, source: &mut S) -> Result<bool, StimFault>
        requires { IsTrue self.old.live }
        ensures answer { (taken : List ℕ) (given : List (List ℕ)) → Reads self.old taken given
            → (more : List ℕ) × Consumes (S.left source.old) (S.left source.new) more
            × RowIs given (taken ++ more) self.new
            (S.left source.new) (S.faults source.old) (S.faults source.new) result }
        ensures inputs { self.new.inputs ≡ self.old.inputs }
        ensures memory { result ≡ Err f.Memory → self.old.number ≡ 0 }
        ensures live { IsTrue self.new.live ↔ (result ≡ Ok true) }
        ensures later { S.faults source.old ≤ S.faults source.new }
    {
        if self.take_single() {
            return Ok(true);
        }
        self.take_row(alloc, source)
    }

    // Takes a row of single digits, where one stands whole at the head of the bytes held: whether it did.
    fn take_single(&mut self) -> bool
        ensures taken { IsTrue result → (taken : List ℕ) (given : List (List ℕ)) → Reads self.old taken given
            → Reads self.new taken (given ++ self.new.layout.row ∷ []) }
        ensures later { IsTrue result → 2 ≤ self.new.number }
        ensures left { result ≡ false → (taken : List ℕ) (given : List (List ℕ)) → Reads self.old taken given
            → Reads self.new taken given }
        ensures number { result ≡ false → self.new.number ≡ self.old.number }
        ensures inputs { self.new.inputs ≡ self.old.inputs }
        ensures live { self.new.live ≡ self.old.live }
    {
        if !take_single(self.number, &mut self.columns, &mut self.buffer) {
            return false;
        }
        self.number += 1;
        true
    }

    // Takes the next row as a line, and before the first one lines 1 and 2.
    fn take_row<S: Source>(&mut self, alloc: Global, source: &mut S) -> Result<bool, StimFault>
        requires { IsTrue self.old.live }
        ensures answer { (taken : List ℕ) (given : List (List ℕ)) → Reads self.old taken given
            → (more : List ℕ) × Consumes (S.left source.old) (S.left source.new) more
            × RowIs given (taken ++ more) self.new
            (S.left source.new) (S.faults source.old) (S.faults source.new) result }
        ensures inputs { self.new.inputs ≡ self.old.inputs }
        ensures memory { result ≡ Err f.Memory → self.old.number ≡ 0 }
        ensures live { IsTrue self.new.live ↔ (result ≡ Ok true) }
        ensures later { S.faults source.old ≤ S.faults source.new }
    {
        match take_head(
            alloc,
            &self.inputs,
            self.number,
            &mut self.columns,
            &mut self.buffer,
            source,
        ) {
            Ok(number) => match take_line(
                alloc,
                &self.inputs,
                number,
                &mut self.columns,
                &mut self.buffer,
                source,
            ) {
                Ok(true) => {
                    self.number = number + 1;
                    Ok(true)
                }
                Ok(false) => {
                    self.number = number;
                    self.live = false;
                    Ok(false)
                }
                Err(fault) => {
                    self.live = false;
                    Err(fault)
                }
            },
            Err(fault) => {
                self.live = false;
                Err(fault)
            }
        }
    }

    /// The row that was read last: a value for each data input, in order of the ports.
    pub fn row(&self) -> &[u128]
        ensures { result.now ≡ self.now.layout.row }
    {
        self.columns.row()
    }
}
