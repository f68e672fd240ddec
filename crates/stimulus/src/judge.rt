//! Judging a line by its number.

ghost use Rattle.std.specs.Prelude.{◌≡◌, ◌+◌, ◌-◌, ◌≤◌, ◌<◌, OnOk, Some, None, map, drop, bytes_eq, codes, nat_le, if◌then◌else◌};
ghost use Rattle.std.specs.List.{All};
ghost use Rattle.std.specs.Str.Lines.{strip_carriage_return};
ghost use Rattle.stimulus.specs.Stimulus.{names_fault, row_fault, values_of, numbers_at, words};
ghost use Rattle.stimulus.specs.Calls.Names.{Judges, OnMemory};
ghost use Rattle.stimulus.specs.Calls.Judging.{IsLayout, JudgesLine};
ghost use Rattle.stimulus.specs.declared.refusal.RefusalKind.TheVariants as k;

use crate::columns::Columns;
use crate::names::LineFault;
use crate::refusal::{Input, RefusalKind};
use dt_core::limits::{MAX_ROWS, MAX_WIDTH};
use std::alloc::Global;

// The line without the CR at its end, if it has one.
fn without_return(line: &[u8]) -> &[u8]
    ensures { result.now ≡ strip_carriage_return line.now }
{
    match line.split_last() {
        Some((b'\r', front)) => front,
        _ => line,
    }
}

// Judges line 1.
fn judge_title(line: &[u8]) -> Result<(), LineFault>
    ensures judges { Judges (if bytes_eq line.now (codes "stimulus 1") then None else Some k.BadHeader)
        (λ _. Unit {0}) result }
    ensures memory { OnMemory ⊥ result }
{
    if line == b"stimulus 1".as_slice() {
        Ok(())
    } else {
        Err(LineFault::Refused(RefusalKind::BadHeader))
    }
}

// Judges line 2, and takes the columns that it gives.
fn judge_names(
    alloc: Global,
    inputs: &[Input],
    columns: &mut Columns,
    line: &[u8],
) -> Result<(), LineFault>
    requires { All (λ i. i.width ≤ MAX_WIDTH) inputs.now }
    ensures { Judges (names_fault inputs.now (words line.now))
        (λ _. IsLayout inputs.now (drop 1 (words line.now)) columns.new) result }
{
    match Columns::of_line(alloc, inputs, line) {
        Ok(made) => {
            *columns = made;
            Ok(())
        }
        Err(fault) => Err(fault),
    }
}

// Judges a row after `given` rows, and reads it.
fn judge_row(columns: &mut Columns, given: u64, line: &[u8]) -> Result<(), LineFault>
    ensures row { Judges
        (if nat_le MAX_ROWS given then Some k.TooManyRows else row_fault columns.old.widths (values_of line.now))
        (λ _. columns.new.row ≡ numbers_at (values_of line.now) columns.old.places) result }
    ensures same { (columns.new.widths ≡ columns.old.widths) × (columns.new.places ≡ columns.old.places) }
    ensures few { OnOk result (given < MAX_ROWS) }
    ensures memory { OnMemory ⊥ result }
{
    if given >= MAX_ROWS as u64 {
        return Err(LineFault::Refused(RefusalKind::TooManyRows));
    }
    match columns.read_row(line) {
        Ok(()) => Ok(()),
        Err(kind) => Err(LineFault::Refused(kind)),
    }
}

/// Judges a line that isn't too long, by its number from 0.
pub(crate) fn judge(
    alloc: Global,
    inputs: &[Input],
    columns: &mut Columns,
    number: u64,
    line: &[u8],
) -> Result<(), LineFault>
    requires { All (λ i. i.width ≤ MAX_WIDTH) inputs.now }
    ensures judges { JudgesLine inputs.now number line.now columns.old columns.new result }
    ensures few { OnOk result (number < MAX_ROWS + 2) }
    ensures memory { OnMemory (number ≡ 1) result }
{
    let content = without_return(line);
    match number {
        0 => judge_title(content),
        1 => judge_names(alloc, inputs, columns, content),
        _ => judge_row(columns, number - 2, content),
    }
}
