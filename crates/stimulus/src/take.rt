//! Taking lines from a source, one after another.

ghost use Rattle.std.specs.Prelude.{◌≡◌, ◌+◌, ◌<◌, ◌≤◌, ◌⊎◌, IfOk, Ok, Err, true, false, IsTrue};
ghost use Rattle.std.specs.List.{All};
ghost use Rattle.stimulus.specs.Calls.Taking.{TakesHead, TakesLine, TakesRow, end_of, fault_at, refused_at};
ghost use Rattle.stimulus.specs.declared.refusal.StimFault.TheVariants as f;

use crate::buffer::Buffer;
use crate::columns::Columns;
use crate::judge::judge;
use crate::lines::{Line, next_line};
use crate::names::LineFault;
use crate::refusal::{Input, MAX_LINE, Refusal, RefusalKind, StimFault};
use dt_core::limits::{MAX_ROWS, MAX_WIDTH};
use dt_io::outside::Source;
use std::alloc::Global;

// The refusal of the line of this number from 0.
fn refuse(number: u64, kind: RefusalKind) -> StimFault
    requires { number ≤ MAX_ROWS + 2 }
    ensures { result ≡ refused_at number kind }
{
    StimFault::Refused(Refusal {
        kind,
        line: number + 1,
    })
}

// The fault of the line of this number.
fn of_line(number: u64, fault: LineFault) -> StimFault
    requires { number ≤ MAX_ROWS + 2 }
    ensures { result ≡ fault_at number fault }
{
    match fault {
        LineFault::Refused(kind) => refuse(number, kind),
        LineFault::Memory => StimFault::Memory,
    }
}

// The answer at the source's end, after so many lines and with these bytes left.
fn end_after(number: u64, rest: &[u8]) -> Result<bool, StimFault>
    requires { number ≤ MAX_ROWS + 2 }
    ensures { result ≡ end_of number rest.now }
{
    if number > 1 && rest.is_empty() {
        return Ok(false);
    }
    Err(refuse(number, RefusalKind::Truncated))
}

/// Takes the line of this number from 0: false at the end of a whole stimulus.
pub(crate) fn take_line<S: Source>(
    alloc: Global,
    inputs: &[Input],
    number: u64,
    columns: &mut Columns,
    buffer: &mut Buffer,
    source: &mut S,
) -> Result<bool, StimFault>
    requires widths { All (λ i. i.width ≤ MAX_WIDTH) inputs.now }
    requires few { number ≤ MAX_ROWS + 2 }
    ensures line { TakesLine inputs.now number columns.old buffer.old columns.new buffer.new
        (S.left source.old) (S.left source.new) (S.faults source.old) (S.faults source.new) result }
    ensures few { result ≡ Ok true → number < MAX_ROWS + 2 }
    ensures memory { result ≡ Err f.Memory → number ≡ 1 }
    ensures later { S.faults source.old ≤ S.faults source.new }
{
    match next_line(buffer, source) {
        Ok(Line::Ended(len)) => {
            if len > MAX_LINE {
                return Err(refuse(number, RefusalKind::LineTooLong));
            }
            match judge(alloc, inputs, columns, number, &buffer.held()[..len]) {
                Ok(()) => {
                    buffer.skip(len + 1);
                    Ok(true)
                }
                Err(fault) => Err(of_line(number, fault)),
            }
        }
        Ok(Line::Long) => Err(refuse(number, RefusalKind::LineTooLong)),
        Ok(Line::Last) => end_after(number, buffer.held()),
        Err(_) => Err(StimFault::Read),
    }
}

/// Takes lines 1 and 2, where no line was taken yet: how many lines were taken.
pub(crate) fn take_head<S: Source>(
    alloc: Global,
    inputs: &[Input],
    number: u64,
    columns: &mut Columns,
    buffer: &mut Buffer,
    source: &mut S,
) -> Result<u64, StimFault>
    requires widths { All (λ i. i.width ≤ MAX_WIDTH) inputs.now }
    requires few { number ≤ MAX_ROWS + 2 }
    requires head { (number ≡ 0) ⊎ (2 ≤ number) }
    ensures head { TakesHead inputs.now number columns.old buffer.old columns.new buffer.new
        (S.left source.old) (S.left source.new) (S.faults source.old) (S.faults source.new) result }
    ensures few { IfOk result (λ n. (2 ≤ n) × (n ≤ MAX_ROWS + 2)) }
    ensures memory { result ≡ Err f.Memory → number ≡ 0 }
    ensures later { S.faults source.old ≤ S.faults source.new }
{
    if number > 0 {
        return Ok(number);
    }
    match take_line(alloc, inputs, 0, columns, buffer, source) {
        Ok(_) => match take_line(alloc, inputs, 1, columns, buffer, source) {
            Ok(_) => Ok(2),
            Err(fault) => Err(fault),
        },
        Err(fault) => Err(fault),
    }
}

/// Takes a row of single digits, where one stands whole at the head of the bytes held, as the line of this number from
/// 0: whether it did.
pub(crate) fn take_single(number: u64, columns: &mut Columns, buffer: &mut Buffer) -> bool
    ensures taken { IsTrue result → TakesRow number columns.old buffer.old columns.new buffer.new }
    ensures few { IsTrue result → (2 ≤ number) × (number < MAX_ROWS + 2) }
    ensures left { result ≡ false → buffer.new ≡ buffer.old }
    ensures same { (columns.new.widths ≡ columns.old.widths) × (columns.new.places ≡ columns.old.places) }
{
    if number < 2 || number >= MAX_ROWS as u64 + 2 {
        return false;
    }
    match columns.read_single(buffer.held()) {
        Some(len) if len <= MAX_LINE => {
            buffer.skip(len + 1);
            true
        }
        _ => false,
    }
}
