//! The report.

ghost use Rattle.std.specs.Prelude.{◌≡◌, ◌++◌, OnOk};
ghost use Rattle.std.specs.Io.KnownBytes.{Appends};
ghost use Rattle.dt_core.specs.Causes.{HasCause, AppendsPart};
ghost use Rattle.talk.specs.Report as text;
ghost use Rattle.talk.specs.Writes.{Writes};

use crate::answer::{Answer, LoopLine, StopLine};
use crate::piece::{Piece, write_pieces};
use dt_core::fault::Failed;
use dt_io::outside::{Sink, write_all};

// The first words of the line of an assertion that fired.
fn stop_word(fatal: bool) -> &'static [u8]
    ensures { result.now ≡ text.stop_word fatal }
{
    if fatal { b"fatal in " } else { b"stop in " }
}

// What ends a message: nothing where it is empty or ends with LF.
fn line_end(message: &[u8]) -> &'static [u8]
    ensures { result.now ≡ text.line_end message.now }
{
    match message {
        [] => b"",
        [.., last] => { if *last == b'\n' { b"" } else { b"\n" } }
    }
}

// Writes a number between two texts.
fn write_counted<'x, T: Sink>(
    report: &mut T,
    before: &'x [u8],
    number: u64,
    after: &'x [u8],
) -> Result<(), Failed>
    ensures { Writes (text.counted before.now number after.now) result (T.held report.old) (T.held report.new)
        (T.faults report.old) (T.faults report.new) }
{
    write_pieces(
        report,
        &[
            Piece::Bytes(before),
            Piece::Number(number),
            Piece::Bytes(after),
        ],
    )
}

// Writes a text, and the first and the last of some cycles.
fn write_span<T: Sink>(report: &mut T, before: &[u8], first: u64, last: u64) -> Result<(), Failed>
    ensures { Writes (text.span before.now first last) result (T.held report.old) (T.held report.new)
        (T.faults report.old) (T.faults report.new) }
{
    write_pieces(
        report,
        &[
            Piece::Bytes(before),
            Piece::Number(first),
            Piece::Bytes(b" to "),
            Piece::Number(last),
            Piece::Bytes(b"\n"),
        ],
    )
}

// Writes the line that says where an assertion stands.
fn write_place<T: Sink>(report: &mut T, stop: &StopLine) -> Result<(), Failed>
    ensures { Writes (text.place_text stop.now) result (T.held report.old) (T.held report.new) (T.faults report.old)
        (T.faults report.new) }
{
    write_pieces(
        report,
        &[
            Piece::Bytes(stop_word(stop.fatal)),
            Piece::Bytes(stop.path.bytes()),
            Piece::Bytes(b" at "),
            Piece::Bytes(stop.file.bytes()),
            Piece::Bytes(b":"),
            Piece::Number(u64::from(stop.line)),
            Piece::Bytes(b"\n"),
        ],
    )
}

// Writes the message of an assertion that fired, to the end of a line.
fn write_message<T: Sink>(report: &mut T, message: &[u8]) -> Result<(), Failed>
    ensures { Writes (message.now ++ text.line_end message.now) result (T.held report.old) (T.held report.new)
        (T.faults report.old) (T.faults report.new) }
{
    write_pieces(
        report,
        &[Piece::Bytes(message), Piece::Bytes(line_end(message))],
    )
}

// Writes the lines of an assertion that fired.
fn write_stop<T: Sink>(report: &mut T, stop: &StopLine) -> Result<(), Failed>
    ensures { Writes (text.stop_text stop.now) result (T.held report.old) (T.held report.new) (T.faults report.old)
        (T.faults report.new) }
{
    write_place(report, stop)?;
    write_message(report, stop.message.bytes())
}

// Writes the lines of all assertions that fired.
fn write_stops<T: Sink>(report: &mut T, stops: &[StopLine]) -> Result<(), Failed>
    ensures { Writes (text.stops_text stops.now) result (T.held report.old) (T.held report.new) (T.faults report.old)
        (T.faults report.new) }
{
    for stop in stops {
        write_stop(report, stop)?;
    }
    Ok(())
}

// Writes the assertions that fired, and the window.
fn write_stops_and_window<T: Sink>(
    report: &mut T,
    cycle: u64,
    stops: &[StopLine],
    first: u64,
) -> Result<(), Failed>
    ensures { Writes (text.stops_text stops.now ++ text.window_text first cycle) result (T.held report.old)
        (T.held report.new) (T.faults report.old) (T.faults report.new) }
{
    write_stops(report, stops)?;
    write_span(report, b"window ", first, cycle)
}

// Writes a failure: its cycle, the assertions that fired in it, and the window.
fn write_failure<T: Sink>(
    report: &mut T,
    cycle: u64,
    stops: &[StopLine],
    first: u64,
) -> Result<(), Failed>
    ensures { Writes (text.failure_text cycle stops.now first) result (T.held report.old) (T.held report.new)
        (T.faults report.old) (T.faults report.new) }
{
    write_counted(report, b"failure at cycle ", cycle, b"\n")?;
    write_stops_and_window(report, cycle, stops, first)
}

// Writes the line of a driven part on a loop.
fn write_loop<T: Sink>(report: &mut T, part: &LoopLine) -> Result<(), Failed>
    ensures { Writes (text.loop_text part.now) result (T.held report.old) (T.held report.new) (T.faults report.old)
        (T.faults report.new) }
{
    write_pieces(
        report,
        &[
            Piece::Bytes(b"loop "),
            Piece::Bytes(part.path.bytes()),
            Piece::Bytes(b" "),
            Piece::Number(u64::from(part.place)),
            Piece::Bytes(b" "),
            Piece::Number(u64::from(part.width)),
            Piece::Bytes(b"\n"),
        ],
    )
}

// Writes the lines of all driven parts on a loop.
fn write_loops<T: Sink>(report: &mut T, parts: &[LoopLine]) -> Result<(), Failed>
    ensures { Writes (text.loops_text parts.now) result (T.held report.old) (T.held report.new) (T.faults report.old)
        (T.faults report.new) }
{
    for part in parts {
        write_loop(report, part)?;
    }
    Ok(())
}

// Writes the line of a fault of the design.
fn write_fault<'x, T: Sink>(
    report: &mut T,
    file: &'x [u8],
    line: u32,
    kind: &'x [u8],
) -> Result<(), Failed>
    ensures { Writes (text.fault_text file.now line kind.now) result (T.held report.old) (T.held report.new)
        (T.faults report.old) (T.faults report.new) }
{
    write_pieces(
        report,
        &[
            Piece::Bytes(b"design: "),
            Piece::Bytes(file),
            Piece::Bytes(b":"),
            Piece::Number(u64::from(line)),
            Piece::Bytes(b": "),
            Piece::Bytes(kind),
            Piece::Bytes(b"\n"),
        ],
    )
}

// Writes the line of a fault of the design, and the parts on a loop, if there are some.
fn write_design<'x, T: Sink>(
    report: &mut T,
    file: &'x [u8],
    line: u32,
    kind: &'x [u8],
    parts: &[LoopLine],
) -> Result<(), Failed>
    ensures { Writes (text.fault_text file.now line kind.now ++ text.loops_text parts.now) result (T.held report.old)
        (T.held report.new) (T.faults report.old) (T.faults report.new) }
{
    write_fault(report, file, line, kind)?;
    write_loops(report, parts)
}

// Writes the line of a refused input.
fn write_refused<'x, T: Sink>(
    report: &mut T,
    before: &'x [u8],
    line: u64,
    kind: &'x [u8],
) -> Result<(), Failed>
    ensures { Writes (text.refused_text before.now line kind.now) result (T.held report.old) (T.held report.new)
        (T.faults report.old) (T.faults report.new) }
{
    write_pieces(
        report,
        &[
            Piece::Bytes(before),
            Piece::Number(line),
            Piece::Bytes(b": "),
            Piece::Bytes(kind),
            Piece::Bytes(b"\n"),
        ],
    )
}

// Writes what is said of a file.
fn write_file<'x, T: Sink>(report: &mut T, name: &'x [u8], what: &'x [u8]) -> Result<(), Failed>
    ensures { Writes (text.file_text name.now what.now) result (T.held report.old) (T.held report.new)
        (T.faults report.old) (T.faults report.new) }
{
    write_pieces(
        report,
        &[
            Piece::Bytes(b"file "),
            Piece::Bytes(name),
            Piece::Bytes(what),
        ],
    )
}

// Writes that no assertion fired in so many cycles.
fn write_quiet<T: Sink>(report: &mut T, cycles: u64) -> Result<(), Failed>
    ensures { Writes (text.quiet_text cycles) result (T.held report.old) (T.held report.new) (T.faults report.old)
        (T.faults report.new) }
{
    write_counted(report, b"no failure in ", cycles, b" cycles\n")
}

// Writes that no assertion fired from the first of these cycles to the last.
fn write_quiet_span<T: Sink>(report: &mut T, first: u64, last: u64) -> Result<(), Failed>
    ensures { Writes (text.quiet_span_text first last) result (T.held report.old) (T.held report.new)
        (T.faults report.old) (T.faults report.new) }
{
    write_span(report, b"no failure in cycles ", first, last)
}

// Writes the number of the first bad word.
fn write_usage<T: Sink>(report: &mut T, number: u32) -> Result<(), Failed>
    ensures { Writes (text.usage_text number) result (T.held report.old) (T.held report.new) (T.faults report.old)
        (T.faults report.new) }
{
    write_counted(report, b"usage: word ", u64::from(number), b"\n")
}

// Writes the report of an answer.
fn write_answer<T: Sink>(report: &mut T, answer: &Answer) -> Result<(), Failed>
    ensures { Writes (text.report_text answer.now) result (T.held report.old) (T.held report.new) (T.faults report.old)
        (T.faults report.new) }
{
    match answer {
        Answer::Failure {
            cycle,
            stops,
            first,
        } => write_failure(report, *cycle, stops, *first),
        Answer::NoFailure { cycles } => write_quiet(report, *cycles),
        Answer::NoFailureIn { first, last } => write_quiet_span(report, *first, *last),
        Answer::Usage { number } => write_usage(report, *number),
        Answer::Design {
            file,
            line,
            kind,
            parts,
        } => { write_design(report, file.bytes(), *line, kind.bytes(), parts) }
        Answer::NotYetBuilt => write_all(report, b"design: NotYetBuilt\n"),
        Answer::Stimulus { line, kind } => write_refused(
            report,
            b"stimulus: line ",
            *line,
            kind.bytes(),
        ),
        Answer::Image { line, kind } => write_refused(report, b"image: line ", *line, kind.bytes()),
        Answer::FileFailed { name } => write_file(report, name.bytes(), b": failed\n"),
        Answer::FileTooLong { name } => write_file(report, name.bytes(), b": too long\n"),
        Answer::InputFailed => write_all(report, b"input: read failed\n"),
        Answer::OutputFailed => write_all(report, b"output: write failed\n"),
    }
}

/// Writes the report of an answer: all of it, or a front of it and a fault. It takes no memory.
pub fn write_report<T: Sink>(report: &mut T, answer: &Answer) -> Result<(), Failed>
    ensures whole { OnOk result (Appends (T.held report.old) (T.held report.new) (text.report_text answer.now)) }
    ensures part { AppendsPart (T.held report.old) (T.held report.new) (text.report_text answer.now) }
    ensures cause { HasCause (T.faults report.old) (T.faults report.new) result }
{
    write_answer(report, answer)
}
