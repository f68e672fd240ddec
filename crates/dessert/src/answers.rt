//! What is reported of files, a design, a stimulus and a run.

ghost use Rattle.std.specs.Prelude.{◌≡◌, ◌<◌, IfOk, map, length};
ghost use Rattle.netlist.specs.Fits.{IsWellFormed};
ghost use Rattle.design_names.specs.Stops.{flat_stops};
ghost use Rattle.talk.specs.declared.answer.Answer.TheVariants as a;
ghost use Rattle.talk.specs.Report.{report_text, failure_text, fault_text};
ghost use Rattle.stimulus.specs.Refusals.{name_of};
ghost use Rattle.dessert.specs.Calls.Told.{told_of, AreStops};

use crate::sources::{Origins, Spot};
use design_names::names::Names;
use design_names::path::path_text;
use design_names::stops::Stop;
use dt_core::fault::NoMemory;
use dt_core::text::Text;
use message_text::telling::Fired;
use netlist::flat::Flat;
use std::alloc::Global;
use stimulus::refusal::Refusal;
use talk::answer::{Answer, StopLine};
use window_run::failure::Failure;

// An assertion that fired, by the stop that has its number.
fn stop_line(
    alloc: Global,
    flat: &Flat,
    stops: &[Stop],
    origins: &Origins<'_>,
    fired: &Fired,
) -> Result<StopLine, NoMemory>
    requires fits { IsWellFormed flat.now }
    requires stops { stops.now ≡ flat_stops flat.now }
    requires there { fired.now.stop < length stops.now }
    ensures { IfOk result (λ line. line ≡ told_of flat.now origins.now fired.now) }
{
    let stop = stops[fired.stop as usize];
    let spot = origins.spot(stop.place.line);
    Ok(StopLine {
        path: path_text(alloc, flat, stop.scope)?,
        fatal: stop.fatal,
        file: Text::copied(alloc, spot.file.as_bytes())?,
        line: spot.line,
        message: Text::copied(alloc, fired.message.bytes())?,
    })
}

// All assertions that fired.
fn stop_lines(
    alloc: Global,
    flat: &Flat,
    stops: &[Stop],
    origins: &Origins<'_>,
    fired: &[Fired],
) -> Result<Vec<StopLine>, NoMemory>
    requires fits { IsWellFormed flat.now }
    requires stops { stops.now ≡ flat_stops flat.now }
    requires there { AreStops flat.now fired.now }
    ensures { IfOk result (λ lines. lines.items ≡ map (told_of flat.now origins.now) fired.now) }
{
    let mut lines = Vec::new(alloc);
    for one in fired {
        let line = stop_line(alloc, flat, stops, origins, one)?;
        if lines.push(line).is_err() {
            return Err(NoMemory);
        }
    }
    Ok(lines)
}

/// The first failure of a design: its cycle, what fired, and the window from the cycle `first` to it.
pub fn failure(
    alloc: Global,
    flat: &Flat,
    origins: &Origins<'_>,
    failure: &Failure,
    first: u64,
) -> Result<Answer, NoMemory>
    requires fits { IsWellFormed flat.now }
    requires there { AreStops flat.now failure.now.fired }
    ensures { let stops = map (told_of flat.now origins.now) failure.now.fired in
        IfOk result (λ it. report_text it ≡ failure_text failure.now.cycle stops first) }
{
    let names = Names::new(alloc, flat)?;
    let stops = stop_lines(alloc, flat, names.stops(), origins, &failure.fired)?;
    Ok(Answer::Failure {
        cycle: failure.cycle,
        stops,
        first,
    })
}

/// A fault of the design, of this kind, at a line of a file.
pub fn design_fault(alloc: Global, spot: Spot<'_>, kind: &str) -> Result<Answer, NoMemory>
    ensures { let text = fault_text spot.entry.file.now spot.entry.line kind.now in
        IfOk result (λ it. report_text it ≡ text) }
{
    Ok(Answer::Design {
        file: Text::copied(alloc, spot.file.as_bytes())?,
        line: spot.line,
        kind: Text::copied(alloc, kind.as_bytes())?,
        parts: Vec::new(alloc),
    })
}

/// A stimulus that is refused.
pub fn refused(alloc: Global, refusal: Refusal) -> Result<Answer, NoMemory>
    ensures { IfOk result (λ it. it ≡ a.Stimulus refusal.line (name_of refusal.kind)) }
{
    Ok(Answer::Stimulus {
        line: refusal.line,
        kind: Text::copied(alloc, refusal.kind.name().as_bytes())?,
    })
}

/// A file that could not be loaded.
pub fn file_failed(alloc: Global, name: &str) -> Result<Answer, NoMemory>
    ensures { IfOk result (λ it. it ≡ a.FileFailed name.now) }
{
    Ok(Answer::FileFailed {
        name: Text::copied(alloc, name.as_bytes())?,
    })
}

/// A file that is longer than a file may be.
pub fn file_long(alloc: Global, name: &str) -> Result<Answer, NoMemory>
    ensures { IfOk result (λ it. it ≡ a.FileTooLong name.now) }
{
    Ok(Answer::FileTooLong {
        name: Text::copied(alloc, name.as_bytes())?,
    })
}
