//! The top call.

ghost use Rattle.std.specs.Prelude.{◌≡◌, ◌≤◌, ◌<◌, ◌+◌, [], map, length, List, ℕ, IfOk, IsSome, Some};
ghost use Rattle.dt_core.specs.declared.limits.TheConstants.{MAX_FILES, MAX_LAG};
ghost use Rattle.talk.specs.Plain.{named, plain};
ghost use Rattle.talk.specs.Report.{failure_text, report_text};
ghost use Rattle.talk.specs.Words.{Asks, sim};
ghost use Rattle.netlist.specs.Fits.{IsWellFormed};
ghost use Rattle.vl_front.specs.Reads.{Reads};
ghost use Rattle.vl_front.specs.Top.{asked};
ghost use Rattle.window_run.specs.Ran.{RanTo};
ghost use Rattle.window_run.specs.Window.{window_start};
ghost use Rattle.dessert.specs.Outside.{FilesAt, source_at, sink_at, streams_at, outside_at};
ghost use Rattle.dessert.specs.Answer.{Answers};
ghost use Rattle.dessert.specs.Answer as status;
ghost use Rattle.dessert.specs.Outcome.{layers};
ghost use Rattle.dessert.specs.Steps.{AreFew};
ghost use Rattle.dessert.specs.Headline.{IsAnswer, IsComplete};
ghost use Rattle.dessert.specs.Calls.Led.{LedToText, LedToDesign};
ghost use Rattle.dessert.specs.Calls.Told.{told_of, AreStops, TakesBits};
ghost use Rattle.dessert.specs.Calls.Writing.{Delivered};
ghost use Rattle.dessert.specs.Calls.Written.{RunIsWritten, GivesUp, cycles_by, out_by};
ghost use Rattle.dessert.specs.Calls.Ended.{status_of};

use crate::answers;
use crate::ended::Ended;
use crate::inputs::inputs_of;
use crate::rows::run_rows;
use crate::sources::{Origins, Sources, SourcesFault, load_sources};
use crate::write::{finish, finish_made};
use design_names::laws::stops_law;
use dt_core::fault::NoMemory;
use dt_io::outside::{Files, Sink, Source};
use flat_sim::steps::Steps;
use netlist::flat::Flat;
use std::alloc::Global;
use std::sync::ledger::Ledger;
use stimulus::reader::StimReader;
use stimulus::refusal::StimFault;
use talk::answer::Answer;
use talk::words::read_words;
use vl_front::{DesignFault, read_design};
use waveform::fault::VcdFault;
use window_run::failure::Failure;
use window_run::run::Run;

/// Loads the files, reads their design, runs it over all rows of the stimulus, and writes what comes of it: the waveform
/// of the window of a failure to `out`, and then the report. Each cycle that is settled counts one step.
/// The status: 0 no failure, 1 a failure, 2 the words, 3 the design, 4 the stimulus, 5 a file, 6 reading, 7 writing to
/// `out`, 8 writing the report, 9 out of memory.
pub fn quiet_main<F: Files, S: Source, V: Sink, T: Sink, L: Ledger>(
    alloc: Global,
    words: &[&str],
    files: &mut F,
    stimulus: &mut S,
    out: &mut V,
    report: &mut T,
    steps: &mut Steps<L>,
) -> u8
    ensures answers { let seen = outside_at F.Files S.Source V.Sink T.Sink in
        IsAnswer (named words.now) (seen files.old stimulus.old out.old report.old steps.old)
        (seen files.new stimulus.new out.new report.new steps.new) result }
    ensures complete { let seen = outside_at F.Files S.Source V.Sink T.Sink in
        IsComplete (named words.now) (seen files.old stimulus.old out.old report.old steps.old)
        (seen files.new stimulus.new out.new report.new steps.new) result }
{
    answer(alloc, words, files, stimulus, out, report, steps).number()
}

// The same, with the answer by its name.
fn answer<F: Files, S: Source, V: Sink, T: Sink, L: Ledger>(
    alloc: Global,
    words: &[&str],
    files: &mut F,
    stimulus: &mut S,
    out: &mut V,
    report: &mut T,
    steps: &mut Steps<L>,
) -> Ended
    ensures answers { let seen = outside_at F.Files S.Source V.Sink T.Sink in
        Answers layers (named words.now) (seen files.old stimulus.old out.old report.old steps.old)
        (seen files.new stimulus.new out.new report.new steps.new) (status_of result) }
    ensures steps { let seen = outside_at F.Files S.Source V.Sink T.Sink in
        AreFew (named words.now) (seen files.old stimulus.old out.old report.old steps.old)
        (seen files.new stimulus.new out.new report.new steps.new) }
{
    match read_words(words) {
        Ok(job) => run_files(
            alloc,
            job.lag(),
            job.top(),
            job.files(),
            files,
            stimulus,
            out,
            report,
            steps,
        ),
        Err(usage) => {
            let number = usage.number();
            finish(report, &Answer::Usage { number }, Ended::Usage)
        }
    }
}

// Goes on from words that ask for this lag, this top and these files: the answer is the whole call's.
fn run_files<F: Files, S: Source, V: Sink, T: Sink, L: Ledger>(
    alloc: Global,
    lag: u32,
    top: Option<&[u8]>,
    names: &[&str],
    files: &mut F,
    stimulus: &mut S,
    out: &mut V,
    report: &mut T,
    steps: &mut Steps<L>,
) -> Ended
    requires lag { lag ≤ MAX_LAG }
    requires few { length names.now ≤ MAX_FILES }
    ensures answers { let seen = outside_at F.Files S.Source V.Sink T.Sink in
        (words : List (List ℕ)) → Asks words (sim lag (plain top.entry) (named names.now))
        → Answers layers words (seen files.old stimulus.old out.old report.old steps.old)
        (seen files.new stimulus.new out.new report.new steps.new) (status_of result) }
    ensures steps { let seen = outside_at F.Files S.Source V.Sink T.Sink in
        (words : List (List ℕ)) → Asks words (sim lag (plain top.entry) (named names.now))
        → AreFew words (seen files.old stimulus.old out.old report.old steps.old)
        (seen files.new stimulus.new out.new report.new steps.new) }
{
    match load_sources(alloc, names, files) {
        Ok(sources) => run_sources(alloc, lag, top, sources, stimulus, out, report, steps),
        Err(SourcesFault::Failed(name)) => {
            finish_made(report, answers::file_failed(alloc, name), Ended::File)
        }
        Err(SourcesFault::TooLong(name)) => {
            finish_made(report, answers::file_long(alloc, name), Ended::File)
        }
        Err(SourcesFault::Memory) => Ended::Memory,
    }
}

// Goes on from files that were loaded: whatever led there, the answer is the whole call's.
fn run_sources<S: Source, V: Sink, T: Sink, L: Ledger>(
    alloc: Global,
    lag: u32,
    top: Option<&[u8]>,
    sources: Sources<'_>,
    stimulus: &mut S,
    out: &mut V,
    report: &mut T,
    steps: &mut Steps<L>,
) -> Ended
    requires text { length sources.text.items < u32.MAX }
    requires lag { lag ≤ MAX_LAG }
    ensures answers { let seen = streams_at S.Source V.Sink T.Sink in
        (words : List (List ℕ)) (files : FilesAt)
        → LedToText words files lag (plain top.entry) sources.entry.origins sources.entry.text.items
        → Answers layers words (seen files stimulus.old out.old report.old steps.old)
        (seen files stimulus.new out.new report.new steps.new) (status_of result) }
    ensures steps { let seen = streams_at S.Source V.Sink T.Sink in
        (words : List (List ℕ)) (files : FilesAt)
        → LedToText words files lag (plain top.entry) sources.entry.origins sources.entry.text.items
        → AreFew words (seen files stimulus.old out.old report.old steps.old)
        (seen files stimulus.new out.new report.new steps.new) }
{
    let Sources { text, origins } = sources;
    match read_text(alloc, text, top) {
        Ok(flat) => run_design(alloc, lag, &origins, &flat, stimulus, out, report, steps),
        Err(DesignFault::At { line, kind, .. }) => finish_made(
            report,
            answers::design_fault(alloc, origins.spot(line), kind.name()),
            Ended::Design,
        ),
        Err(DesignFault::NoTop { line }) => finish_made(
            report,
            answers::design_fault(alloc, origins.spot(line), "NoTop"),
            Ended::Design,
        ),
        Err(DesignFault::NotYetBuilt) => finish(report, &Answer::NotYetBuilt, Ended::Design),
        Err(DesignFault::Memory) => Ended::Memory,
    }
}

// The design of a text, which is gone before the run.
fn read_text(alloc: Global, text: Vec<u8>, top: Option<&[u8]>) -> Result<Flat, DesignFault>
    requires { length text.items < u32.MAX }
    ensures { Reads text.items (asked top.entry) result }
{
    read_design(alloc, &text, top)
}

// Goes on from an accepted design: whatever led there, the answer is the whole call's.
fn run_design<S: Source, V: Sink, T: Sink, L: Ledger>(
    alloc: Global,
    lag: u32,
    origins: &Origins<'_>,
    flat: &Flat,
    stimulus: &mut S,
    out: &mut V,
    report: &mut T,
    steps: &mut Steps<L>,
) -> Ended
    requires bits { TakesBits flat.now }
    requires undriven { flat.now.driven ≡ [] }
    requires lag { lag ≤ MAX_LAG }
    ensures answers { let seen = streams_at S.Source V.Sink T.Sink in
        (words : List (List ℕ)) (files : FilesAt) → LedToDesign words files lag origins.now flat.now
        → Answers layers words (seen files stimulus.old out.old report.old steps.old)
        (seen files stimulus.new out.new report.new steps.new) (status_of result) }
    ensures steps { let seen = streams_at S.Source V.Sink T.Sink in
        (words : List (List ℕ)) (files : FilesAt) → LedToDesign words files lag origins.now flat.now
        → AreFew words (seen files stimulus.old out.old report.old steps.old)
        (seen files stimulus.new out.new report.new steps.new) }
{
    stops_law();
    let Ok(inputs) = inputs_of(alloc, flat) else {
        return Ended::Memory;
    };
    let Ok(mut reader) = StimReader::new(alloc, inputs) else {
        return Ended::Memory;
    };
    let Ok(mut run) = Run::start(alloc, flat, &[], lag) else {
        return Ended::Memory;
    };
    match run_rows(alloc, &mut reader, &mut run, stimulus, steps) {
        Ok(()) => settle(alloc, lag, origins, &mut run, out, report, steps),
        Err(fault) => give_up(alloc, fault, report),
    }
}

// Writes the report of a run that didn't come to the end of its rows.
fn give_up<T: Sink>(alloc: Global, fault: StimFault, report: &mut T) -> Ended
    ensures { GivesUp fault (status_of result) (sink_at T.Sink report.old) (sink_at T.Sink report.new) }
{
    match fault {
        StimFault::Refused(refusal) => {
            finish_made(report, answers::refused(alloc, refusal), Ended::Input)
        }
        StimFault::Read => finish(report, &Answer::InputFailed, Ended::Reading),
        StimFault::Memory => Ended::Memory,
    }
}

// Writes what comes of a run over all rows.
fn settle<V: Sink, T: Sink, L: Ledger>(
    alloc: Global,
    lag: u32,
    origins: &Origins<'_>,
    run: &mut Run<'_>,
    out: &mut V,
    report: &mut T,
    steps: &mut Steps<L>,
) -> Ended
    requires ran { (rows : List (List ℕ)) × RanTo run.old.flat [] rows run.old }
    requires lag { run.old.lag ≡ lag }
    ensures written { (rows : List (List ℕ)) → RanTo run.old.flat [] rows run.old
        → RunIsWritten lag origins.now run.old.flat rows run.old (status_of result)
        (sink_at V.Sink out.old) (sink_at V.Sink out.new) (sink_at T.Sink report.old) (sink_at T.Sink report.new) }
    ensures steps { steps.new ≤ steps.old + cycles_by lag run.old.failure }
{
    stops_law();
    match run.failure() {
        Some(failure) => {
            let answer = failure_report(alloc, lag, origins, run.flat(), failure);
            fail(alloc, run, answer, out, report, steps)
        }
        None => {
            let cycles = run.cycles();
            finish(report, &Answer::NoFailure { cycles }, Ended::Quiet)
        }
    }
}

// Writes the waveform of the window of a failure, and the report, if there was memory for it.
fn fail<V: Sink, T: Sink, L: Ledger>(
    alloc: Global,
    run: &mut Run<'_>,
    answer: Result<Answer, NoMemory>,
    out: &mut V,
    report: &mut T,
    steps: &mut Steps<L>,
) -> Ended
    requires ran { (rows : List (List ℕ)) × RanTo run.old.flat [] rows run.old }
    requires failed { IsSome run.old.failure }
    ensures written { (rows : List (List ℕ)) (text : List ℕ) → RanTo run.old.flat [] rows run.old
        → IfOk answer (λ it. report_text it ≡ text)
        → Delivered (out_by run.old.lag run.old.flat rows run.old.failure) text status.failure (status_of result)
        (sink_at V.Sink out.old) (sink_at V.Sink out.new) (sink_at T.Sink report.old) (sink_at T.Sink report.new) }
    ensures steps { steps.new ≤ steps.old + cycles_by run.old.lag run.old.failure }
{
    match run.write_window(alloc, out, steps) {
        Ok(()) => finish_made(report, answer, Ended::Failure),
        Err(VcdFault::Write) => finish(report, &Answer::OutputFailed, Ended::Writing),
        Err(VcdFault::Memory) => Ended::Memory,
    }
}

// The report of a failure, whose window has this lag.
fn failure_report(
    alloc: Global,
    lag: u32,
    origins: &Origins<'_>,
    flat: &Flat,
    failure: &Failure,
) -> Result<Answer, NoMemory>
    requires fits { IsWellFormed flat.now }
    requires there { AreStops flat.now failure.now.fired }
    ensures { let stops = map (told_of flat.now origins.now) failure.now.fired in
        let first = window_start lag failure.now.cycle in
        IfOk result (λ it. report_text it ≡ failure_text failure.now.cycle stops first) }
{
    let first = failure.cycle.saturating_sub(u64::from(lag));
    answers::failure(alloc, flat, origins, failure, first)
}
