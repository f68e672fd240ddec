//! Writing the report.

ghost use Rattle.std.specs.Prelude.{◌≡◌, IfOk, List, ℕ};
ghost use Rattle.talk.specs.Report.{report_text};
ghost use Rattle.dessert.specs.Outside.{sink_at};
ghost use Rattle.dessert.specs.Calls.Writing.{Wrote, Reported};
ghost use Rattle.dessert.specs.Calls.Ended.{status_of};

use crate::ended::Ended;
use dt_core::fault::NoMemory;
use dt_io::outside::Sink;
use talk::answer::Answer;
use talk::report::write_report;

/// Writes the report, and ends so.
pub fn finish<T: Sink>(report: &mut T, answer: &Answer, ended: Ended) -> Ended
    ensures { Wrote (report_text answer.now) (status_of ended) (status_of result)
        (sink_at T.Sink report.old) (sink_at T.Sink report.new) }
{
    match write_report(report, answer) {
        Ok(()) => ended,
        Err(_) => Ended::Reporting,
    }
}

/// Writes the report, if there was memory for it, and ends so.
pub fn finish_made<T: Sink>(report: &mut T, answer: Result<Answer, NoMemory>, ended: Ended) -> Ended
    ensures { (text : List ℕ) → IfOk answer (λ it. report_text it ≡ text)
        → Reported text (status_of ended) (status_of result) (sink_at T.Sink report.old) (sink_at T.Sink report.new) }
{
    match answer {
        Ok(answer) => finish(report, &answer, ended),
        Err(NoMemory) => Ended::Memory,
    }
}
