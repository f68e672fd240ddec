//! What the program is told and what it says: the words of a command line, and the report.
//!
//! Below: `dt_core`, `dt_io`, `itoa`. Above: `dessert`.
//! Promise: `read_words` gives the one job of words that are an allowed line, and else the number of the first word
//! that no allowed line has in this place after the words before it. It takes no memory and has no other answer.
//! `write_report` appends the text of an answer; or the sink's count of faults rose, and a front of the text was
//! appended.
//! `specs/Words` says which lines are allowed, as a grammar of lines, and what each asks for; `specs/Report` has the
//! texts.
//! `words_law`: a job is one, and is within the limits of lag and files.
//! A command or option that isn't built is a bad word. To build one is to add its row to each table of `options` and
//! `specs/Words`, and its variant to `Job`.
//! Not said: that a file of a line is there, or that a design has the module that is named.
#![tactic(auto)]

ghost use Rattle.talk.specs.Laws.{OneJob, JobsAreWithinLimits, OneNumber, BadIsNoLine, UsageHasNumber};

pub mod answer;
pub mod job;
pub mod options;
mod piece;
pub mod report;
pub mod words;

/// Words ask for one job at most, which is within the limits, and one word at most is the first bad one. Words with a bad one are no allowed
/// line, and the line that is written for them has its number.
pub fn words_law()
    ensures one_job { OneJob }
    ensures within_limits { JobsAreWithinLimits }
    ensures one_number { OneNumber }
    ensures no_line { BadIsNoLine }
    ensures has_number { UsageHasNumber }
{}
