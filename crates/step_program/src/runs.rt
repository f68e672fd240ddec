//! Runs: steps of one kind, done one after another.

ghost use Rattle.std.specs.Prelude.{◌≡◌, ℕ, ◌+◌, ◌≤◌, ◌++◌, ◌∷◌, [], length, map, IfOk, true, false};
ghost use Rattle.step_program.specs.Fits as fits;
ghost use Rattle.step_program.specs.Values as values;
ghost use Rattle.step_program.specs.Running as running;

use crate::fast::{And, Or, Xor, fill};
use crate::rare::rare_value;
use crate::step::{Join, Pick, Rare, Sum, Take, Test};
use crate::words::MemoryWords;

/// How many slots of each kind stand in front of a step.
#[derive(Clone, Copy)]
pub(crate) struct Counts {
    pub narrow: usize,
    pub wide: usize,
}

#[derive(Drop)]
pub(crate) enum GateRun {
    Ands(Vec<And>),
    Ors(Vec<Or>),
    Picks(Vec<Pick>),
}

#[derive(Drop)]
pub(crate) enum WordRun {
    Tests(Vec<Test>),
    Joins(Vec<Join>),
    Takes(Vec<Take>),
}

#[derive(Drop)]
pub(crate) enum RestRun {
    Sums(Vec<Sum>),
    Xors(Vec<Xor>),
    Rares(Vec<Rare>),
}

/// Steps of one kind, by three variants a level, since a jump through a table costs more than two tests.
#[derive(Drop)]
pub(crate) enum Run {
    Gate(GateRun),
    Word(WordRun),
    Rest(RestRun),
}

impl GateRun {
    // Puts the values after the first so many narrow slots, and gives how many there are then.
    fn run(&self, narrow: &mut [u64], from: usize) -> usize
        requires fits { (m : ℕ) × fits.StepsFit from m (running.gate_steps self.now) }
        requires room { from + fits.narrow_steps (running.gate_steps self.now) ≤ length narrow.old }
        ensures { running.Fills (running.gate_steps self.now) from result narrow.old narrow.new }
    {
        match self {
            GateRun::Ands(steps) => fill(steps, narrow, from),
            GateRun::Ors(steps) => fill(steps, narrow, from),
            GateRun::Picks(steps) => fill(steps, narrow, from),
        }
    }
}

impl WordRun {
    // The same.
    fn run(&self, narrow: &mut [u64], from: usize) -> usize
        requires fits { (m : ℕ) × fits.StepsFit from m (running.word_steps self.now) }
        requires room { from + fits.narrow_steps (running.word_steps self.now) ≤ length narrow.old }
        ensures { running.Fills (running.word_steps self.now) from result narrow.old narrow.new }
    {
        match self {
            WordRun::Tests(steps) => fill(steps, narrow, from),
            WordRun::Joins(steps) => fill(steps, narrow, from),
            WordRun::Takes(steps) => fill(steps, narrow, from),
        }
    }
}

// Puts the value of a rare step after the first so many slots of its kind.
fn put_rare(
    step: &Rare,
    words: &[MemoryWords],
    narrow: &mut [u64],
    wide: &mut [u128],
    at: Counts,
) -> Counts
    requires fits { fits.RareFits at.narrow at.wide step.now }
    requires room { (at.narrow + fits.narrow_one (values.is_narrow_width step.now.width) ≤ length narrow.old)
        × (at.wide + fits.wide_one (values.is_narrow_width step.now.width) ≤ length wide.old) }
    ensures { running.Does (map values.contents words.now) (running.rare_steps (step.now ∷ []))
        at.narrow at.wide result.narrow result.wide narrow.old wide.old narrow.new wide.new }
{
    let value = rare_value(step, words, &narrow[..at.narrow], &wide[..at.wide]);
    if value.width() <= 64 {
        narrow[at.narrow] = value.value() as u64;
        Counts {
            narrow: at.narrow + 1,
            wide: at.wide,
        }
    } else {
        wide[at.wide] = value.value();
        Counts {
            narrow: at.narrow,
            wide: at.wide + 1,
        }
    }
}

// Puts the values of rare steps after the first so many slots of each kind.
fn fill_rare(
    steps: &[Rare],
    words: &[MemoryWords],
    narrow: &mut [u64],
    wide: &mut [u128],
    at: Counts,
) -> Counts
    requires fits { fits.StepsFit at.narrow at.wide (running.rare_steps steps.now) }
    requires room { (at.narrow + fits.narrow_steps (running.rare_steps steps.now) ≤ length narrow.old)
        × (at.wide + fits.wide_steps (running.rare_steps steps.now) ≤ length wide.old) }
    ensures { running.Does (map values.contents words.now) (running.rare_steps steps.now)
        at.narrow at.wide result.narrow result.wide narrow.old wide.old narrow.new wide.new }
{
    let mut now = at;
    for step in steps {
        now = put_rare(step, words, narrow, wide, now);
    }
    now
}

impl RestRun {
    // Puts the values after the first so many slots of each kind.
    fn run(
        &self,
        words: &[MemoryWords],
        narrow: &mut [u64],
        wide: &mut [u128],
        at: Counts,
    ) -> Counts
        requires fits { fits.StepsFit at.narrow at.wide (running.rest_steps self.now) }
        requires room { (at.narrow + fits.narrow_steps (running.rest_steps self.now) ≤ length narrow.old)
            × (at.wide + fits.wide_steps (running.rest_steps self.now) ≤ length wide.old) }
        ensures { running.Does (map values.contents words.now) (running.rest_steps self.now)
            at.narrow at.wide result.narrow result.wide narrow.old wide.old narrow.new wide.new }
    {
        match self {
            RestRun::Sums(steps) => Counts {
                narrow: fill(steps, narrow, at.narrow),
                wide: at.wide,
            },
            RestRun::Xors(steps) => Counts {
                narrow: fill(steps, narrow, at.narrow),
                wide: at.wide,
            },
            RestRun::Rares(steps) => fill_rare(steps, words, narrow, wide, at),
        }
    }
}

impl Run {
    /// Puts the values after the first so many slots of each kind, and gives how many there are then.
    pub(crate) fn run(
        &self,
        words: &[MemoryWords],
        narrow: &mut [u64],
        wide: &mut [u128],
        at: Counts,
    ) -> Counts
        requires fits { fits.StepsFit at.narrow at.wide (running.run_steps self.now) }
        requires room { (at.narrow + fits.narrow_steps (running.run_steps self.now) ≤ length narrow.old)
            × (at.wide + fits.wide_steps (running.run_steps self.now) ≤ length wide.old) }
        ensures { running.Does (map values.contents words.now) (running.run_steps self.now)
            at.narrow at.wide result.narrow result.wide narrow.old wide.old narrow.new wide.new }
    {
        match self {
            Run::Gate(run) => Counts {
                narrow: run.run(narrow, at.narrow),
                wide: at.wide,
            },
            Run::Word(run) => Counts {
                narrow: run.run(narrow, at.narrow),
                wide: at.wide,
            },
            Run::Rest(run) => run.run(words, narrow, wide, at),
        }
    }
}

/// Puts the values of all steps after the first so many slots of each kind; then no slot is left.
pub(crate) fn run_all(
    runs: &[Run],
    words: &[MemoryWords],
    narrow: &mut [u64],
    wide: &mut [u128],
    at: Counts,
)
    requires fits { fits.StepsFit at.narrow at.wide (running.all_steps runs.now) }
    requires room { (at.narrow + fits.narrow_steps (running.all_steps runs.now) ≡ length narrow.old)
        × (at.wide + fits.wide_steps (running.all_steps runs.now) ≡ length wide.old) }
    ensures { running.slots narrow.new wide.new ≡ values.after (map values.contents words.now)
        (running.front at.narrow at.wide narrow.old wide.old) (running.all_steps runs.now) }
{
    let mut now = at;
    for run in runs {
        now = run.run(words, narrow, wide, now);
    }
}
