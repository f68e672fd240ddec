//! Steps added to runs.

ghost use Rattle.std.specs.Prelude.{◌≡◌, ◌++◌, ◌∷◌, [], IfOk, OnOk, true};
ghost use Rattle.step_program.specs.Running as running;
ghost use Rattle.step_program.specs.declared.step.Step.TheVariants as s;

use crate::fast::{And, Or, Xor};
use crate::runs::{GateRun, RestRun, Run, WordRun};
use crate::step::Step;
use std::alloc::{AllocError, Global};

// Appends to a list.
fn put<T: Copy>(list: &mut Vec<T>, item: T) -> Result<bool, AllocError>
    ensures { IfOk result (λ done. (done ≡ true) × (list.new.items ≡ list.old.items ++ item ∷ [])) }
{
    match list.push(item) {
        Ok(()) => Ok(true),
        Err(_) => Err(AllocError),
    }
}

impl GateRun {
    // Adds a step, if it is of the run's kind, and says whether it is.
    fn add(&mut self, step: Step) -> Result<bool, AllocError>
        ensures { IfOk result (λ done. running.Grown done (running.gate_steps self.old) step
            (running.gate_steps self.new)) }
    {
        match self {
            GateRun::Ands(steps) => match step {
                Step::And(of) => put(steps, And { of }),
                _ => Ok(false),
            },
            GateRun::Ors(steps) => match step {
                Step::Or(of) => put(steps, Or { of }),
                _ => Ok(false),
            },
            GateRun::Picks(steps) => match step {
                Step::Pick(of) => put(steps, of),
                _ => Ok(false),
            },
        }
    }
}

impl WordRun {
    // The same.
    fn add(&mut self, step: Step) -> Result<bool, AllocError>
        ensures { IfOk result (λ done. running.Grown done (running.word_steps self.old) step
            (running.word_steps self.new)) }
    {
        match self {
            WordRun::Tests(steps) => match step {
                Step::Test(of) => put(steps, of),
                _ => Ok(false),
            },
            WordRun::Joins(steps) => match step {
                Step::Join(of) => put(steps, of),
                _ => Ok(false),
            },
            WordRun::Takes(steps) => match step {
                Step::Take(of) => put(steps, of),
                _ => Ok(false),
            },
        }
    }
}

impl RestRun {
    // The same.
    fn add(&mut self, step: Step) -> Result<bool, AllocError>
        ensures { IfOk result (λ done. running.Grown done (running.rest_steps self.old) step
            (running.rest_steps self.new)) }
    {
        match self {
            RestRun::Sums(steps) => match step {
                Step::Sum(of) => put(steps, of),
                _ => Ok(false),
            },
            RestRun::Xors(steps) => match step {
                Step::Xor(of) => put(steps, Xor { of }),
                _ => Ok(false),
            },
            RestRun::Rares(steps) => match step {
                Step::Rare(of) => put(steps, of),
                _ => Ok(false),
            },
        }
    }
}

impl Run {
    // The same.
    fn add(&mut self, step: Step) -> Result<bool, AllocError>
        ensures { IfOk result (λ done. running.Grown done (running.run_steps self.old) step
            (running.run_steps self.new)) }
    {
        match self {
            Run::Gate(run) => run.add(step),
            Run::Word(run) => run.add(step),
            Run::Rest(run) => run.add(step),
        }
    }

    // A run with this step alone.
    fn of(alloc: Global, step: Step) -> Result<Run, AllocError>
        ensures { IfOk result (λ run. running.run_steps run ≡ step ∷ []) }
    {
        Ok(match step {
            Step::And(of) => Run::Gate(GateRun::Ands(one(alloc, And { of })?)),
            Step::Or(of) => Run::Gate(GateRun::Ors(one(alloc, Or { of })?)),
            Step::Pick(of) => Run::Gate(GateRun::Picks(one(alloc, of)?)),
            Step::Test(of) => Run::Word(WordRun::Tests(one(alloc, of)?)),
            Step::Join(of) => Run::Word(WordRun::Joins(one(alloc, of)?)),
            Step::Take(of) => Run::Word(WordRun::Takes(one(alloc, of)?)),
            Step::Sum(of) => Run::Rest(RestRun::Sums(one(alloc, of)?)),
            Step::Xor(of) => Run::Rest(RestRun::Xors(one(alloc, Xor { of })?)),
            Step::Rare(of) => Run::Rest(RestRun::Rares(one(alloc, of)?)),
        })
    }
}

// A list of one.
fn one<T: Copy>(alloc: Global, item: T) -> Result<Vec<T>, AllocError>
    ensures { IfOk result (λ list. list.items ≡ item ∷ []) }
{
    let mut list = Vec::new(alloc);
    match list.push(item) {
        Ok(()) => Ok(list),
        Err(_) => Err(AllocError),
    }
}

// Adds a step to a run, or after it, in a run of its own.
fn add_after(
    alloc: Global,
    runs: &mut Vec<Run>,
    mut last: Run,
    step: Step,
) -> Result<(), AllocError>
    ensures { OnOk result (running.all_steps runs.new.items
        ≡ running.all_steps runs.old.items ++ (running.run_steps last ++ step ∷ [])) }
{
    let done = last.add(step)?;
    runs.push(last)?;
    if !done {
        runs.push(Run::of(alloc, step)?)?;
    }
    Ok(())
}

/// Adds a step after all others: to the last run where that is of its kind, else in a run of its own.
pub(crate) fn add(alloc: Global, runs: &mut Vec<Run>, step: Step) -> Result<(), AllocError>
    ensures { OnOk result (running.all_steps runs.new.items ≡ running.all_steps runs.old.items ++ step ∷ []) }
{
    match runs.pop() {
        Some(last) => add_after(alloc, runs, last, step),
        None => {
            runs.push(Run::of(alloc, step)?)?;
            Ok(())
        }
    }
}
