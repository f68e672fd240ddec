//! Going through the scopes and signals of a design, without a call of itself.

ghost use Rattle.std.specs.Prelude.{◌≡◌, ◌<◌, ◌++◌, ◌∷◌, [], map, length, IfOk, OnOk, slice_index_or, None};
ghost use Rattle.netlist.specs.Fits.{IsWellFormed};
ghost use Rattle.design_names.specs.Links.{IsLinked};
ghost use Rattle.design_names.specs.Outline.{flat_outline};
ghost use Rattle.design_names.specs.Walk.{entry_of, tasks_after, scopes_task, signals_task, HasPlace};
ghost use Rattle.design_names.specs.declared.outline.Entry.TheVariants as entry;
ghost use Rattle.design_names.specs.declared.walk.Task.TheVariants as task;

use crate::append::push;
use crate::links::{Links, link};
use crate::outline::Entry;
use dt_core::fault::NoMemory;
use netlist::design::{Scope, Signal};
use netlist::flat::Flat;
use std::alloc::Global;

/// What is left to be listed: a scope and those beside it that come after it, a signal and those beside it that come
/// after it, or the end of a scope.
#[derive(Clone, Copy)]
pub(crate) enum Task {
    Scopes(u32),
    Signals(u32),
    End,
}

/// The outline of a design, in time linear in its scopes and signals.
pub(crate) fn outline_of(alloc: Global, flat: &Flat) -> Result<Vec<Entry>, NoMemory>
    ensures { IfOk result (λ entries. entries.items ≡ flat_outline flat.now) }
{
    let scopes = link_scopes(alloc, flat)?;
    let signals = link_signals(alloc, flat)?;
    let mut entries = Vec::new(alloc);
    let mut tasks = Vec::new(alloc);
    push(&mut tasks, Task::Scopes(0))?;
    while let Some(task) = tasks.pop() {
        list(&mut entries, &mut tasks, &scopes, &signals, task)?;
    }
    Ok(entries)
}

// Links the scopes: each stands in its parent.
fn link_scopes(alloc: Global, flat: &Flat) -> Result<Links, NoMemory>
    ensures linked { IfOk result (IsLinked (map (λ s. s.parent) flat.now.scopes) (length flat.now.scopes)) }
    ensures fits { IsWellFormed flat.now }
{
    let scopes = flat.scopes();
    let parents = parents(alloc, scopes)?;
    link(alloc, &parents, scopes.len())
}

// The parents of scopes.
fn parents(alloc: Global, scopes: &[Scope]) -> Result<Vec<Option<u32>>, NoMemory>
    ensures { IfOk result (λ parents. parents.items ≡ map (λ s. s.parent) scopes.now) }
{
    Ok(scopes.iter().map(|scope| scope.parent).collect(alloc)?)
}

// Links the signals: each stands in its scope, if it has one.
fn link_signals(alloc: Global, flat: &Flat) -> Result<Links, NoMemory>
    ensures { IfOk result (IsLinked (map (λ s. s.scope) flat.now.signals) (length flat.now.scopes)) }
{
    let owners = owners(alloc, flat.signals())?;
    link(alloc, &owners, flat.scopes().len())
}

// The scopes of signals.
fn owners(alloc: Global, signals: &[Signal]) -> Result<Vec<Option<u32>>, NoMemory>
    ensures { IfOk result (λ owners. owners.items ≡ map (λ s. s.scope) signals.now) }
{
    Ok(signals.iter().map(|signal| signal.scope).collect(alloc)?)
}

// Lists the first entry of a task, and leaves the tasks behind it.
fn list(
    entries: &mut Vec<Entry>,
    tasks: &mut Vec<Task>,
    scopes: &Links,
    signals: &Links,
    task: Task,
) -> Result<(), NoMemory>
    requires { HasPlace scopes.now signals.now task }
    ensures entries { OnOk result (entries.new.items ≡ entries.old.items ++ entry_of task ∷ []) }
    ensures tasks { OnOk result
        (tasks.new.items ≡ tasks.old.items ++ tasks_after scopes.now signals.now task) }
{
    match task {
        Task::Scopes(number) => {
            push(entries, Entry::Scope(number))?;
            open(tasks, scopes, signals, number as usize)
        }
        Task::Signals(number) => {
            push(entries, Entry::Signal(number))?;
            push_signals(tasks, signals.next[number as usize])
        }
        Task::End => push(entries, Entry::End),
    }
}

// Leaves the tasks behind the begin of a scope: its signals, the scopes in it, its end, and the scopes beside it.
fn open(
    tasks: &mut Vec<Task>,
    scopes: &Links,
    signals: &Links,
    number: usize,
) -> Result<(), NoMemory>
    requires next { number < length scopes.now.next.items }
    requires first { number < length scopes.now.first.items }
    requires signals { number < length signals.now.first.items }
    ensures { OnOk result
        (tasks.new.items ≡ tasks.old.items ++ tasks_after scopes.now signals.now (task.Scopes number)) }
{
    push_scopes(tasks, scopes.next[number])?;
    push(tasks, Task::End)?;
    push_scopes(tasks, scopes.first[number])?;
    push_signals(tasks, signals.first[number])
}

// Leaves the scopes from one on, if there is one.
fn push_scopes(tasks: &mut Vec<Task>, first: Option<u32>) -> Result<(), NoMemory>
    ensures { OnOk result (tasks.new.items ≡ tasks.old.items ++ scopes_task first) }
{
    match first {
        Some(number) => push(tasks, Task::Scopes(number)),
        None => Ok(()),
    }
}

// Leaves the signals from one on, if there is one.
fn push_signals(tasks: &mut Vec<Task>, first: Option<u32>) -> Result<(), NoMemory>
    ensures { OnOk result (tasks.new.items ≡ tasks.old.items ++ signals_task first) }
{
    match first {
        Some(number) => push(tasks, Task::Signals(number)),
        None => Ok(()),
    }
}
