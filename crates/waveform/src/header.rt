//! The header.

ghost use Rattle.std.specs.Prelude.{◌≡◌, ◌≤◌, ◌<◌, ◌+◌, ◌++◌, length, OnOk, IfOk, codes};
ghost use Rattle.std.specs.List.{All};
ghost use Rattle.design_names.specs.Shown.{kind_of, is_instance, variable_of, variable_at, scope_at, flat_scope};
ghost use Rattle.design_names.specs.Outline.{flat_outline, EntryFits};
ghost use Rattle.waveform.specs.Vcd.{kind_word, scope_word, declared_text, variable_line, header_text};
ghost use Rattle.waveform.specs.Heading.{entry_text, number_after, entries_text};

use crate::lines::push_code;
use design_names::outline::Entry;
use dt_core::append::{push, push_number};
use dt_core::fault::NoMemory;
use netlist::design::{Scope, ScopeKind, Signal, SignalKind};
use netlist::flat::Flat;

// The word of a kind.
fn kind_word(kind: SignalKind) -> &'static [u8]
    ensures { result.now ≡ kind_word (kind_of kind) }
{
    match kind {
        SignalKind::Wire => b"wire ",
        SignalKind::Reg => b"reg ",
        SignalKind::Integer => b"integer ",
    }
}

// The words that a scope begins with.
fn scope_word(kind: ScopeKind) -> &'static [u8]
    ensures { result.now ≡ scope_word (is_instance kind) }
{
    match kind {
        ScopeKind::Instance => b"$scope module ",
        ScopeKind::Generate => b"$scope begin ",
    }
}

// Appends what a signal was declared as.
fn push_declared(text: &mut Vec<u8>, signal: &Signal) -> Result<(), NoMemory>
    ensures { OnOk result (text.new.items ≡ text.old.items ++ declared_text (variable_of signal.now)) }
{
    push(text, b"$var ")?;
    push(text, kind_word(signal.kind))?;
    push_number(text, u128::from(signal.width))?;
    push(text, b" ")
}

// Appends the line of the variable of a number, which shows this signal.
fn push_variable(text: &mut Vec<u8>, number: usize, signal: &Signal) -> Result<(), NoMemory>
    ensures { OnOk result (text.new.items ≡ text.old.items ++ variable_line number (variable_of signal.now)) }
{
    push_declared(text, signal)?;
    push_code(text, number)?;
    push(text, b" ")?;
    push(text, signal.name.bytes())?;
    push(text, b" $end\n")
}

// Appends the line with which a scope begins.
fn push_scope(text: &mut Vec<u8>, scope: &Scope) -> Result<(), NoMemory>
    ensures { OnOk result (text.new.items
        ≡ text.old.items ++ (scope_word (is_instance scope.now.kind) ++ (scope.now.name ++ codes " $end\n"))) }
{
    push(text, scope_word(scope.kind))?;
    push(text, scope.name.bytes())?;
    push(text, b" $end\n")
}

// Appends the line of an entry, where so many variables stand before it, and says how many stand before the next.
fn push_entry(
    text: &mut Vec<u8>,
    flat: &Flat,
    number: usize,
    entry: Entry,
) -> Result<usize, NoMemory>
    requires there { EntryFits flat.now entry }
    requires room { number < usize.MAX }
    ensures text { OnOk result (text.new.items ≡ text.old.items ++ entry_text flat.now number entry) }
    ensures number { IfOk result (λ next. next ≡ number_after number entry) }
{
    match entry {
        Entry::Scope(scope) => {
            push_scope(text, &flat.scopes()[scope as usize])?;
            Ok(number)
        }
        Entry::Signal(signal) => {
            push_variable(text, number, &flat.signals()[signal as usize])?;
            Ok(number + 1)
        }
        Entry::End => {
            push(text, b"$upscope $end\n")?;
            Ok(number)
        }
    }
}

// Appends the lines of an outline.
fn push_entries(text: &mut Vec<u8>, flat: &Flat, outline: &[Entry]) -> Result<(), NoMemory>
    requires { All (EntryFits flat.now) outline.now }
    ensures { OnOk result (text.new.items ≡ text.old.items ++ entries_text flat.now 0 outline.now) }
{
    let mut number = 0;
    for entry in outline {
        number = push_entry(text, flat, number, *entry)?;
    }
    Ok(())
}

// Appends the header of a design, whose outline is given.
pub(crate) fn push_header(
    text: &mut Vec<u8>,
    flat: &Flat,
    outline: &[Entry],
) -> Result<(), NoMemory>
    requires there { All (EntryFits flat.now) outline.now }
    requires outline { outline.now ≡ flat_outline flat.now }
    ensures { OnOk result (text.new.items ≡ text.old.items ++ header_text (flat_scope flat.now)) }
{
    push(text, b"$version dessert 1 $end\n$timescale 1 ns $end\n")?;
    push_entries(text, flat, outline)?;
    push(text, b"$enddefinitions $end\n")
}
