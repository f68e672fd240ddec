//! The lines of a cycle.

ghost use Rattle.std.specs.Prelude.{◌≡◌, ◌≤◌, ◌++◌, ◌∷◌, [], OnOk, length, map, if◌then◌else◌};
ghost use Rattle.waveform.specs.Cycle.{WidthsFit, cycle_lines, form_variable};
ghost use Rattle.waveform.specs.Vcd.{value, lines_text, all_values, changes, edges, has_clock, rise, risen, first_lines, later_lines};

use crate::form::Form;
use crate::lines::{push_change, push_time, push_value};
use crate::progress::Progress;
use dt_core::append::push;
use dt_core::fault::NoMemory;
use dt_core::limits::MAX_WIDTH;

// Whether one of them is a clock's name.
fn has_clock(forms: &[Form]) -> bool
    ensures { result ≡ has_clock (map form_variable forms.now) }
{
    for form in forms {
        if form.clock {
            return true;
        }
    }
    false
}

// Appends the values of all variables.
fn push_all(text: &mut Vec<u8>, forms: &[Form], values: &[u128]) -> Result<(), NoMemory>
    requires widths { WidthsFit forms.now }
    requires values { length values.now ≡ length forms.now }
    ensures { OnOk result (text.new.items
        ≡ text.old.items ++ lines_text (all_values 0 (map form_variable forms.now) values.now)) }
{
    for (number, form) in forms.iter().enumerate() {
        push_value(text, form.width, number, values[number])?;
    }
    Ok(())
}

// What was last written for a variable that showed a value: after a cycle a clock is 1.
fn last_written(form: Form, shown: u128) -> u128
    ensures { result ≡ (if form.clock then 1 else shown) }
{
    if form.clock { 1 } else { shown }
}

// Appends the values that differ from the last ones written after a cycle that showed `last`.
fn push_changes(
    text: &mut Vec<u8>,
    forms: &[Form],
    last: &[u128],
    values: &[u128],
) -> Result<(), NoMemory>
    requires widths { WidthsFit forms.now }
    requires last { length last.now ≡ length forms.now }
    requires values { length values.now ≡ length forms.now }
    ensures { OnOk result (text.new.items
        ≡ text.old.items ++ lines_text (changes 0 (map form_variable forms.now)
        (risen (map form_variable forms.now) last.now) values.now)) }
{
    for (number, form) in forms.iter().enumerate() {
        let written = last_written(*form, last[number]);
        push_change(text, form.width, number, written, values[number])?;
    }
    Ok(())
}

// Appends the value 1 of a variable that is a clock's name.
fn push_edge(text: &mut Vec<u8>, number: usize, form: Form) -> Result<(), NoMemory>
    requires { form.width ≤ MAX_WIDTH }
    ensures { OnOk result (text.new.items
        ≡ text.old.items ++ (if form.clock then lines_text (value form.width number 1 ∷ []) else [])) }
{
    if form.clock {
        push_value(text, form.width, number, 1)
    } else {
        Ok(())
    }
}

// Appends the value 1 of each clock.
fn push_edges(text: &mut Vec<u8>, forms: &[Form]) -> Result<(), NoMemory>
    requires { WidthsFit forms.now }
    ensures { OnOk result (text.new.items ≡ text.old.items ++ lines_text (edges 0 (map form_variable forms.now))) }
{
    for (number, form) in forms.iter().enumerate() {
        push_edge(text, number, *form)?;
    }
    Ok(())
}

// Appends the rising edge after a cycle.
fn push_rise(text: &mut Vec<u8>, forms: &[Form], cycle: u64) -> Result<(), NoMemory>
    requires { WidthsFit forms.now }
    ensures { OnOk result (text.new.items ≡ text.old.items ++ lines_text (rise (map form_variable forms.now) cycle)) }
{
    if !has_clock(forms) {
        return Ok(());
    }
    push_time(text, 2 * u128::from(cycle) + 1)?;
    push_edges(text, forms)
}

// Appends the lines of a first cycle.
fn push_first(
    text: &mut Vec<u8>,
    forms: &[Form],
    cycle: u64,
    values: &[u128],
) -> Result<(), NoMemory>
    requires widths { WidthsFit forms.now }
    requires values { length values.now ≡ length forms.now }
    ensures { OnOk result (text.new.items
        ≡ text.old.items ++ lines_text (first_lines (map form_variable forms.now) cycle values.now)) }
{
    push_time(text, 2 * u128::from(cycle))?;
    push(text, b"$dumpvars\n")?;
    push_all(text, forms, values)?;
    push(text, b"$end\n")?;
    push_rise(text, forms, cycle)
}

// Appends the lines of a later cycle, after one that showed `last`.
fn push_later(
    text: &mut Vec<u8>,
    forms: &[Form],
    cycle: u64,
    last: &[u128],
    values: &[u128],
) -> Result<(), NoMemory>
    requires widths { WidthsFit forms.now }
    requires last { length last.now ≡ length forms.now }
    requires values { length values.now ≡ length forms.now }
    ensures { OnOk result (text.new.items
        ≡ text.old.items ++ lines_text (later_lines (map form_variable forms.now) cycle last.now values.now)) }
{
    push_time(text, 2 * u128::from(cycle))?;
    push_changes(text, forms, last, values)?;
    push_rise(text, forms, cycle)
}

// Appends the lines of a cycle after what was written, where the last cycle showed `last`.
pub(crate) fn push_cycle(
    text: &mut Vec<u8>,
    forms: &[Form],
    cycle: u64,
    written: Progress,
    last: &[u128],
    values: &[u128],
) -> Result<(), NoMemory>
    requires widths { WidthsFit forms.now }
    requires last { length last.now ≡ length forms.now }
    requires values { length values.now ≡ length forms.now }
    ensures { OnOk result (text.new.items
        ≡ text.old.items ++ lines_text (cycle_lines written (map form_variable forms.now) cycle last.now values.now)) }
{
    match written {
        Progress::Cycles => push_later(text, forms, cycle, last, values),
        Progress::Nothing | Progress::Header => push_first(text, forms, cycle, values),
    }
}
