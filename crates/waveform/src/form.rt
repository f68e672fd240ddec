//! What the lines of a cycle need of the variables.

ghost use Rattle.std.specs.Prelude.{◌≡◌, ◌≤◌, ◌<◌, ◌++◌, ◌∷◌, [], map, length, IfOk, OnOk};
ghost use Rattle.std.specs.List.{All};
ghost use Rattle.design_names.specs.Shown.{is_clock, variable_of};
ghost use Rattle.waveform.specs.Cycle.{unnamed, plain_variable, form_variable, WidthsFit};

use dt_core::fault::NoMemory;
use dt_core::limits::MAX_WIDTH;
use netlist::design::{Role, Signal};
use std::alloc::Global;

/// A variable's width of 1 to `MAX_WIDTH` bits, and whether it is a clock's name.
#[derive(Clone, Copy)]
pub(crate) struct Form {
    pub(crate) width: u32,
    pub(crate) clock: bool,
}

/// The forms of the shown ones of these signals, in order.
pub(crate) fn forms_of(
    alloc: Global,
    signals: &[Signal],
    shown: &[u32],
) -> Result<Vec<Form>, NoMemory>
    requires there { All (λ k. k < length signals.now) shown.now }
    requires widths { All (λ s. s.width ≤ MAX_WIDTH) signals.now }
    ensures formed { IfOk result (λ forms. map form_variable forms.items ≡ map (plain_variable signals.now) shown.now) }
    ensures widths { IfOk result (λ forms. WidthsFit forms.items) }
{
    let mut forms = Vec::new(alloc);
    for number in shown {
        push(&mut forms, form_of(&signals[*number as usize]))?;
    }
    Ok(forms)
}

// The form of a signal.
fn form_of(signal: &Signal) -> Form
    ensures formed { form_variable result ≡ unnamed (variable_of signal.now) }
    ensures width { result.width ≡ signal.now.width }
{
    Form {
        width: signal.width,
        clock: is_clock(signal.role),
    }
}

// Whether a role is a clock's.
fn is_clock(role: Role) -> bool
    ensures { result ≡ is_clock role }
{
    matches!(role, Role::Clock)
}

// Appends a form.
fn push(forms: &mut Vec<Form>, form: Form) -> Result<(), NoMemory>
    ensures { OnOk result (forms.new.items ≡ forms.old.items ++ form ∷ []) }
{
    match forms.push(form) {
        Ok(()) => Ok(()),
        Err(_) => Err(NoMemory),
    }
}
