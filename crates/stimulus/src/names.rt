//! The names of line 2.

ghost use Rattle.std.specs.Prelude.{◌≡◌, ◌==◌, [], not, ◌≤◌, ◌<◌, true, IfOk, MatchOption, Some, None, length, map};
ghost use Rattle.std.specs.List.{All, list_all};
ghost use Rattle.stimulus.specs.Stimulus.{are_names, bad_name, has_name, input_names, lack_fault, place_of, width_of, widths_of, words};
ghost use Rattle.stimulus.specs.Calls.Names.{FindsPlace, Judges, shown};
ghost use Rattle.stimulus.specs.declared.names.LineFault.TheVariants as f;

use crate::refusal::{Input, RefusalKind};
use dt_core::fault::NoMemory;
use dt_core::limits::MAX_WIDTH;
use std::alloc::{AllocError, Global};

/// Why a line was not taken.
#[derive(Clone, Copy, Drop)]
pub(crate) enum LineFault {
    Refused(RefusalKind),
    Memory,
}

impl From<AllocError> for LineFault {
    ghost from_gives = { λ _ fault. fault ≡ f.Memory };

    fn from(_: AllocError) -> LineFault {
        LineFault::Memory
    }
}

// The pieces of a line between its spaces.
pub(crate) fn words_of(alloc: Global, line: &[u8]) -> Result<Vec<&[u8]>, AllocError>
    ensures { IfOk result (λ v. shown v.items ≡ words line.now) }
{
    line.split(|b| *b == b' ').collect(alloc)
}

// Whether the pieces are `inputs` and names that aren't empty.
pub(crate) fn are_names_of(words: &[&[u8]]) -> bool
    ensures { result ≡ are_names (shown words.now) }
{
    match words {
        [] => false,
        [word, names @ ..] => *word == b"inputs".as_slice() && all_some(names),
    }
}

// Whether none of the names is empty.
fn all_some(names: &[&[u8]]) -> bool
    ensures { result ≡ list_all (λ n. not (length n == 0)) (shown names.now) }
{
    for name in names {
        if name.is_empty() {
            return false;
        }
    }
    true
}

// Whether these bytes are among the names.
fn is_among(names: &[&[u8]], name: &[u8]) -> bool
    ensures { result ≡ has_name (shown names.now) name.now }
{
    for other in names {
        if *other == name {
            return true;
        }
    }
    false
}

// Whether these bytes are the name of an input.
fn is_input(inputs: &[Input], name: &[u8]) -> bool
    ensures { result ≡ has_name (input_names inputs.now) name.now }
{
    for input in inputs {
        if input.name.bytes() == name {
            return true;
        }
    }
    false
}

// The fault of the leftmost bad name.
pub(crate) fn bad_name_of(inputs: &[Input], names: &[&[u8]]) -> Option<RefusalKind>
    ensures { result ≡ bad_name inputs.now [] (shown names.now) }
{
    for (place, name) in names.iter().enumerate() {
        if !is_input(inputs, name) {
            return Some(RefusalKind::UnknownInput);
        }
        if is_among(&names[..place], name) {
            return Some(RefusalKind::RepeatedInput);
        }
    }
    None
}

// Where the name first stands, if it does.
fn find_place(names: &[&[u8]], name: &[u8]) -> Option<usize>
    ensures { FindsPlace (shown names.now) name.now result }
{
    for (place, other) in names.iter().enumerate() {
        if *other == name {
            return Some(place);
        }
    }
    None
}

// Where the name of each input stands; or that one doesn't.
pub(crate) fn places_of(
    alloc: Global,
    inputs: &[Input],
    names: &[&[u8]],
) -> Result<Vec<usize>, LineFault>
    ensures value { Judges (lack_fault inputs.now (shown names.now))
        (λ v. v.items ≡ map (λ i. place_of (shown names.now) i.name) inputs.now) result }
    ensures within { IfOk result (λ v. All (λ place. place < length names.now) v.items) }
{
    let mut places = Vec::new(alloc);
    for input in inputs {
        match find_place(names, input.name.bytes()) {
            None => return Err(LineFault::Refused(RefusalKind::MissingInput)),
            Some(place) => match places.push(place) {
                Ok(()) => {}
                Err(_) => return Err(LineFault::Memory),
            },
        }
    }
    Ok(places)
}

// The width of the input of a name.
fn width_for(inputs: &[Input], name: &[u8]) -> u32
    requires { All (λ i. i.width ≤ MAX_WIDTH) inputs.now }
    ensures value { result ≡ width_of inputs.now name.now }
    ensures few { result ≤ MAX_WIDTH }
{
    for input in inputs {
        if input.name.bytes() == name {
            return input.width;
        }
    }
    0
}

// The widths of the inputs of the names.
pub(crate) fn widths_for(
    alloc: Global,
    inputs: &[Input],
    names: &[&[u8]],
) -> Result<Vec<u32>, AllocError>
    requires { All (λ i. i.width ≤ MAX_WIDTH) inputs.now }
    ensures value { IfOk result (λ v. v.items ≡ widths_of inputs.now (shown names.now)) }
    ensures few { IfOk result (λ v. All (λ w. w ≤ MAX_WIDTH) v.items) }
{
    let mut widths = Vec::new(alloc);
    for name in names {
        widths.push(width_for(inputs, name))?;
    }
    Ok(widths)
}
