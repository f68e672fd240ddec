//! Declarations that repeat a name.

ghost use Rattle.std.specs.Prelude.{◌≡◌, ◌++◌, ◌∷◌, [], Some, IfOk, OnOk, nat_eq};
ghost use Rattle.std.specs.Cmp.Lexicographic.{pointwise};
ghost use Rattle.indexmap.specs.IndexMap.{get, Updates};
ghost use Rattle.vl_declares.specs.Plain.{all_plain};
ghost use Rattle.vl_repeats.specs.Flags.{AreRepeats};

use crate::side::{Met, as_side, counts, met_more, name_of, repeated};
use dt_core::text::Text;
use indexmap::IndexMap;
use std::alloc::{AllocError, Global};
use vl_declares::declared::Declared;
use vl_found::{Found, lesser};

/// Of each declaration of a scope whether it counts, since it doesn't repeat a name, or makes one object with the one before
/// it; and the least fault of those that do.
#[derive(Drop)]
pub struct Repeats {
    pub counted: Vec<bool>,
    pub fault: Option<Found>,
}

/// The repeated names of a scope.
pub fn find_repeats(alloc: Global, declared: &[Declared<'_>]) -> Result<Repeats, AllocError>
    ensures { let ds = all_plain declared.now in
        IfOk result (λ r. AreRepeats ds r.counted.items r.fault) }
{
    let mut names = IndexMap::new(alloc);
    let mut counted = Vec::new(alloc);
    let mut fault = None;
    for one in declared {
        let name = name_of(one);
        let met = met_in(&names, &name.text);
        let here = as_side(one);
        fault = lesser(fault, repeated(met, here, name.place));
        push(&mut counted, counts(met, here))?;
        note(alloc, &mut names, &name.text, met_more(met, here))?;
    }
    Ok(Repeats { counted, fault })
}

// What was met of a name.
fn met_in(names: &IndexMap<Text, Met>, name: &Text) -> Option<Met>
    ensures { result ≡ get (pointwise nat_eq) names.now name.now }
{
    names.get(name).copied()
}

fn push(counted: &mut Vec<bool>, counts: bool) -> Result<(), AllocError>
    ensures { OnOk result (counted.new.items ≡ counted.old.items ++ counts ∷ []) }
{
    match counted.push(counts) {
        Ok(()) => Ok(()),
        Err(_) => Err(AllocError),
    }
}

// Notes what was met of a name.
fn note(
    alloc: Global,
    names: &mut IndexMap<Text, Met>,
    name: &Text,
    met: Met,
) -> Result<(), AllocError>
    ensures { OnOk result (Updates (pointwise nat_eq) names.old names.new name.now (Some met)) }
{
    let key = copied(alloc, name)?;
    match names.insert(key, met) {
        Ok(_) => Ok(()),
        Err(_) => Err(AllocError),
    }
}

// A text of its own.
fn copied(alloc: Global, name: &Text) -> Result<Text, AllocError>
    ensures { IfOk result (λ t. t ≡ name.now) }
{
    match Text::copied(alloc, name.bytes()) {
        Ok(text) => Ok(text),
        Err(_) => Err(AllocError),
    }
}
