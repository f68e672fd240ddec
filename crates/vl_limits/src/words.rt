//! Words of memories.

ghost use Rattle.std.specs.Prelude.{◌≡◌, [], length, OnOk};
ghost use Rattle.vl_design.specs.Lists.{each_of};
ghost use Rattle.vl_design.specs.Objects.{counted_behind};
ghost use Rattle.vl_design.specs.ObjectFaults.{memory_words};
ghost use Rattle.vl_declares.specs.Plain.{all_plain, plain};
ghost use Rattle.vl_repeats.specs.Flags.{picked};
ghost use Rattle.vl_limits.specs.Counting.{Adds, listed, words_if};

use crate::limit::Limit;
use dt_core::place::Place;
use std::alloc::{AllocError, Global};
use vl_declares::declared::Declared;
use vl_repeats::repeats::find_repeats;

/// The words of a memory, with the place of its name.
#[derive(Clone, Copy, Debug, PartialEq, Eq)]
struct Words {
    place: Place,
    count: u64,
}

/// Adds the words of the memories of a scope, in order of text; those of a declaration that repeats a name, or whose range
/// has a fault, aside.
pub fn add_words(
    alloc: Global,
    limit: &mut Limit,
    declared: &[Declared<'_>],
) -> Result<(), AllocError>
    ensures { let ds = all_plain declared.now in
        OnOk result (Adds (each_of memory_words (counted_behind [] ds)) limit.old limit.new) }
{
    let repeats = find_repeats(alloc, declared)?;
    add_counted(limit, repeats.counted.as_slice(), declared);
    Ok(())
}

// Adds the words of those memories whose flag is set.
fn add_counted(limit: &mut Limit, counted: &[bool], declared: &[Declared<'_>])
    requires { length counted.now ≡ length declared.now }
    ensures { let ds = all_plain declared.now in
        Adds (each_of memory_words (picked counted.now ds)) limit.old limit.new }
{
    for k in 0..declared.len() {
        add_one(limit, counted[k], &declared[k]);
    }
}

fn add_one(limit: &mut Limit, counts: bool, declared: &Declared<'_>)
    ensures { let d = plain declared.now in
        Adds (words_if counts d) limit.old limit.new }
{
    if counts {
        add_some(limit, words_of(declared));
    }
}

fn add_some(limit: &mut Limit, words: Option<Words>)
    ensures { Adds (listed words) limit.old limit.new }
{
    if let Some(one) = words {
        limit.add(one.count, one.place);
    }
}

// The words of a memory whose range has no fault.
fn words_of(declared: &Declared<'_>) -> Option<Words>
    ensures { let d = plain declared.now in
        listed result ≡ memory_words d }
{
    match declared {
        Declared::Memory(local, words) => {
            if words.words_fault().is_some() {
                return None;
            }
            let (first, last) = words.words();
            Some(Words {
                place: local.name.place,
                count: u64::from(first.abs_diff(last)) + 1,
            })
        }
        Declared::Port(_, _, _) => None,
        Declared::Object(_, _) => None,
        Declared::Parameter(_, _) => None,
        Declared::Genvar(_) => None,
        Declared::Routine(_) => None,
        Declared::Inner(_) => None,
    }
}
