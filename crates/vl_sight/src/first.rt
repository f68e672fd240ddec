//! The first of each name in a list.

ghost use Rattle.std.specs.Prelude.{◌≡◌, ◌&&◌, length, map, IfOk, OnOk};
ghost use Rattle.vl_design.specs.Declarations as design;
ghost use Rattle.vl_design.specs.Objects as objects;
ghost use Rattle.vl_design.specs.LoopVariables as loops;
ghost use Rattle.vl_declares.specs.Locals.{all_locals};
ghost use Rattle.vl_declares.specs.Plain.{all_plain, plain};
ghost use Rattle.vl_names.specs.Names.{Numbers};
ghost use Rattle.vl_objects.specs.Plain.{plain_object};
ghost use Rattle.vl_repeats.specs.Flags.{picked};
ghost use Rattle.vl_sight.specs.Firsts.{Finds, NotesIf, has_name, is_local, passes, passes_named};

use dt_core::text::Text;
use std::alloc::{AllocError, Global};
use vl_declares::declared::{Declared, Local};
use vl_names::NameNumbers;
use vl_objects::object::Object;
use vl_repeats::side::name_of;

/// Which declarations are looked up.
#[derive(Clone, Copy, Debug, PartialEq, Eq)]
pub enum Wanted {
    /// Those in sight in their scope: all but genvars, instances and labels.
    InSight,
    Functions,
}

/// The number, from 0, of the first declaration of each name that counts and is wanted.
pub fn declaration_numbers(
    alloc: Global,
    wanted: Wanted,
    counted: &[bool],
    declared: &[Declared<'_>],
) -> Result<NameNumbers, AllocError>
    requires { length counted.now ≡ length declared.now }
    ensures { let ds = all_plain declared.now in
        IfOk result (λ n. Finds (passes_named wanted) ds (picked counted.now ds) n) }
{
    let mut numbers = NameNumbers::new(alloc);
    // From the last on, so that the first of a name stands in the end.
    for k in (0..declared.len()).rev() {
        note_wanted(alloc, &mut numbers, wanted, counted[k], &declared[k], k)?;
    }
    Ok(numbers)
}

// Notes the place of a declaration that counts and is wanted.
fn note_wanted(
    alloc: Global,
    numbers: &mut NameNumbers,
    wanted: Wanted,
    counts: bool,
    declared: &Declared<'_>,
    place: usize,
) -> Result<(), AllocError>
    ensures { let d = plain declared.now in
        OnOk result (NotesIf (counts && passes wanted d) (design.name_of d).text place numbers.old numbers.new) }
{
    if !counts {
        return Ok(());
    }
    if !is_wanted(wanted, declared) {
        return Ok(());
    }
    note(alloc, numbers, &name_of(declared).text, place)
}

fn is_wanted(wanted: Wanted, declared: &Declared<'_>) -> bool
    ensures { result ≡ passes wanted (plain declared.now) }
{
    match wanted {
        Wanted::InSight => is_in_sight(declared),
        Wanted::Functions => is_function(declared),
    }
}

fn is_in_sight(declared: &Declared<'_>) -> bool
    ensures { result ≡ objects.is_in_sight (plain declared.now) }
{
    match declared {
        Declared::Genvar(_) => false,
        Declared::Inner(_) => false,
        Declared::Port(_, _, _) => true,
        Declared::Object(_, _) => true,
        Declared::Memory(_, _) => true,
        Declared::Parameter(_, _) => true,
        Declared::Routine(_) => true,
    }
}

fn is_function(declared: &Declared<'_>) -> bool
    ensures { result ≡ loops.is_routine (plain declared.now) }
{
    match declared {
        Declared::Routine(_) => true,
        Declared::Port(_, _, _) => false,
        Declared::Object(_, _) => false,
        Declared::Memory(_, _) => false,
        Declared::Parameter(_, _) => false,
        Declared::Genvar(_) => false,
        Declared::Inner(_) => false,
    }
}

/// The number, from 0, of the first object of each name.
pub fn object_numbers(alloc: Global, all: &[Object<'_>]) -> Result<NameNumbers, AllocError>
    ensures { let os = map plain_object all.now in
        IfOk result (λ n. Finds has_name os os n) }
{
    let mut numbers = NameNumbers::new(alloc);
    for k in (0..all.len()).rev() {
        let name = all[k].name;
        note(alloc, &mut numbers, &name.text, k)?;
    }
    Ok(numbers)
}

/// The number, from 0, of the first input or variable of a function of each name.
pub fn local_numbers(alloc: Global, all: &[Local<'_>]) -> Result<NameNumbers, AllocError>
    ensures { let ls = all_locals all.now in
        IfOk result (λ n. Finds is_local ls ls n) }
{
    let mut numbers = NameNumbers::new(alloc);
    for k in (0..all.len()).rev() {
        let name = all[k].name;
        note(alloc, &mut numbers, &name.text, k)?;
    }
    Ok(numbers)
}

// Notes a place under a name. There is no memory for a place above 2^32.
fn note(
    alloc: Global,
    numbers: &mut NameNumbers,
    name: &Text,
    place: usize,
) -> Result<(), AllocError>
    ensures { OnOk result (Numbers name.now place numbers.old numbers.new) }
{
    match u32::try_from(place) {
        Ok(number) => numbers.set(alloc, name, number),
        Err(_) => Err(AllocError),
    }
}
