//! The names of one scope.

ghost use Rattle.std.specs.Prelude.{◌≡◌, Some, IfOk, map, option_and_then};
ghost use Rattle.std.specs.Option.{option_map};
ghost use Rattle.vl_tree.specs.SyntaxView as view;
ghost use Rattle.vl_value.specs.Paths.{Path, Text as Name, below};
ghost use Rattle.vl_value.specs.Things as things;
ghost use Rattle.vl_design.specs.Clocks as clocks;
ghost use Rattle.vl_design.specs.Objects as design;
ghost use Rattle.vl_design.specs.Spans.{first_word, last_word};
ghost use Rattle.vl_frames.specs.Marks.{plain_worth};
ghost use Rattle.vl_span.specs.Plain.{plain_span};
ghost use Rattle.vl_declares.specs.Plain.{all_plain, plain, plain_local, plain_routine};
ghost use Rattle.vl_objects.specs.Plain.{plain_object, plain_range};
ghost use Rattle.vl_repeats.specs.Sides;
ghost use Rattle.vl_scopes.specs.Plain.{plain_turn};
ghost use Rattle.vl_sight.specs.Named.{HasNames, HasThing, declared_by, function_by, object_by, routine_in, thing_by};
ghost use Rattle.vl_sight.specs.Seen.{plain_thing};

use crate::first::{Wanted, declaration_numbers, object_numbers};
use crate::thing::Thing;
use dt_core::bits::Bits;
use dt_core::text::Text;
use std::alloc::{AllocError, Global};
use vl_declares::declared::{Declared, Local, Routine};
use vl_frames::mark::Worth;
use vl_names::NameNumbers;
use vl_objects::object::{Object, Range, objects};
use vl_repeats::repeats::find_repeats;
use vl_scopes::scope::{Scope, Turn};
use vl_span::span::Span;
use vl_tree::item::Direction;
use vl_width::number::Constant;

/// The names of a scope: the numbers, among all that it declares, of those in sight and of its functions; its nets and variables in
/// order of text, and their numbers among these.
#[derive(Drop)]
pub struct Names<'a> {
    pub declared: NameNumbers,
    pub functions: NameNumbers,
    pub objects: Vec<Object<'a>>,
    pub numbers: NameNumbers,
}

impl<'a> Names<'a> {
    /// Those of a scope.
    pub fn new(alloc: Global, scope: &Scope<'a>) -> Result<Names<'a>, AllocError>
        ensures { IfOk result (λ n. HasNames scope.now n) }
    {
        let all = scope.declared.as_slice();
        let repeats = find_repeats(alloc, all)?;
        let counted = repeats.counted.as_slice();
        let declared = declaration_numbers(alloc, Wanted::InSight, counted, all)?;
        let functions = declaration_numbers(alloc, Wanted::Functions, counted, all)?;
        let objects = objects(alloc, all)?;
        let numbers = object_numbers(alloc, objects.as_slice())?;
        Ok(Names {
            declared,
            functions,
            objects,
            numbers,
        })
    }

    /// What the scope has under a name: what it declares, or the genvar of its turn.
    pub fn thing<'s>(&self, scope: &'s Scope<'a>, name: &Text) -> Option<Thing<'s, 'a>>
        requires { HasNames scope.now self.now }
        ensures { HasThing scope.now name.now result }
    {
        match self.declared_thing(scope.declared.as_slice(), name) {
            Some(thing) => Some(thing),
            None => turn_thing(scope.turn, name),
        }
    }

    /// The function of a name among those that the scope declares.
    pub fn function<'s>(&self, declared: &'s [Declared<'a>], name: &Text) -> Option<&'s Routine<'a>>
        ensures { let d = function_by self.now (all_plain declared.now) name.now in
            option_map (λ r. plain_routine r.now) result ≡ option_and_then routine_in d }
    {
        let k = self.functions.number(name)?;
        let one = declared.get(k as usize)?;
        routine_of(one)
    }

    // What the scope declares under a name.
    fn declared_thing<'s>(&self, declared: &'s [Declared<'a>], name: &Text) -> Option<Thing<'s, 'a>>
        ensures { let d = declared_by self.now (all_plain declared.now) name.now in
            let o = object_by self.now name.now in
            (p : Path) → option_map (plain_thing p name.now) result ≡ option_and_then (thing_by p name.now o) d }
    {
        let k = self.declared.number(name)?;
        let one = declared.get(k as usize)?;
        self.thing_of(one, name)
    }

    // What a declaration of a name is.
    fn thing_of<'s>(&self, declared: &'s Declared<'a>, name: &Text) -> Option<Thing<'s, 'a>>
        ensures { let o = object_by self.now name.now in
            (p : Path) → option_map (plain_thing p name.now) result ≡ thing_by p name.now o (plain declared.now) }
    {
        match declared {
            Declared::Port(_, _, _) => self.signal(name),
            Declared::Object(_, _) => self.signal(name),
            Declared::Memory(local, words) => Some(memory(local, *words)),
            Declared::Parameter(_, worth) => constant(*worth),
            Declared::Routine(routine) => return Some(Thing::Function(false, routine)),
            Declared::Genvar(_) => None,
            Declared::Inner(_) => None,
        }
    }

    /// Whether a name is that of an input among the scope's nets and variables.
    pub fn is_input(&self, name: &Text) -> bool
        ensures { result ≡ clocks.is_input (object_by self.now name.now) }
    {
        match self.object(name) {
            Some(object) => is_input(object),
            None => false,
        }
    }

    // The net or variable of a name.
    fn object(&self, name: &Text) -> Option<&Object<'a>>
        ensures { option_map (λ o. plain_object o.now) result ≡ object_by self.now name.now }
    {
        let k = self.numbers.number(name)?;
        self.objects.as_slice().get(k as usize)
    }

    // What it is.
    fn signal<'s>(&self, name: &Text) -> Option<Thing<'s, 'a>>
        ensures { let o = object_by self.now name.now in
            (p : Path) → option_map (plain_thing p name.now) result
            ≡ option_map (λ o. things.signal (below p name.now) o.shape) o }
    {
        let object = self.object(name)?;
        Some(Thing::Signal(object.range))
    }
}

/// Whether a net or variable is an input.
pub fn is_input(object: &Object<'_>) -> bool
    ensures { result ≡ clocks.is_input (Some (plain_object object.now)) }
{
    match object.direction {
        Some(direction) => is_input_direction(direction),
        None => false,
    }
}

fn is_input_direction(direction: Direction) -> bool
    ensures { result ≡ Sides.is_input_direction (view.direction direction) }
{
    match direction {
        Direction::Input => true,
        Direction::Output => false,
    }
}

// A function, if a declaration is of one.
fn routine_of<'s, 'a>(declared: &'s Declared<'a>) -> Option<&'s Routine<'a>>
    ensures { option_map (λ r. plain_routine r.now) result ≡ routine_in (plain declared.now) }
{
    match declared {
        Declared::Routine(routine) => Some(routine),
        Declared::Port(_, _, _) => None,
        Declared::Object(_, _) => None,
        Declared::Memory(_, _) => None,
        Declared::Parameter(_, _) => None,
        Declared::Genvar(_) => None,
        Declared::Inner(_) => None,
    }
}

fn memory<'s, 'a>(local: &Local<'a>, words: Span) -> Thing<'s, 'a>
    ensures { let l = plain_local local.now in let w = plain_span words in
        (p : Path) → (x : Name) → plain_thing p x result
        ≡ things.memory (below p x) (design.local_shape l) (first_word w) (last_word w) }
{
    let (first, last) = words.words();
    Thing::Memory(range_of(local), first, last)
}

// A parameter; none where it rests on a fault, so that the name is looked up further out.
fn constant<'s, 'a>(worth: Worth) -> Option<Thing<'s, 'a>>
    ensures { (p : Path) → (x : Name) → option_map (plain_thing p x) result ≡ design.constant_thing (plain_worth worth) }
{
    match worth {
        Worth::Number(number) => Some(Thing::Constant(number)),
        Worth::Faulty => None,
    }
}

// The genvar of a turn.
fn turn_thing<'s, 'a>(turn: Option<Turn<'a>>, name: &Text) -> Option<Thing<'s, 'a>>
    ensures { let t = option_map plain_turn turn.entry in
        (p : Path) → option_map (plain_thing p name.now) result ≡ design.turn_thing t name.now }
{
    let turn = turn?;
    if turn.variable.text == *name {
        let bits = Bits::of(32, u128::from(turn.number));
        return Some(Thing::Constant(Constant { bits, signed: true }));
    }
    None
}

/// The range of an input or a variable of a function, or of a memory's words; `[0:0]` where a bound has a fault.
pub fn range_of(local: &Local<'_>) -> Range
    ensures { plain_range result ≡ design.local_shape (plain_local local.now) }
{
    match local.span.bounds() {
        Some((left, right)) => Range {
            left,
            right,
            signed: local.signed,
        },
        None => Range {
            left: 0,
            right: 0,
            signed: local.signed,
        },
    }
}
