//! The body of a function.

ghost use Rattle.std.specs.Prelude.{◌≡◌, List, IfOk, Some, option_and_then, slice_get};
ghost use Rattle.std.specs.Option.{option_map};
ghost use Rattle.vl_value.specs.Paths.{Text as Name};
ghost use Rattle.vl_design.specs.Objects as design;
ghost use Rattle.vl_design.specs.Scopes as scopes;
ghost use Rattle.vl_declares.specs.Plain.{plain_routine};
ghost use Rattle.vl_names.specs.Names.{number_of};
ghost use Rattle.vl_objects.specs.Plain.{plain_range};
ghost use Rattle.vl_scopes.specs.Plain.{path_at};
ghost use Rattle.vl_sight.specs.Bodies.{IsBody, locals_in, own_in, own_sight, routine_with};
ghost use Rattle.vl_sight.specs.Seen.{inside_thing};
ghost use Rattle.vl_sight.specs.Firsts.{Finds, is_local};

use crate::first::local_numbers;
use crate::names::range_of;
use crate::thing::{Inside, Seen, Thing};
use dt_core::text::Text;
use std::alloc::{AllocError, Global};
use vl_declares::declared::Routine;
use vl_names::NameNumbers;
use vl_objects::object::Range;

/// The body of a function, from which names are seen: the function, if its scope declares it, and the numbers of its inputs and
/// variables by name.
#[derive(Drop)]
pub struct Body<'s, 'a> {
    function: Option<&'s Routine<'a>>,
    locals: NameNumbers,
}

impl<'s, 'a> Body<'s, 'a> {
    /// That of a function.
    pub fn new(alloc: Global, function: Option<&'s Routine<'a>>) -> Result<Body<'s, 'a>, AllocError>
        ensures { let r = option_map (λ r. plain_routine r.now) function.entry in
            IfOk result (λ b. IsBody r b) }
    {
        let locals = locals_of(alloc, function)?;
        Ok(Body { function, locals })
    }

    /// What a name stands for that the function itself has: an input, a variable or its own name. The function is one of the scope of a
    /// number.
    pub fn own(&self, scope: u32, name: &Text) -> Option<Inside<'s, 'a>>
        ensures { let r = routine_with self.now in
            IsBody r self.now → (ss : List scopes.Scope) → (f : Name) → own_in r f
            → option_map (inside_thing ss f name.now) result ≡ own_sight (path_at ss (Some scope)) r name.now }
    {
        match self.local(name) {
            Some(range) => Some(Inside::Local(scope, range)),
            None => self.itself(scope, name),
        }
    }

    // The range of an input or a variable.
    fn local(&self, name: &Text) -> Option<Range>
        ensures { let ls = locals_in (routine_with self.now) in
            let l = option_and_then (slice_get ls) (number_of self.now.locals name.now) in
            option_map plain_range result ≡ option_map design.local_shape l }
    {
        let function = self.function?;
        let k = self.locals.number(name)?;
        let local = function.locals.as_slice().get(k as usize)?;
        Some(range_of(local))
    }

    // The function, where the name is its own.
    fn itself(&self, scope: u32, name: &Text) -> Option<Inside<'s, 'a>>
        ensures { let r = routine_with self.now in
            (ss : List scopes.Scope) → (f : Name)
            → option_map (inside_thing ss f name.now) result
            ≡ option_and_then (λ r. design.own_thing (path_at ss (Some scope)) r name.now) r }
    {
        let function = self.function?;
        if function.result.name.text == *name {
            let thing = Thing::Function(true, function);
            return Some(Inside::Around(Seen { scope, thing }));
        }
        None
    }
}

fn locals_of(alloc: Global, function: Option<&Routine<'_>>) -> Result<NameNumbers, AllocError>
    ensures { let ls = locals_in (option_map (λ r. plain_routine r.now) function.entry) in
        IfOk result (λ n. Finds is_local ls ls n) }
{
    match function {
        Some(routine) => local_numbers(alloc, routine.locals.as_slice()),
        None => Ok(NameNumbers::new(alloc)),
    }
}
