//! What is in sight in all scopes of a design.

ghost use Rattle.std.specs.Prelude.{◌≡◌, List, ◌++◌, ◌∷◌, [], ◌<◌, Some, IfOk, IfSome, OnOk};
ghost use Rattle.std.specs.Option.{option_map};
ghost use Rattle.vl_value.specs.Paths.{Text as Name};
ghost use Rattle.vl_design.specs.Objects as design;
ghost use Rattle.vl_design.specs.Scopes as scopes_of;
ghost use Rattle.vl_design.specs.LoopVariables.{object_path};
ghost use Rattle.vl_declares.specs.Plain.{plain_routine};
ghost use Rattle.vl_scopes.specs.Plain.{levels_at, plain_scopes};
ghost use Rattle.vl_sight.specs.Bodies.{IsBody, routine_at};
ghost use Rattle.vl_sight.specs.Seen.{inside_thing, own_path, owned_path, seen_thing, sight_inside, thing_at};
ghost use Rattle.vl_sight.specs.Levels.{HoldsSights, is_input_at, lower_than, own_level};

use crate::body::Body;
use crate::names::Names;
use crate::thing::{Inside, Owner, Seen};
use dt_core::text::Text;
use std::alloc::{AllocError, Global};
use vl_declares::declared::Routine;
use vl_scopes::scope::{Origin, Scope};

/// The names of each scope of a design.
#[derive(Drop)]
pub struct Sights<'a> {
    levels: Vec<Names<'a>>,
}

impl<'a> Sights<'a> {
    /// Those of the scopes of a design.
    pub fn new(alloc: Global, scopes: &[Scope<'a>]) -> Result<Sights<'a>, AllocError>
        ensures { IfOk result (λ s. HoldsSights scopes.now s) }
    {
        let mut levels = Vec::new(alloc);
        for scope in scopes {
            let names = Names::new(alloc, scope)?;
            push(&mut levels, names)?;
        }
        Ok(Sights { levels })
    }

    /// What a name stands for in the scope of a number: what it or one around it has, from the innermost outward, within one module.
    pub fn find<'s>(&self, scopes: &'s [Scope<'a>], from: u32, name: &Text) -> Option<Seen<'s, 'a>>
        requires { HoldsSights scopes.now self.now }
        ensures { let ss = plain_scopes scopes.now in
            option_map (seen_thing ss name.now) result ≡ design.sight (levels_at ss (Some from)) name.now }
    {
        let mut next = Some(from);
        while let Some(at) = next {
            match self.here(scopes, at, name) {
                Some(seen) => return Some(seen),
                None => next = outer_of(scopes, at),
            }
        }
        None
    }

    /// The body of a function of the scope of a number; without such a function it is as the scope.
    pub fn body<'s>(
        &self,
        alloc: Global,
        scopes: &'s [Scope<'a>],
        from: u32,
        function: &Text,
    ) -> Result<Body<'s, 'a>, AllocError>
        requires { HoldsSights scopes.now self.now }
        ensures { let r = routine_at (plain_scopes scopes.now) from function.now in
            IfOk result (λ b. IsBody r b) }
    {
        let routine = self.function(scopes, from, function);
        Body::new(alloc, routine)
    }

    /// What a name stands for in the body of a function of the scope of a number.
    pub fn find_inside<'s>(
        &self,
        scopes: &'s [Scope<'a>],
        from: u32,
        body: &Body<'s, 'a>,
        name: &Text,
    ) -> Option<Inside<'s, 'a>>
        requires { HoldsSights scopes.now self.now }
        ensures { let ss = plain_scopes scopes.now in
            (f : Name) → IsBody (routine_at ss from f) body.now
            → option_map (inside_thing ss f name.now) result ≡ sight_inside ss from f name.now }
    {
        match body.own(from, name) {
            Some(inside) => Some(inside),
            None => around(self.find(scopes, from, name)),
        }
    }

    /// The number of the scope that declares the net or variable that a name stands for in the scope of a number.
    pub fn object(&self, scopes: &[Scope<'a>], from: u32, name: &Text) -> Option<u32>
        requires { HoldsSights scopes.now self.now }
        ensures { let ss = plain_scopes scopes.now in
            object_path (design.sight (levels_at ss (Some from)) name.now) ≡ own_path ss name.now result }
    {
        let seen = self.find(scopes, from, name)?;
        seen.owner()
    }

    /// What declares the net or variable that a name stands for in the body of a function of the scope of a number.
    pub fn object_inside<'s>(
        &self,
        scopes: &'s [Scope<'a>],
        from: u32,
        body: &Body<'s, 'a>,
        name: &Text,
    ) -> Option<Owner>
        requires { HoldsSights scopes.now self.now }
        ensures { let ss = plain_scopes scopes.now in
            (f : Name) → IsBody (routine_at ss from f) body.now
            → object_path (sight_inside ss from f name.now) ≡ owned_path ss f name.now result }
    {
        let inside = self.find_inside(scopes, from, body, name)?;
        inside.owner()
    }

    /// Whether a name is that of an input among the nets and variables of the scope of a number.
    pub fn is_input(&self, scope: u32, name: &Text) -> bool
        ensures { (cs : List Scope) → HoldsSights cs self.now
            → result ≡ is_input_at (plain_scopes cs) scope name.now }
    {
        match self.levels.as_slice().get(scope as usize) {
            Some(names) => names.is_input(name),
            None => false,
        }
    }

    // What the scope of a number has under a name.
    fn here<'s>(&self, scopes: &'s [Scope<'a>], at: u32, name: &Text) -> Option<Seen<'s, 'a>>
        requires { HoldsSights scopes.now self.now }
        ensures { let ss = plain_scopes scopes.now in
            option_map (seen_thing ss name.now) result ≡ thing_at ss at name.now }
    {
        let scope = scopes.get(at as usize)?;
        let names = self.levels.as_slice().get(at as usize)?;
        let thing = names.thing(scope, name)?;
        Some(Seen { scope: at, thing })
    }

    // The function of a name of the scope of a number.
    fn function<'s>(&self, scopes: &'s [Scope<'a>], at: u32, name: &Text) -> Option<&'s Routine<'a>>
        requires { HoldsSights scopes.now self.now }
        ensures { let ss = plain_scopes scopes.now in
            option_map (λ r. plain_routine r.now) result ≡ routine_at ss at name.now }
    {
        let scope = scopes.get(at as usize)?;
        let names = self.levels.as_slice().get(at as usize)?;
        names.function(scope.declared.as_slice(), name)
    }
}

// The scope in which a block stands; what is around an instance is out of sight.
fn outer_of(scopes: &[Scope<'_>], at: u32) -> Option<u32>
    ensures levels { let ss = plain_scopes scopes.now in
        levels_at ss (Some at) ≡ own_level ss at ++ levels_at ss result }
    ensures lower { IfSome result (λ k. k < at) }
{
    let scope = scopes.get(at as usize)?;
    match scope.origin {
        Origin::Block(_) => lower(scope.within, at),
        Origin::Top(_) => None,
        Origin::Instance(_, _) => None,
    }
}

/// A number that is lower than another.
pub fn lower(number: Option<u32>, than: u32) -> Option<u32>
    ensures number { result ≡ lower_than than number }
    ensures lower { IfSome result (λ k. k < than) }
{
    let number = number?;
    if number < than { Some(number) } else { None }
}

fn around<'s, 'a>(seen: Option<Seen<'s, 'a>>) -> Option<Inside<'s, 'a>>
    ensures { (ss : List scopes_of.Scope) → (f x : Name)
        → option_map (inside_thing ss f x) result ≡ option_map (seen_thing ss x) seen.entry }
{
    let seen = seen?;
    Some(Inside::Around(seen))
}

fn push<'a>(levels: &mut Vec<Names<'a>>, names: Names<'a>) -> Result<(), AllocError>
    ensures { OnOk result (levels.new.items ≡ levels.old.items ++ names.entry ∷ []) }
{
    match levels.push(names) {
        Ok(()) => Ok(()),
        Err(_) => Err(AllocError),
    }
}
