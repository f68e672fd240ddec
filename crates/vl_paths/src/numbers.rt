//! Numbers of the paths of scopes.

ghost use Rattle.std.specs.Prelude.{◌≡◌, ◌++◌, ◌∷◌, [], IfOk, OnOk, get_or, option_to_list};
ghost use Rattle.std.specs.Option.{option_map};
ghost use Rattle.vl_scopes.specs.Plain.{plain_scopes, plain_step};
ghost use Rattle.vl_paths.specs.Keys.{AreKeysOf, GoesOn};
ghost use Rattle.vl_paths.specs.Numbers as paths;

use crate::key::{Key, LastStep, copied, last_step};
use dt_core::text::Text;
use indexmap::IndexSet;
use std::alloc::{AllocError, Global};
use vl_scopes::scope::{Scope, Step};

/// Numbers of the paths of the scopes of a design, the top's path being number 0.
#[derive(Drop)]
pub struct PathNumbers {
    keys: IndexSet<Key>,
    of_scopes: Vec<usize>,
}

impl PathNumbers {
    /// Those of all scopes.
    pub fn new(alloc: Global, scopes: &[Scope<'_>]) -> Result<PathNumbers, AllocError>
        ensures { let ss = plain_scopes scopes.now in IfOk result (λ n. paths.AreNumbers n ss) }
    {
        let mut numbers = PathNumbers::of_none(alloc)?;
        for scope in scopes {
            numbers.push(alloc, scope)?;
        }
        Ok(numbers)
    }

    fn of_none(alloc: Global) -> Result<PathNumbers, AllocError>
        ensures { IfOk result (λ n. paths.AreNumbers n []) }
    {
        Ok(PathNumbers {
            keys: top_alone(alloc)?,
            of_scopes: Vec::new(alloc),
        })
    }

    // The number of a scope behind those that have one.
    fn push(&mut self, alloc: Global, scope: &Scope<'_>) -> Result<(), AllocError>
        ensures { let s = scope.now in OnOk result (paths.Numbers s self.old self.new) }
    {
        let before = number_within(self.of_scopes.as_slice(), scope.within);
        let number = number_after(alloc, &mut self.keys, before, scope.step)?;
        match self.of_scopes.push(number) {
            Ok(()) => Ok(()),
            Err(_) => Err(AllocError),
        }
    }

    /// The number of the path of a scope; where there is no such scope, the top's.
    pub fn number(&self, scope: usize) -> usize
        ensures { result ≡ paths.number_of self.now scope }
    {
        number_at(self.of_scopes.as_slice(), scope)
    }

    /// The number of the path of a function of a scope, below which its inputs and variables stand; none where no scope has
    /// that path.
    pub fn inside(
        &self,
        alloc: Global,
        scope: u32,
        function: &Text,
    ) -> Result<Option<usize>, AllocError>
        ensures { let f = function.now in IfOk result (λ r. paths.IsInside self.now scope f r) }
    {
        let last = LastStep::Named(copied(alloc, function)?);
        let key = Key::Below(self.number(scope as usize), last);
        Ok(self.keys.get_index_of(&key))
    }
}

fn top_alone(alloc: Global) -> Result<IndexSet<Key>, AllocError>
    ensures { IfOk result (λ ks. ks.keys ≡ Key.Top ∷ []) }
{
    let mut keys = IndexSet::new(alloc);
    match keys.insert_full(Key::Top) {
        Ok(_) => Ok(keys),
        Err(_) => Err(AllocError),
    }
}

fn number_at(of_scopes: &[usize], scope: usize) -> usize
    ensures { result ≡ get_or of_scopes.now scope 0 }
{
    of_scopes.get(scope).copied().unwrap_or(0)
}

// The number of the path in which a scope stands.
fn number_within(of_scopes: &[usize], within: Option<u32>) -> usize
    ensures { result ≡ paths.number_within of_scopes.now within }
{
    match within {
        None => 0,
        Some(scope) => number_at(of_scopes, scope as usize),
    }
}

// The number of what goes on by a step, if there is one, from the path of a number.
fn number_after(
    alloc: Global,
    keys: &mut IndexSet<Key>,
    before: usize,
    step: Option<Step<'_>>,
) -> Result<usize, AllocError>
    ensures { let steps = option_to_list (option_map plain_step step.entry) in
        IfOk result (λ r. GoesOn before steps r keys.old.keys keys.new.keys) }
{
    let Some(last) = step else {
        return Ok(before);
    };
    number_below(alloc, keys, before, last)
}

fn number_below(
    alloc: Global,
    keys: &mut IndexSet<Key>,
    before: usize,
    step: Step<'_>,
) -> Result<usize, AllocError>
    ensures { let s = plain_step step.entry in
        IfOk result (λ r. GoesOn before (s ∷ []) r keys.old.keys keys.new.keys) }
{
    let last = last_step(alloc, step)?;
    match keys.insert_full(Key::Below(before, last)) {
        Ok((number, _)) => Ok(number),
        Err(_) => Err(AllocError),
    }
}
