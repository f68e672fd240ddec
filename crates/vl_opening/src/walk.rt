//! What was walked through so far.

ghost use Rattle.std.specs.Prelude.{◌≡◌, ◌++◌, ◌∷◌, [], IfOk, OnOk};
ghost use Rattle.vl_opening.specs.Walking.{IsFresh, Opens};

use dt_core::place::Place;
use std::alloc::{AllocError, Global};
use vl_build::progress::Progress;
use vl_scopes::scope::Scope;

/// How far a design is built, and its scopes so far.
#[derive(Drop)]
pub struct Walk<'a> {
    pub progress: Progress,
    pub scopes: Vec<Scope<'a>>,
}

impl<'a> Walk<'a> {
    /// Nothing yet, of a top whose name stands there.
    pub fn new(alloc: Global, top: Place) -> Walk<'a>
        ensures { IsFresh top result }
    {
        Walk {
            progress: Progress::new(top),
            scopes: Vec::new(alloc),
        }
    }

    /// Opens a scope; its number, or none behind the end, where none is opened.
    pub fn open(&mut self, scope: Scope<'a>) -> Result<Option<u32>, AllocError>
        ensures { IfOk result (λ n. Opens scope.entry self.old self.new n) }
    {
        if self.progress.ended {
            return Ok(None);
        }
        match u32::try_from(self.scopes.len()) {
            Ok(number) => {
                push(&mut self.scopes, scope)?;
                Ok(Some(number))
            }
            Err(_) => Err(AllocError),
        }
    }
}

fn push<'a>(scopes: &mut Vec<Scope<'a>>, scope: Scope<'a>) -> Result<(), AllocError>
    ensures { OnOk result (scopes.new.items ≡ scopes.old.items ++ scope.entry ∷ []) }
{
    match scopes.push(scope) {
        Ok(()) => Ok(()),
        Err(_) => Err(AllocError),
    }
}
