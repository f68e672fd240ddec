//! All scopes.

use crate::scope::Scope;

/// The scopes of a design in preorder: the one of number 0 is the top, and each other one stands in one of a lower number.
#[derive(Drop)]
pub struct Tree<'a> {
    pub scopes: Vec<Scope<'a>>,
}
