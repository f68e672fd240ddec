//! Modules: the syntax tree that a list of tokens is, or the answer that it is none.
//!
//! Below: `vl_tree` (tokens, trees, grammar), `dt_core` (texts). Above: `vl_front`.
//! Promise: `parse_module` answers the one tree that the grammar derives from the tokens, and refuses them exactly where there is
//! none. One reader stands for each rule; its clause says which tree it took, where it ended, and that there is no other.
//! Not said: which token is at fault, and that memory is enough.
#![tactic(auto)]

ghost use Rattle.std.specs.Prelude.{◌≡◌, IfOk, IfErr};
ghost use Rattle.vl_tree.specs.Token.{all_coded};
ghost use Rattle.vl_tree.specs.Tree as plain;
ghost use Rattle.vl_tree.specs.View.{module_of};
ghost use Rattle.vl_tree.specs.Grammar.{Derives};
ghost use Rattle.vl_module.specs.Reading.{IsRefused};

mod expr;
mod module;
mod stmt;
mod tokens;

use dt_core::fault::NoMemory;
use std::alloc::{AllocError, Global};
use vl_tree::token::Token;
use vl_tree::tree::Module;

/// Why there is no tree.
#[derive(Clone, Copy, Debug, PartialEq, Eq)]
pub enum SynFault {
    /// The tokens are those of no tree of this grammar.
    NoTree,
    /// There was too little memory.
    Memory,
}

impl From<AllocError> for SynFault {
    ghost use Rattle.std.specs.Prelude.{◌≡◌};
    ghost use Rattle.vl_module.specs.declared.SynFault.TheVariants.{Memory};

    ghost from_gives = { λ _ e. e ≡ Memory };

    fn from(_: AllocError) -> SynFault {
        SynFault::Memory
    }
}

impl From<NoMemory> for SynFault {
    ghost use Rattle.std.specs.Prelude.{◌≡◌};
    ghost use Rattle.vl_module.specs.declared.SynFault.TheVariants.{Memory};

    ghost from_gives = { λ _ e. e ≡ Memory };

    fn from(_: NoMemory) -> SynFault {
        SynFault::Memory
    }
}

/// The module that all of these tokens are.
pub fn parse_module(alloc: Global, tokens: &[Token]) -> Result<Module, SynFault>
    ensures accepts { IfOk result (λ m. Derives (all_coded tokens.now) (module_of m)) }
    ensures only { IfOk result (λ m. (n : plain.Module) → Derives (all_coded tokens.now) n → n ≡ module_of m) }
    ensures refuses { IfErr result (IsRefused (all_coded tokens.now)) }
{
    let (module, rest) = module::read_module(alloc, tokens)?;
    if rest.is_empty() {
        Ok(module)
    } else {
        Err(SynFault::NoTree)
    }
}
