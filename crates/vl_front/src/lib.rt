//! From the text of a design to its numbered design.
//!
//! Below: `vl_pre` (clean text), `vl_lex` (tokens), `vl_source` (whether they are a source), `vl_module` (the tree of one module with one
//! clocked block), `vl_scope` (static faults), `vl_proc` (numbered design), `one_block` (the same as one of a hierarchy). Above: `dessert`.
//! Promise: `read_design` answers the first fault of the clean text, of the tokens or of the grammar, with its line, exactly where
//! there is one (`specs/FirstFault`), and NoTop exactly where of the other texts one has no module that may be the top (`specs/Top`);
//! of the texts that are left it accepts exactly those of sound modules with one clocked block (`specs/OneModule`), and its design
//! stands for the module (`StandsFor` of `vl_stands`). `fault_laws`: a text has one first fault at most, and none where its tokens
//! are a source.
//! Not said: which later fault a text has that is refused as `NotYetBuilt`; that memory is enough.
#![tactic(auto)]

ghost use Rattle.std.specs.Prelude.{◌≡◌, ◌<◌, ◌≤◌, ◌^◌, ◌-◌, length, Ok, IfOk, OnOk, IfErr};
ghost use Rattle.vl_tree.specs.Token.{all_coded};
ghost use Rattle.vl_front.specs.Spelled.{spelled};
ghost use Rattle.vl_front.specs.Top.{HaveTop, asked};
ghost use Rattle.vl_front.specs.Laws.{HaveOneFault, SourcesHaveNone};
ghost use Rattle.vl_front.specs.Reads.{Reads};
ghost use Rattle.vl_front.specs.Calls.First.{IsSpellingFault, IsTreeFault};

mod fault;
mod top;

use dt_core::limits::MAX_TOKENS;
pub use fault::DesignFault;
use fault::{in_source, line_at};
use netlist::flat::Flat;
use std::alloc::Global;
use top::{is_asked, is_topless};
use vl_tree::token::Token;

/// The numbered design of a text of fewer than 2^32-1 bytes, whose top has this name, where one is asked for.
pub fn read_design(alloc: Global, text: &[u8], top: Option<&[u8]>) -> Result<Flat, DesignFault>
    requires { length text.now < 2 ^ 32 - 1 }
    ensures { Reads text.now (asked top.entry) result }
{
    let tokens = read_tokens(alloc, text)?;
    check_source(alloc, &tokens, top)?;
    let module = vl_module::parse_module(alloc, &tokens)?;
    if !is_asked(module.name.bytes(), top) {
        return Err(DesignFault::NotYetBuilt);
    }
    if !vl_scope::is_sound(alloc, &module)? {
        return Err(DesignFault::NotYetBuilt);
    }
    let plain = vl_proc::lower(alloc, &module)?;
    Ok(one_block::convert(alloc, &plain)?)
}

/// Laws of the definition of a first fault: a text has one at most, and none where its tokens are a source.
pub fn fault_laws()
    ensures one { HaveOneFault }
    ensures none { SourcesHaveNone }
{}

// The tokens of a text, or its first fault.
fn read_tokens(alloc: Global, text: &[u8]) -> Result<Vec<Token>, DesignFault>
    requires { length text.now < 2 ^ 32 - 1 }
    ensures tokens { IfOk result (λ v. spelled text.now ≡ Ok (all_coded v.items)) }
    ensures few { IfOk result (λ v. length v.items ≤ MAX_TOKENS) }
    ensures fault { IfErr result (IsSpellingFault (spelled text.now)) }
{
    let clean = vl_pre::preprocess(alloc, text)?;
    Ok(vl_lex::lex(alloc, &clean)?)
}

// Whether all of the tokens are a source, and that has a top. Its tree isn't kept.
fn check_source(alloc: Global, tokens: &[Token], top: Option<&[u8]>) -> Result<(), DesignFault>
    requires { length tokens.now < 2 ^ 32 - 1 }
    ensures source { OnOk result (HaveTop (asked top.entry) (all_coded tokens.now)) }
    ensures fault { IfErr result (IsTreeFault (asked top.entry) (all_coded tokens.now)) }
{
    match vl_source::parse_source(alloc, tokens) {
        Ok(source) => {
            if is_topless(&source, top) {
                return Err(DesignFault::NoTop {
                    line: line_at(tokens, 0),
                });
            }
            Ok(())
        }
        Err(fault) => Err(in_source(tokens, fault)),
    }
}
