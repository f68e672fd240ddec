//! Clean text: the text of a design once comments, directives and macros are replaced.
//!
//! Below: `dt_core`, `vl_tree` (the one fault of a text), `indexmap` (the table of macros). Above: `vl_lex` (clean text to tokens), which
//! takes `bytes` and `tables` from here too.
//! Promise: `preprocess` gives exactly the bytes that `specs/CleanText` says, each with its line, or exactly the first fault in order of
//! reading, with its line. A `Clean` is a list of bytes with their lines, at most 16,777,216 of them.
//! Time is linear in the text and the clean text, but for uses of macros: where one use on a line of the text stands round others, each
//! body that gives nothing is read at most 17 times, and each other reading of a body gives a byte.
//! Not said: that memory is enough; the time.
#![tactic(auto)]

ghost use Rattle.std.specs.Prelude.{◌≡◌, ◌-◌, ◌^◌, ◌<◌, length, Ok, IfOk, IfErr};
ghost use Rattle.vl_pre.specs.CleanText.{clean_text};
ghost use Rattle.vl_pre.specs.Laws.Plain.{PlainComesThrough, UseReadsAsBody};
ghost use Rattle.vl_pre.specs.Laws.Selects.{SelectsCleanText};
ghost use Rattle.vl_tree.specs.Fault.{HasFault, fault_of};

pub mod bytes;
mod clean;
mod conditions;
mod context;
mod cursor;
mod directives;
mod fault;
mod lines;
mod macros;
mod names;
mod pieces;
mod reading;
pub mod tables;

pub use clean::Clean;
use context::Context;
use cursor::Cursor;
use reading::read_all;
use std::alloc::Global;
use vl_tree::fault::StaticFault;

/// The clean text of a text, or its first fault in order of reading.
pub fn preprocess(alloc: Global, text: &[u8]) -> Result<Clean, StaticFault>
    requires { length text.now < 2 ^ 32 - 1 }
    ensures clean { IfOk result (λ clean. clean_text text.now ≡ Ok clean) }
    ensures fault { IfErr result (λ e. HasFault (clean_text text.now) (fault_of e)) }
{
    let mut out = Clean::new(alloc);
    let mut context = Context::new(alloc);
    let mut at = Cursor::over(text);
    read_all(alloc, &mut at, &mut context, &mut out)?;
    Ok(out)
}

/// A text without backtick, comment and bad byte comes through unchanged, with its lines.
pub fn plain_text_law()
    ensures { PlainComesThrough }
{}

/// The use of a macro whose body is such a text reads as the body does, on the line of the use.
pub fn macro_use_law()
    ensures { UseReadsAsBody }
{}

/// What the conditions of a text select, each the first of its branches that holds, is its clean text.
pub fn condition_law()
    ensures { SelectsCleanText }
{}
