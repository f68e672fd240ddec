//! What an assignment writes.

ghost use Rattle.std.specs.Prelude.{◌≤◌, ◌<◌, ◌+◌, IfOk, length};
ghost use Rattle.vl_tree.specs.Token.{coded_kind};
ghost use Rattle.vl_simple.specs.Targets.{BeginsTarget, ReadsTarget, ReadsTargets};

use dt_core::limits::MAX_DEPTH;
use dt_core::text::Text;
use sqlite_items::Items;
use std::alloc::Global;
use vl_expr::read_selects;
use vl_read::cursor::Cursor;
use vl_read::fault::Fault;
use vl_read::lists::list_of;
use vl_tree::expression::Name;
use vl_tree::statement::Target;
use vl_tree::token::{Mark, Token, TokenKind};

/// What a target begins with.
#[derive(Clone, Copy)]
enum Start<'a> {
    Name(&'a Text),
    /// `{`
    Brace,
}

// What a token begins, if a target begins with it.
fn start_of(token: &Token) -> Option<Start<'_>>
    ensures { BeginsTarget (coded_kind token.now.kind) result }
{
    match &token.kind {
        TokenKind::Name(name) => Some(Start::Name(name)),
        TokenKind::Mark(Mark::OpenBrace) => Some(Start::Brace),
        _ => None,
    }
}

/// A name with its selects, or targets in braces, at this depth.
#[cycle(target)]
pub fn read_target<'a>(
    alloc: Global,
    at: Cursor<'a>,
    depth: u32,
) -> Result<(Target, Cursor<'a>), Fault>
    requires low { depth ≤ MAX_DEPTH + 1 }
    ensures reads { ReadsTarget depth at.entry result }
    ensures shorter { IfOk result (λ x. length x.1 < length at.entry) }
    ensures shallow { IfOk result (λ x. depth ≤ MAX_DEPTH) }
{
    let Some((token, place, rest)) = at.next() else {
        return Err(Fault::At(at.left()));
    };
    let Some(start) = start_of(token) else {
        return Err(Fault::At(at.left()));
    };
    if depth > MAX_DEPTH {
        return Err(Fault::Deep(at.left()));
    }
    match start {
        Start::Name(text) => {
            let text = Text::copied(alloc, text.bytes())?;
            let (selects, rest) = read_selects(alloc, rest, depth)?;
            Ok((Target::Name(Name { text, place }, selects), rest))
        }
        Start::Brace => {
            let (targets, rest) = read_targets(alloc, rest, depth + 1)?;
            let rest = rest.pass_mark(Mark::CloseBrace)?;
            Ok((Target::Targets(place, targets), rest))
        }
    }
}

// Targets with commas between them, one at least.
#[cycle(target)]
fn read_targets<'a>(
    alloc: Global,
    at: Cursor<'a>,
    depth: u32,
) -> Result<(Items<Target>, Cursor<'a>), Fault>
    requires low { depth ≤ MAX_DEPTH + 1 }
    ensures reads { ReadsTargets depth at.entry result }
    ensures shorter { IfOk result (λ x. length x.1 < length at.entry) }
    ensures shallow { IfOk result (λ x. depth ≤ MAX_DEPTH) }
{
    let (first, after) = read_target(alloc, at, depth)?;
    let mut all = list_of(alloc, first)?;
    let mut rest = after;
    loop {
        match rest.find_mark(Mark::Comma) {
            None => return Ok((all, rest)),
            Some((_, inner)) => {
                let (target, after) = read_target(alloc, inner, depth)?;
                all.push(target)?;
                rest = after;
            }
        }
    }
}
