//! Whether an expression rests on a faulty constant.

ghost use Rattle.std.specs.Prelude.{◌≡◌};
ghost use Rattle.vl_tree.specs.SyntaxView as view;
ghost use Rattle.vl_width.specs.Lists.{exprs_of, links_of, choices_of};
ghost use Rattle.vl_design.specs.Constants as design;
ghost use Rattle.vl_constants.specs.Needed.{faulty_in};

use vl_frames::frames::Frames;
use vl_tree::expression::{Choice, Expr, Link, Select, Selected};

/// Whether an expression reads a constant that is faulty.
#[cycle(mentions)]
pub fn mentions(frames: &Frames, e: &Expr) -> bool
    ensures { result ≡ design.mentions (faulty_in frames.now) (view.expr e.now) }
{
    match e {
        Expr::Number(_, _) => false,
        Expr::Read(name, selects) => {
            if frames.is_faulty(&name.text) {
                return true;
            }
            selects_mention(frames, selects.as_slice())
        }
        Expr::Call(_, arguments) => some_mention(frames, arguments.as_slice()),
        Expr::System(_, _, operand) => mentions(frames, operand.get()),
        Expr::Group(_, inner) => mentions(frames, inner.get()),
        Expr::Concat(_, parts) => some_mention(frames, parts.as_slice()),
        Expr::Repeat(_, count, parts) => {
            if mentions(frames, count.get()) {
                return true;
            }
            some_mention(frames, parts.as_slice())
        }
        Expr::Unary(_, _, operand) => mentions(frames, operand.get()),
        Expr::Chain(first, links) => {
            if mentions(frames, first.get()) {
                return true;
            }
            links_mention(frames, links.as_slice())
        }
        Expr::Choose(choices, last) => {
            if choices_mention(frames, choices.as_slice()) {
                return true;
            }
            mentions(frames, last.get())
        }
    }
}

#[cycle(mentions)]
fn some_mention(frames: &Frames, all: &[Expr]) -> bool
    ensures { result ≡ design.some_mention (faulty_in frames.now) (exprs_of all.now) }
{
    for e in all {
        if mentions(frames, e) {
            return true;
        }
    }
    false
}

#[cycle(mentions)]
fn links_mention(frames: &Frames, links: &[Link<Expr>]) -> bool
    ensures { result ≡ design.links_mention (faulty_in frames.now) (links_of links.now) }
{
    for link in links {
        if mentions(frames, &link.operand) {
            return true;
        }
    }
    false
}

#[cycle(mentions)]
fn choices_mention(frames: &Frames, choices: &[Choice<Expr>]) -> bool
    ensures { result ≡ design.choices_mention (faulty_in frames.now) (choices_of choices.now) }
{
    for choice in choices {
        if mentions(frames, &choice.condition) {
            return true;
        }
        if mentions(frames, &choice.value) {
            return true;
        }
    }
    false
}

#[cycle(mentions)]
fn selects_mention(frames: &Frames, selects: &[Selected<Expr>]) -> bool
    ensures { result ≡ design.selects_mention (faulty_in frames.now) (view.read_selects selects.now) }
{
    for selected in selects {
        match &selected.select {
            Select::Index(e) => {
                if mentions(frames, e) {
                    return true;
                }
            }
            Select::Part(a, b) => {
                if mentions(frames, a) {
                    return true;
                }
                if mentions(frames, b) {
                    return true;
                }
            }
            Select::Upward(a, b) => {
                if mentions(frames, a) {
                    return true;
                }
                if mentions(frames, b) {
                    return true;
                }
            }
            Select::Downward(a, b) => {
                if mentions(frames, a) {
                    return true;
                }
                if mentions(frames, b) {
                    return true;
                }
            }
        }
    }
    false
}
