//! What an item begins with.

ghost use Rattle.std.specs.Prelude.{◌≡◌};
ghost use Rattle.vl_tree.specs.Token.{coded_kind};
ghost use Rattle.vl_item.specs.Starts.{key_begins, begins};

use vl_tree::token::{Key, Token, TokenKind};

/// What an item that holds no other items begins with.
#[derive(Clone, Copy)]
pub enum Start {
    /// `parameter`, `localparam`, `input`, `output`, `wire`, `reg`, `integer`, `genvar` and `assign`
    Declaration,
    /// `always`
    Always,
    /// `initial`
    Initial,
    /// `function`
    Function,
    /// A name.
    Instances,
}

// What a keyword begins.
fn key_start(key: Key) -> Option<Start>
    ensures { result ≡ key_begins key }
{
    match key {
        Key::Parameter
        | Key::Localparam
        | Key::Input
        | Key::Output
        | Key::Wire
        | Key::Reg
        | Key::Integer
        | Key::Genvar
        | Key::Assign => Some(Start::Declaration),
        Key::Always => Some(Start::Always),
        Key::Initial => Some(Start::Initial),
        Key::Function => Some(Start::Function),
        _ => None,
    }
}

/// What a token begins, if an item that holds no other items begins with it.
pub fn start_of(token: &Token) -> Option<Start>
    ensures { result ≡ begins (coded_kind token.now.kind) }
{
    match &token.kind {
        TokenKind::Name(_) => Some(Start::Instances),
        TokenKind::Key(key) => key_start(*key),
        _ => None,
    }
}
