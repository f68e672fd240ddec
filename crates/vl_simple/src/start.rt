//! What a statement begins with.

ghost use Rattle.vl_tree.specs.Token as k;
ghost use Rattle.vl_tree.specs.Token.{coded_kind};
ghost use Rattle.vl_simple.specs.Starts.{BeginsStatement};

use vl_tree::statement::Print;
use vl_tree::token::{Key, Mark, System, Token, TokenKind};

/// What a statement begins with.
#[derive(Clone, Copy)]
pub enum Start {
    /// `;`
    Empty,
    /// `begin`
    Block,
    /// `if`
    Conditional,
    /// `case`, or `casez` where true.
    Select(bool),
    /// `for`
    Loop,
    /// A name or `{`.
    Assign,
    /// `$display` and `$write`
    Print(Print),
    /// `$fwrite`
    FilePrint,
    /// `$stop`
    Stop,
    /// `$fatal`
    Fatal,
}

// What a keyword begins.
fn key_start(key: Key) -> Option<Start>
    ensures { BeginsStatement (k.key key) result }
{
    match key {
        Key::Begin => Some(Start::Block),
        Key::If => Some(Start::Conditional),
        Key::Case => Some(Start::Select(false)),
        Key::Casez => Some(Start::Select(true)),
        Key::For => Some(Start::Loop),
        _ => None,
    }
}

// What a mark begins.
fn mark_start(mark: Mark) -> Option<Start>
    ensures { BeginsStatement (k.mark mark) result }
{
    match mark {
        Mark::Semicolon => Some(Start::Empty),
        Mark::OpenBrace => Some(Start::Assign),
        _ => None,
    }
}

// What a system name begins.
fn system_start(system: System) -> Option<Start>
    ensures { BeginsStatement (k.system system) result }
{
    match system {
        System::Display => Some(Start::Print(Print::Display)),
        System::Write => Some(Start::Print(Print::Write)),
        System::Fwrite => Some(Start::FilePrint),
        System::Stop => Some(Start::Stop),
        System::Fatal => Some(Start::Fatal),
        _ => None,
    }
}

/// What a token begins, if a statement begins with it.
pub fn start_of(token: &Token) -> Option<Start>
    ensures { BeginsStatement (coded_kind token.now.kind) result }
{
    match &token.kind {
        TokenKind::Name(_) => Some(Start::Assign),
        TokenKind::Key(key) => key_start(*key),
        TokenKind::Mark(mark) => mark_start(*mark),
        TokenKind::System(system) => system_start(*system),
        _ => None,
    }
}
