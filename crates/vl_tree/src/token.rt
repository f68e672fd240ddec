//! Tokens: what the text of a design is spelled of.

ghost use Rattle.std.specs.Prelude.{◌≤◌, ◌<◌, ◌^◌};
ghost use Rattle.dt_core.specs.declared.limits.TheConstants.{MAX_WIDTH};

use dt_core::text::Text;

/// A number as it is written: a width of 1 to 128 bits, whether the width was written, whether it is signed, its
/// value, and the bits that its `z` digits leave open.
#[derive(Clone, Copy, Debug, PartialEq, Eq)]
pub struct Literal {
    pub width: u32,
    pub sized: bool,
    pub signed: bool,
    pub value: u128,
    pub wild: u128,
    ghost wide: { (1 ≤ width) × (width ≤ MAX_WIDTH) },
    ghost fits: { (value < 2 ^ width) × (wild < 2 ^ width) },
}

/// A keyword (IEEE 1364-2005, annex B); from `Inout` on those that no rule of the grammar uses.
#[derive(Clone, Copy, Debug, PartialEq, Eq)]
pub enum Key {
    Always,
    Assign,
    Automatic,
    Begin,
    Case,
    Casez,
    Default,
    Else,
    End,
    Endcase,
    Endfunction,
    Endgenerate,
    Endmodule,
    For,
    Function,
    Generate,
    Genvar,
    If,
    Initial,
    Input,
    Integer,
    Localparam,
    Module,
    Negedge,
    Or,
    Output,
    Parameter,
    Posedge,
    Reg,
    Signed,
    Wire,
    Inout,
    Casex,
    Task,
    Fork,
    Join,
    Wait,
    Force,
    Release,
    Deassign,
    While,
    Repeat,
    Forever,
    Real,
    Realtime,
    Time,
    Event,
    Tri,
    Wand,
    Wor,
    Supply0,
    Supply1,
    Defparam,
    Specify,
    Primitive,
    Disable,
}

/// A mark. `Xnor` is both `~^` and `^~`.
#[derive(Clone, Copy, Debug, PartialEq, Eq)]
pub enum Mark {
    Hash,
    OpenParen,
    CloseParen,
    OpenBracket,
    CloseBracket,
    OpenBrace,
    CloseBrace,
    Comma,
    Semicolon,
    Colon,
    PlusColon,
    MinusColon,
    Dot,
    At,
    Question,
    Equals,
    Star,
    Slash,
    Percent,
    Plus,
    Minus,
    ShiftLeft,
    ShiftRight,
    ArithmeticLeft,
    ArithmeticRight,
    Less,
    LessEqual,
    Greater,
    GreaterEqual,
    EqualEqual,
    NotEqual,
    CaseEqual,
    CaseNotEqual,
    And,
    AndAnd,
    Nand,
    Or,
    OrOr,
    Nor,
    Xor,
    Xnor,
    Not,
    Tilde,
}

/// A system name, without its `$`. `Other` is each one that no rule uses.
#[derive(Clone, Copy, Debug, PartialEq, Eq)]
pub enum System {
    Display,
    Write,
    Fwrite,
    Stop,
    Fatal,
    Signed,
    Unsigned,
    Clog2,
    Other,
}

/// What a token is. A name stands without its backslash, a string as the bytes that it stands for.
#[derive(Debug, Drop)]
pub enum TokenKind {
    Name(Text),
    System(System),
    Number(Literal),
    Str(Text),
    Key(Key),
    Mark(Mark),
}

/// A token with the line of its first byte, from 1.
#[derive(Debug, Drop)]
pub struct Token {
    pub line: u32,
    pub kind: TokenKind,
}
