//! Tokens from words.

use dt_core::text::Text;
use std::alloc::Global;
use vl_read::fault::SynFault;
use vl_tree::token::{Key, Literal, Mark, System, Token, TokenKind};

const MARKS: [(&str, Mark); 22] = [
    ("(", Mark::OpenParen),
    (")", Mark::CloseParen),
    ("[", Mark::OpenBracket),
    ("]", Mark::CloseBracket),
    ("{", Mark::OpenBrace),
    ("}", Mark::CloseBrace),
    (",", Mark::Comma),
    (";", Mark::Semicolon),
    (":", Mark::Colon),
    ("+:", Mark::PlusColon),
    ("-:", Mark::MinusColon),
    ("?", Mark::Question),
    ("=", Mark::Equals),
    ("*", Mark::Star),
    ("+", Mark::Plus),
    ("-", Mark::Minus),
    ("<<<", Mark::ArithmeticLeft),
    ("<=", Mark::LessEqual),
    ("===", Mark::CaseEqual),
    ("&", Mark::And),
    ("||", Mark::OrOr),
    ("~|", Mark::Nor),
];

fn mark_of(word: &str) -> Option<Mark> {
    for (text, mark) in MARKS {
        if word == text {
            return Some(mark);
        }
    }
    None
}

const KEYS: [(&str, Key); 10] = [
    ("begin", Key::Begin),
    ("end", Key::End),
    ("if", Key::If),
    ("else", Key::Else),
    ("case", Key::Case),
    ("casez", Key::Casez),
    ("default", Key::Default),
    ("endcase", Key::Endcase),
    ("for", Key::For),
    ("wire", Key::Wire),
];

fn key_of(word: &str) -> Option<Key> {
    for (text, key) in KEYS {
        if word == text {
            return Some(key);
        }
    }
    None
}

const SYSTEMS: [(&str, System); 6] = [
    ("$clog2", System::Clog2),
    ("$stop", System::Stop),
    ("$fatal", System::Fatal),
    ("$display", System::Display),
    ("$write", System::Write),
    ("$fwrite", System::Fwrite),
];

fn system_of(word: &str) -> Option<System> {
    for (text, system) in SYSTEMS {
        if word == text {
            return Some(system);
        }
    }
    None
}

// The kind of a word: a number where it is `1`, a string where it is `"s"`, a name where it is nothing else.
fn kind_of(alloc: Global, word: &str) -> Result<TokenKind, SynFault> {
    if let Some(mark) = mark_of(word) {
        return Ok(TokenKind::Mark(mark));
    }
    if let Some(key) = key_of(word) {
        return Ok(TokenKind::Key(key));
    }
    if let Some(system) = system_of(word) {
        return Ok(TokenKind::System(system));
    }
    if word == "1" {
        return Ok(TokenKind::Number(Literal {
            width: 32,
            sized: false,
            signed: true,
            value: 1,
            wild: 0,
        }));
    }
    let Ok(text) = Text::copied(alloc, word.as_bytes()) else {
        return Err(SynFault::Memory);
    };
    if word == "\"s\"" {
        Ok(TokenKind::Str(text))
    } else {
        Ok(TokenKind::Name(text))
    }
}

/// Appends a token for each word, so many times over.
pub fn push_words(
    alloc: Global,
    tokens: &mut Vec<Token>,
    count: u32,
    source: &str,
) -> Result<(), SynFault> {
    for _ in 0..count {
        for word in source.split_whitespace() {
            let kind = kind_of(alloc, word)?;
            let Ok(()) = tokens.push(Token { line: 1, kind }) else {
                return Err(SynFault::Memory);
            };
        }
    }
    Ok(())
}
