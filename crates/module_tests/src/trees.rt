//! Token lists from words, and what is read of them: the counter's tree, a table of bodies and one of whole designs, depth, a long chain.

use dt_core::text::Text;
use std::alloc::Global;
use std::test::Fail;
use vl_module::{SynFault, parse_module};
use vl_tree::expr::{Binary, Expr, Primary};
use vl_tree::token::{Key, Literal, Mark, System, Token, TokenKind};
use vl_tree::tree::{Branch, Port, Stmt};

static KEYS: [(&str, Key); 11] = [
    ("module", Key::Module),
    ("endmodule", Key::Endmodule),
    ("input", Key::Input),
    ("output", Key::Output),
    ("reg", Key::Reg),
    ("always", Key::Always),
    ("posedge", Key::Posedge),
    ("begin", Key::Begin),
    ("end", Key::End),
    ("if", Key::If),
    ("else", Key::Else),
];

static MARKS: [(&str, Mark); 13] = [
    ("(", Mark::OpenParen),
    (")", Mark::CloseParen),
    ("[", Mark::OpenBracket),
    ("]", Mark::CloseBracket),
    (",", Mark::Comma),
    (";", Mark::Semicolon),
    (":", Mark::Colon),
    ("@", Mark::At),
    ("+", Mark::Plus),
    ("<=", Mark::LessEqual),
    ("=", Mark::Equals),
    ("==", Mark::EqualEqual),
    ("!", Mark::Not),
];

static SYSTEMS: [(&str, System); 3] = [
    ("$display", System::Display),
    ("$stop", System::Stop),
    ("$finish", System::Other),
];

static NUMBERS: [(&str, u32); 4] = [("0", 0), ("1", 1), ("3", 3), ("9", 9)];

fn key_of(word: &str) -> Option<Key> {
    for (text, key) in KEYS.iter().copied() {
        if word == text {
            return Some(key);
        }
    }
    None
}

fn mark_of(word: &str) -> Option<Mark> {
    for (text, mark) in MARKS.iter().copied() {
        if word == text {
            return Some(mark);
        }
    }
    None
}

fn system_of(word: &str) -> Option<System> {
    for (text, system) in SYSTEMS.iter().copied() {
        if word == text {
            return Some(system);
        }
    }
    None
}

fn number_of(word: &str) -> Option<Literal> {
    for (text, value) in NUMBERS.iter().copied() {
        if word == text {
            return Some(Literal {
                width: 32,
                sized: false,
                signed: true,
                value: value as u128,
                wild: 0,
            });
        }
    }
    None
}

// The kind of a word: a name where it is nothing else, a string where it begins with a quote.
fn kind_of(alloc: Global, word: &str) -> Result<TokenKind, SynFault> {
    if let Some(key) = key_of(word) {
        return Ok(TokenKind::Key(key));
    }
    if let Some(mark) = mark_of(word) {
        return Ok(TokenKind::Mark(mark));
    }
    if let Some(system) = system_of(word) {
        return Ok(TokenKind::System(system));
    }
    if let Some(number) = number_of(word) {
        return Ok(TokenKind::Number(number));
    }
    let text = Text::copied(alloc, word.as_bytes())?;
    if word.starts_with("\"") {
        Ok(TokenKind::Str(text))
    } else {
        Ok(TokenKind::Name(text))
    }
}

// Appends a token for each word; its line is its number, from 1.
fn push_words(alloc: Global, tokens: &mut Vec<Token>, source: &str) -> Result<(), SynFault> {
    for word in source.split_whitespace() {
        let line = u32::try_from(tokens.len()).unwrap_or(0).saturating_add(1);
        let kind = kind_of(alloc, word)?;
        let Ok(()) = tokens.push(Token { line, kind }) else {
            return Err(SynFault::Memory);
        };
    }
    Ok(())
}

const FRONT: &str = "module m ( input a , output reg [ 3 : 0 ] r ) ; always @ ( posedge a ) begin";

const BACK: &str = "end endmodule";

// The words between the header and the end of the clocked block, each of the middle ones so many times.
fn module_tokens(
    alloc: Global,
    first: &str,
    (count, middle): (u32, &str),
    last: &str,
) -> Result<Vec<Token>, SynFault> {
    let mut tokens = Vec::new(alloc);
    push_words(alloc, &mut tokens, FRONT)?;
    push_words(alloc, &mut tokens, first)?;
    for _ in 0..count {
        push_words(alloc, &mut tokens, middle)?;
    }
    push_words(alloc, &mut tokens, last)?;
    push_words(alloc, &mut tokens, BACK)?;
    Ok(tokens)
}

const COUNTER: &str = "module cnt ( input clk , input rst , input en , output reg [ 3 : 0 ] r ) ;
always @ ( posedge clk ) begin
if ( rst ) r <= 0 ; else if ( en ) r <= r + 1 ;
if ( r == 9 ) begin $display ( \"hit , r ) ; $stop ; end
end endmodule";

// Whether the tokens are a module. Out of memory fails the test, since no clause tells it from a refusal.
fn is_module(alloc: Global, tokens: &[Token]) -> Result<bool, SynFault> {
    match parse_module(alloc, tokens) {
        Ok(_) => Ok(true),
        Err(SynFault::NoTree) => Ok(false),
        Err(SynFault::Memory) => Err(SynFault::Memory),
    }
}

#[test]
fn reads_the_counter(rt: HostRuntime) -> Result<(), Fail> {
    let alloc = rt.alloc();
    let mut tokens = Vec::new(alloc);
    push_words(alloc, &mut tokens, COUNTER)?;
    let module = parse_module(alloc, &tokens)?;
    assert_eq!(rt; module.name.bytes(), b"cnt".as_slice());
    assert_eq!(rt; module.clock.bytes(), b"clk".as_slice());
    assert_eq!(rt; module.ports.len(), 4);
    let Some(Port::Output(name, left, right)) = module.ports.get(3) else {
        return Err("no output".into());
    };
    assert_eq!(rt; name.bytes(), b"r".as_slice());
    assert_eq!(rt; (left.value, right.value), (3, 0));
    let [
        Stmt::Conditional(steps, None),
        Stmt::Conditional(hits, None),
    ] = module.body.as_slice()
    else {
        return Err("not two conditionals".into());
    };
    let [
        _,
        Branch {
            condition: Expr::Primary(Primary::Name(en)),
            body: Stmt::Assign(_, Expr::Binary(_, Binary::Add, _)),
        },
    ] = steps.as_slice()
    else {
        return Err("not two branches".into());
    };
    assert_eq!(rt; en.bytes(), b"en".as_slice());
    let [
        Branch {
            condition: Expr::Binary(_, Binary::Equal, _),
            body: Stmt::Block(block),
        },
    ] = hits.as_slice()
    else {
        return Err("not one block".into());
    };
    let [Stmt::Display(_, Some(shown)), Stmt::Stop(line)] = block.as_slice() else {
        return Err("not two calls".into());
    };
    assert_eq!(rt; shown.bytes(), b"r".as_slice());
    assert_eq!(rt; *line, 63);
    Ok(())
}

/// Bodies of a clocked block, and whether they are statements.
static BODIES: [(&str, bool); 27] = [
    ("", true),
    ("r <= a ; r <= 1 ;", true),
    ("r <= a", false),
    ("r = a ;", false),
    ("r <= a + b ;", true),
    ("r <= a + b + c ;", false),
    ("r <= a == b ;", true),
    ("r <= ! a ;", true),
    ("r <= ! a + b ;", false),
    ("r <= ( a ) ;", false),
    (";", false),
    ("begin end", true),
    ("begin r <= a ;", false),
    ("end", false),
    ("if ( a ) r <= 1 ;", true),
    (
        "if ( a ) if ( b ) r <= 1 ; else r <= 0 ; else r <= 3 ;",
        true,
    ),
    ("if a r <= 1 ;", false),
    ("if ( a ) else r <= 1 ;", false),
    ("if ( a ) r <= 1 ; else r <= 0 ; else r <= 3 ;", false),
    ("else r <= 1 ;", false),
    ("$display ( \"x ) ;", true),
    ("$display ( \"x , r ) ;", true),
    ("$display ( r ) ;", false),
    ("$display ( \"x , 1 ) ;", false),
    ("$stop ;", true),
    ("$stop", false),
    ("$finish ;", false),
];

#[test]
fn tells_which_bodies_are_statements(rt: HostRuntime) -> Result<(), Fail> {
    let alloc = rt.alloc();
    for (body, accepted) in BODIES.iter().copied() {
        let tokens = module_tokens(alloc, body, (0, ""), "")?;
        assert_eq!(rt; is_module(alloc, &tokens)?, accepted, "at {body}");
    }
    Ok(())
}

/// Texts, and whether they are modules.
static DESIGNS: [(&str, bool); 12] = [
    (
        "module m ( input a ) ; always @ ( posedge a ) begin end endmodule",
        true,
    ),
    (
        "module m ( input a ) ; always @ ( posedge a ) begin end endmodule endmodule",
        false,
    ),
    (
        "module m ( input a ) ; always @ ( posedge a ) begin end",
        false,
    ),
    (
        "module m ( input a ) ; always @ ( a ) begin end endmodule",
        false,
    ),
    (
        "module m ( input a ) ; always @ ( posedge a ) r <= 1 ; endmodule",
        false,
    ),
    ("module m ( input a ) ; endmodule", false),
    (
        "module m ( ) ; always @ ( posedge a ) begin end endmodule",
        false,
    ),
    (
        "module m ( input a , ) ; always @ ( posedge a ) begin end endmodule",
        false,
    ),
    (
        "module m ( input a output r ) ; always @ ( posedge a ) begin end endmodule",
        false,
    ),
    (
        "module m ( input a ) always @ ( posedge a ) begin end endmodule",
        false,
    ),
    (
        "module ( input a ) ; always @ ( posedge a ) begin end endmodule",
        false,
    ),
    ("", false),
];

#[test]
fn tells_which_designs_are_modules(rt: HostRuntime) -> Result<(), Fail> {
    let alloc = rt.alloc();
    for (design, accepted) in DESIGNS.iter().copied() {
        let mut tokens = Vec::new(alloc);
        push_words(alloc, &mut tokens, design)?;
        assert_eq!(rt; is_module(alloc, &tokens)?, accepted, "at {design}");
    }
    Ok(())
}

// A `begin` of the body stands at depth 2, and each inner one a level deeper.
#[test]
fn reads_as_deep_as_200(rt: HostRuntime) -> Result<(), Fail> {
    let alloc = rt.alloc();
    for (blocks, accepted) in [(199, true), (200, false)] {
        let mut tokens = Vec::new(alloc);
        push_words(alloc, &mut tokens, FRONT)?;
        for _ in 0..blocks {
            push_words(alloc, &mut tokens, "begin")?;
        }
        for _ in 0..blocks {
            push_words(alloc, &mut tokens, "end")?;
        }
        push_words(alloc, &mut tokens, BACK)?;
        assert_eq!(rt; is_module(alloc, &tokens)?, accepted, "at {blocks}");
    }
    Ok(())
}

#[test]
fn reads_a_long_chain(rt: HostRuntime) -> Result<(), Fail> {
    let alloc = rt.alloc();
    let tokens = module_tokens(
        alloc,
        "if ( a ) r <= 0 ;",
        (1000, "else if ( a ) r <= 1 ;"),
        "else r <= 3 ;",
    )?;
    let module = parse_module(alloc, &tokens)?;
    let [Stmt::Conditional(branches, Some(_))] = module.body.as_slice() else {
        return Err("not one conditional".into());
    };
    assert_eq!(rt; branches.len(), 1001);
    Ok(())
}
