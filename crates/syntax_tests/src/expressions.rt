//! Token lists from words: how far each begins an expression, or where it is at fault; depth; the tree of a chain.

use crate::words::push_words;
use bit_ops::Binary;
use std::alloc::Global;
use std::test::Fail;
use vl_expr::{SynFault, parse_expr};
use vl_tree::expression::Expr;
use vl_tree::token::Token;

// How far the tokens from this number on begin an expression, or why they begin with none.
fn end_of(alloc: Global, tokens: &[Token], at: u32) -> Result<u32, SynFault> {
    if at as usize > tokens.len() || tokens.len() >= 1_000_000 {
        return Err(SynFault::Memory);
    }
    let (_, end) = parse_expr(alloc, tokens, at)?;
    Ok(end)
}

#[test]
fn tells_how_far_an_expression_goes(rt: HostRuntime) -> Result<(), Fail> {
    let alloc = rt.alloc();
    let rows = [
        ("1", 0, Ok(1)),
        ("a + b * c ; d", 0, Ok(5)),
        ("x = a ;", 2, Ok(3)),
        ("a [ 1 ] [ b : 1 ] [ b +: 1 ] [ c -: 1 ]", 0, Ok(19)),
        ("f ( a , b ) + 1", 0, Ok(8)),
        ("{ a , b , { 1 { c } } }", 0, Ok(12)),
        ("a ? b : c ? 1 : b ]", 0, Ok(9)),
        ("~| - a <<< b === c || $clog2 ( 1 )", 0, Ok(12)),
        ("( a <= b ) <= c", 0, Ok(7)),
        ("1 ( a )", 0, Ok(1)),
        ("", 0, Err(SynFault::At { token: 0 })),
        (")", 0, Err(SynFault::At { token: 0 })),
        ("$stop", 0, Err(SynFault::At { token: 0 })),
        ("a + * b", 0, Err(SynFault::At { token: 2 })),
        ("f ( )", 0, Err(SynFault::At { token: 2 })),
        ("( a", 0, Err(SynFault::At { token: 2 })),
        ("a [ b ; c ]", 0, Err(SynFault::At { token: 3 })),
        ("a ? b ; c", 0, Err(SynFault::At { token: 3 })),
        ("{ 1 { a } , b }", 0, Err(SynFault::At { token: 5 })),
        ("{ a , b { c } }", 0, Err(SynFault::At { token: 4 })),
        ("$clog2 a", 0, Err(SynFault::At { token: 1 })),
    ];
    for (source, at, answer) in rows {
        let mut tokens = Vec::new(alloc);
        push_words(alloc, &mut tokens, 1, source)?;
        assert_eq!(rt; end_of(alloc, &tokens, at), answer, "at {source}");
    }
    Ok(())
}

#[test]
fn each_prefix_is_refused_at_its_end(rt: HostRuntime) -> Result<(), Fail> {
    let alloc = rt.alloc();
    let mut tokens = Vec::new(alloc);
    push_words(
        alloc,
        &mut tokens,
        1,
        "( f ( a [ b : 1 ] , { 1 { c } } ) ? b : - c )",
    )?;
    for count in 0..tokens.len() {
        let (front, _) = tokens.split_at(count);
        let token = u32::try_from(count).unwrap_or(0);
        assert_eq!(rt;
            end_of(alloc, front, 0),
            Err(SynFault::At { token }),
            "at {count}"
        );
    }
    Ok(())
}

#[test]
fn reads_as_deep_as_200(rt: HostRuntime) -> Result<(), Fail> {
    let alloc = rt.alloc();
    let rows = [
        (200, "(", ")", Ok(401)),
        (201, "(", ")", Err(SynFault::Deep { token: 201 })),
        (200, "-", "", Ok(201)),
        (201, "-", "", Err(SynFault::Deep { token: 201 })),
        (200, "a ?", ": 1", Ok(801)),
        (201, "a ?", ": 1", Err(SynFault::Deep { token: 402 })),
        (5000, "1 ? 1 :", "", Ok(20001)),
        (5000, "1 +", "", Ok(10001)),
    ];
    for (count, before, after, answer) in rows {
        let mut tokens = Vec::new(alloc);
        push_words(alloc, &mut tokens, count, before)?;
        push_words(alloc, &mut tokens, 1, "1")?;
        push_words(alloc, &mut tokens, count, after)?;
        assert_eq!(rt; end_of(alloc, &tokens, 0), answer, "at {before}");
    }
    Ok(())
}

#[test]
fn takes_a_chain_as_a_list(rt: HostRuntime) -> Result<(), Fail> {
    let alloc = rt.alloc();
    let mut tokens = Vec::new(alloc);
    push_words(alloc, &mut tokens, 1, "a - b * c - 1")?;
    if tokens.len() != 7 {
        return Err("not seven tokens".into());
    }
    let (expr, _) = parse_expr(alloc, &tokens, 0)?;
    let Expr::Chain(_, links) = expr else {
        return Err("no chain".into());
    };
    let [product, last] = links.as_slice() else {
        return Err("not two operators".into());
    };
    assert_eq!(rt; (product.operator, product.place.token), (Binary::Sub, 1));
    assert_eq!(rt; (last.operator, last.place.token), (Binary::Sub, 5));
    Ok(())
}
