//! Token lists from words: how far each begins a statement, or where it is at fault; depth; the `if` that an `else` belongs to.

use crate::words::push_words;
use std::alloc::Global;
use std::test::Fail;
use vl_read::cursor::Cursor;
use vl_read::fault::SynFault;
use vl_statement::read_statement;
use vl_tree::expression::Expr;
use vl_tree::statement::{Assignment, Branch, Stmt};
use vl_tree::token::Token;

// How far the tokens begin a statement, or why they begin with none.
fn end_of(alloc: Global, tokens: &[Token]) -> Result<u32, SynFault> {
    if tokens.len() >= 1_000_000 {
        return Err(SynFault::Memory);
    }
    match read_statement(alloc, Cursor::over(tokens), 0) {
        Ok((_statement, rest)) => Ok(tokens.len().saturating_sub(rest.left()) as u32),
        Err(fault) => Err(fault.told(tokens.len())),
    }
}

#[test]
fn tells_how_far_a_statement_goes(rt: HostRuntime) -> Result<(), Fail> {
    let alloc = rt.alloc();
    let rows = [
        (";", 1),
        ("begin end ;", 2),
        ("begin : b ; x = 1 ; end", 9),
        ("if ( a ) ; x", 5),
        ("if ( a ) ; else if ( b ) ; else ; else", 13),
        ("if ( a ) if ( b ) ; else ; else ;", 13),
        ("case ( a ) 1 , b : ; default ; endcase", 12),
        ("casez ( a ) default : ; endcase", 8),
        ("for ( i = 1 ; i ; i = i + 1 ) x <= i ;", 18),
        ("{ a , b [ 1 ] } = c ;", 11),
        ("a <= b <= c ;", 6),
        ("$display ;", 2),
        ("$display ( ) ;", 4),
        ("$write ( \"s\" , a , 1 ) ;", 9),
        ("$fwrite ( 1 , \"s\" , a ) ;", 9),
        ("$stop ; ;", 2),
        ("$stop ( ) ;", 4),
        ("$stop ( 1 ) ;", 5),
        ("$fatal ;", 2),
        ("$fatal ( ) ;", 4),
    ];
    for (source, end) in rows {
        let mut tokens = Vec::new(alloc);
        push_words(alloc, &mut tokens, 1, source)?;
        assert_eq!(rt; end_of(alloc, &tokens), Ok(end), "at {source}");
    }
    Ok(())
}

#[test]
fn tells_where_no_statement_goes_on(rt: HostRuntime) -> Result<(), Fail> {
    let alloc = rt.alloc();
    let rows = [
        ("", 0),
        ("else", 0),
        ("$clog2 ( 1 ) ;", 0),
        ("begin : ;", 2),
        ("begin endcase", 1),
        ("if a", 1),
        ("if ( a ) else", 4),
        ("if ( a ) ; else else", 6),
        ("case ( a ) endcase", 4),
        ("case ( a ) 1 ;", 5),
        ("case ( a ) default 1", 5),
        ("for ( 1", 2),
        ("for ( i = 1 ; i ; i <=", 9),
        ("a + b", 1),
        ("a ( b )", 1),
        ("a <= ;", 2),
        ("{ a , 1", 3),
        ("$display ( a", 2),
        ("$write 1", 1),
        ("$fwrite ( 1 )", 3),
        ("$stop ( ) (", 3),
        ("$fatal ( 1", 2),
    ];
    for (source, token) in rows {
        let mut tokens = Vec::new(alloc);
        push_words(alloc, &mut tokens, 1, source)?;
        assert_eq!(rt;
            end_of(alloc, &tokens),
            Err(SynFault::At { token }),
            "at {source}"
        );
    }
    Ok(())
}

#[test]
fn each_prefix_is_refused_at_its_end(rt: HostRuntime) -> Result<(), Fail> {
    let alloc = rt.alloc();
    let rows = [
        "begin : b if ( a ) x <= 1 ; else if ( b ) begin end else case ( c ) 1 , a : ; default $fatal ( ) ; endcase end",
        "for ( i = 1 ; i ; i = i + 1 ) { a , b } = f ( c ) ;",
        "$fwrite ( 1 , \"s\" , a , b ) ;",
    ];
    for source in rows {
        let mut tokens = Vec::new(alloc);
        push_words(alloc, &mut tokens, 1, source)?;
        for count in 0..tokens.len() {
            let (front, _) = tokens.split_at(count);
            let token = u32::try_from(count).unwrap_or(0);
            assert_eq!(rt;
                end_of(alloc, front),
                Err(SynFault::At { token }),
                "at {count}"
            );
        }
    }
    Ok(())
}

#[test]
fn reads_as_deep_as_200(rt: HostRuntime) -> Result<(), Fail> {
    let alloc = rt.alloc();
    let rows = [
        (200, "begin", "end", Ok(401)),
        (201, "begin", "end", Err(SynFault::Deep { token: 201 })),
        (200, "if ( 1 )", "", Ok(801)),
        (201, "if ( 1 )", "", Err(SynFault::Deep { token: 802 })),
        (100, "case ( 1 ) default", "endcase", Ok(601)),
        (
            101,
            "case ( 1 ) default",
            "endcase",
            Err(SynFault::Deep { token: 502 }),
        ),
        (200, "for ( i = 1 ; 1 ; i = 1 )", "", Ok(2401)),
        (
            201,
            "for ( i = 1 ; 1 ; i = 1 )",
            "",
            Err(SynFault::Deep { token: 2402 }),
        ),
        (5000, "if ( 1 ) ; else", "", Ok(30001)),
    ];
    for (count, before, after, answer) in rows {
        let mut tokens = Vec::new(alloc);
        push_words(alloc, &mut tokens, count, before)?;
        push_words(alloc, &mut tokens, 1, ";")?;
        push_words(alloc, &mut tokens, count, after)?;
        assert_eq!(rt; end_of(alloc, &tokens), answer, "at {before}");
    }
    Ok(())
}

#[test]
fn an_else_belongs_to_the_nearest_if(rt: HostRuntime) -> Result<(), Fail> {
    let alloc = rt.alloc();
    let mut tokens = Vec::new(alloc);
    push_words(
        alloc,
        &mut tokens,
        1,
        "if ( a ) if ( b ) x <= y <= 1 ; else ;",
    )?;
    if tokens.len() != 16 {
        return Err("not sixteen tokens".into());
    }
    let Ok((statement, _rest)) = read_statement(alloc, Cursor::over(&tokens), 0) else {
        return Err("refused".into());
    };
    let Stmt::Conditional(outer, None) = statement else {
        return Err("no `if` without `else`".into());
    };
    let [Branch { body, .. }] = outer.as_slice() else {
        return Err("not one branch".into());
    };
    let Stmt::Conditional(inner, Some(_)) = body else {
        return Err("no `if` with `else`".into());
    };
    let [Branch { body, .. }] = inner.as_slice() else {
        return Err("not one branch".into());
    };
    let Stmt::Assign(_, Assignment::Nonblocking, place, Expr::Chain(_, links)) = body else {
        return Err("no assignment of a comparison".into());
    };
    assert_eq!(rt; (place.token, links.len()), (9, 1));
    Ok(())
}
