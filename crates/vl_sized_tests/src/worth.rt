//! A text as a sized expression at a context, and what that is worth.

ghost use Rattle.std.specs.Prelude.{◌≤◌};

use crate::sample::Sample;
use std::alloc::Global;
use std::test::Fail;
use vl_expr::parse_expr;
use vl_lex::lex;
use vl_pre::preprocess;
use vl_sized::node::SizedExpr;
use vl_sized::size_expr;
use vl_sized::value::value;
use vl_tree::fault::StaticFault;

/// A text as a sized expression, or its fault.
pub fn sized(
    alloc: Global,
    names: &Sample<'_>,
    text: &[u8],
    context: u32,
) -> Result<Result<SizedExpr, StaticFault>, Fail>
    requires { context ≤ 128 }
{
    if text.len() > 1_000_000 {
        return Err("a long text".into());
    }
    let clean = preprocess(alloc, text)?;
    let tokens = lex(alloc, &clean)?;
    let (expr, _) = parse_expr(alloc, &tokens, 0)?;
    Ok(size_expr(alloc, names, &expr, context))
}

/// The value of a text's expression, of which as many bits are told as the context has; none where it has a fault.
pub fn worth(
    alloc: Global,
    names: &Sample<'_>,
    text: &[u8],
    context: u32,
) -> Result<Option<u128>, Fail> {
    if context < 1 || context > 128 {
        return Err("no width".into());
    }
    match sized(alloc, names, text, context)? {
        Ok(sized) => {
            let bits = value(alloc, names, &sized)?;
            Ok(Some(bits.value() & (u128::MAX >> (128 - context))))
        }
        Err(_) => Ok(None),
    }
}
