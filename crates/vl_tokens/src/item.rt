//! Tokens of items without those of the bodies of generate loops, which count with their turns.

ghost use Rattle.std.specs.Prelude.{◌≡◌};
ghost use Rattle.vl_tree.specs.SyntaxView as view;
ghost use Rattle.vl_views.specs.Blocks.{items_of, block_of};
ghost use Rattle.vl_design.specs.Generate as generate;
ghost use Rattle.vl_tokens.specs.Counted.{capped};
ghost use Rattle.vl_tokens.specs.Items.{item_tokens, given_tokens};

use crate::count::{one_where, plus};
use crate::declaration::{
    binds, directed, driven_in_commas, event, instances_in_commas, names_in_commas, nets_in_commas,
    shape, values_in_commas, variables_in_commas,
};
use crate::expression::expr;
use crate::function::function;
use crate::statement::{header, label, stmt};
use vl_tree::item::{Binds, GenerateBlock, Item};

/// Tokens that an instance adds, whose module has these items.
#[cycle(item)]
pub fn items_tokens(all: &[Item]) -> u32
    ensures { result ≡ capped (generate.items_tokens (items_of all.now)) }
{
    let mut count = 0;
    for i in all {
        let one = item(i);
        count = plus(count, one);
    }
    count
}

// Of an item: of a loop its header alone.
#[cycle(item)]
fn item(i: &Item) -> u32
    ensures { result ≡ capped (item_tokens (view.item i.now)) }
{
    match i {
        Item::Parameter(_, _, signed, declared, all) => {
            let rest = plus(2, values_in_commas(all.as_slice()));
            plus(shape(*signed, declared), rest)
        }
        Item::Directed(declared, all) => {
            let rest = plus(1, names_in_commas(all.as_slice()));
            plus(directed(declared), rest)
        }
        Item::Nets(_, signed, declared, all) => {
            let rest = plus(2, nets_in_commas(all.as_slice()));
            plus(shape(*signed, declared), rest)
        }
        Item::Registers(_, signed, declared, all) => {
            let rest = plus(2, variables_in_commas(all.as_slice()));
            plus(shape(*signed, declared), rest)
        }
        Item::Integer(_, all) => plus(2, variables_in_commas(all.as_slice())),
        Item::Genvar(_, all) => plus(2, names_in_commas(all.as_slice())),
        Item::Continuous(_, all) => plus(2, driven_in_commas(all.as_slice())),
        Item::Always(_, awaited, body) => {
            let rest = plus(1, stmt(body));
            plus(event(awaited), rest)
        }
        Item::Initial(_, body) => plus(1, stmt(body)),
        Item::Function(f) => function(f),
        Item::Instances(_, values, all) => {
            let rest = plus(2, instances_in_commas(all.as_slice()));
            plus(given(values), rest)
        }
        Item::Region(_, all) => plus(2, items_tokens(all.as_slice())),
        Item::GenerateLoop(_, parts, _) => plus(1, header(parts)),
        Item::GenerateIf(listed, last) => {
            let all = listed.as_slice();
            let mut later = false;
            let mut first = 0;
            for branch in all {
                let inner = match &branch.block {
                    GenerateBlock::Single(single) => item(single.get()),
                    GenerateBlock::Several(_, name, held) => {
                        let rest = plus(2, items_tokens(held.as_slice()));
                        plus(label(name), rest)
                    }
                };
                let test = plus(expr(&branch.condition), plus(3, inner));
                let one = plus(one_where(later), test);
                first = plus(first, one);
                later = true;
            }
            match last {
                Some(body) => match body {
                    GenerateBlock::Single(inner) => plus(first, plus(1, item(inner.get()))),
                    GenerateBlock::Several(_, name, inner) => {
                        let whole = plus(3, items_tokens(inner.as_slice()));
                        plus(first, plus(label(name), whole))
                    }
                },
                None => first,
            }
        }
    }
}

// `#( .. )`, where there is one.
fn given(values: &Option<Option<Binds>>) -> u32
    ensures { result ≡ capped (given_tokens values.now) }
{
    match values {
        Some(all) => plus(3, binds(all)),
        None => 0,
    }
}

/// Tokens that a turn of a block adds.
pub fn turn_tokens(block: &GenerateBlock<Item>) -> u32
    ensures { result ≡ capped (generate.turn_tokens (block_of block.now)) }
{
    match block {
        GenerateBlock::Single(inner) => item(inner.get()),
        GenerateBlock::Several(_, name, inner) => {
            let whole = plus(2, items_tokens(inner.as_slice()));
            plus(label(name), whole)
        }
    }
}
