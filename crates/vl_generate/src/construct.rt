//! Numbers of generate constructs, by which blocks without a label are named (IEEE 1364-2005, 12.4.3).

ghost use Rattle.std.specs.Prelude.{◌≡◌, ◌+◌, IfSome};
ghost use Rattle.vl_tree.specs.SyntaxView as view;
ghost use Rattle.vl_design.specs.Generate as generate;
ghost use Rattle.vl_views.specs.Blocks.{items_of};

use vl_tree::item::Item;

/// The number of the next construct behind an item, where it is n before it; none where 32 bits don't hold it.
#[cycle(number)]
pub fn number_behind(n: u32, item: &Item) -> Option<u32>
    ensures { IfSome result (λ m. m ≡ n + generate.constructs_of (view.item item.now)) }
{
    match item {
        Item::Region(_, items) => number_behind_all(n, items.as_slice()),
        Item::GenerateLoop(_, _, _) => n.checked_add(1),
        Item::GenerateIf(_, _) => n.checked_add(1),
        _ => Some(n),
    }
}

#[cycle(number)]
fn number_behind_all(n: u32, items: &[Item]) -> Option<u32>
    ensures { IfSome result (λ m. m ≡ n + generate.constructs (items_of items.now)) }
{
    let mut number = n;
    for item in items {
        number = number_behind(number, item)?;
    }
    Some(number)
}
