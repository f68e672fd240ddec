//! One scope.

ghost use Rattle.std.specs.Prelude.{◌≡◌};
ghost use Rattle.vl_tree.specs.SyntaxView as view;
ghost use Rattle.vl_design.specs.Scopes.{body_items};
ghost use Rattle.vl_views.specs.Blocks.{items_of, block_of};
ghost use Rattle.vl_scopes.specs.Plain.{made_of};

use vl_declares::declared::Declared;
use vl_tree::expression::Name;
use vl_tree::item::{GenerateBlock, Instance, Item, Module};

/// The turn of a generate loop that a block is of: its genvar, and that one's number, of 32 bits.
#[derive(Clone, Copy)]
pub struct Turn<'a> {
    pub variable: &'a Name,
    pub number: u32,
}

/// The last step of a scope's path (IEEE 1364-2005, 12.4.3 and 12.5).
#[derive(Clone, Copy)]
pub enum Step<'a> {
    /// An instance, or a labelled block that is no loop's.
    Named(&'a Name),
    /// A labelled block of a loop, in the turn of this number.
    Turn(&'a Name, u32),
    /// The block of the generate construct of this number, which has no label; in a turn, where that is a loop.
    Unnamed(u32, Option<u32>),
}

/// What makes a scope.
#[derive(Clone, Copy)]
pub enum Origin<'a> {
    /// The top: a module that nobody instantiates.
    Top(&'a Module),
    /// An instance of a module.
    Instance(&'a Module, &'a Instance),
    /// A block of a generate construct.
    Block(&'a GenerateBlock<Item>),
}

impl<'a> Origin<'a> {
    /// The items of a module; of a block, its one item where it has no `begin`.
    pub fn items(self) -> &'a [Item]
        ensures { items_of result.now ≡ made_of self.entry }
    {
        match self {
            Origin::Top(module) => module_items(module),
            Origin::Instance(module, _) => module_items(module),
            Origin::Block(block) => block_items(block),
        }
    }
}

// The items of a module.
fn module_items(module: &Module) -> &[Item]
    ensures { items_of result.now ≡ (view.module_tree module.now).items }
{
    module.items.as_slice()
}

// The items of a block.
fn block_items(block: &GenerateBlock<Item>) -> &[Item]
    ensures { items_of result.now ≡ body_items (block_of block.now) }
{
    match block {
        GenerateBlock::Single(item) => std::slice::from_ref(item.get()),
        GenerateBlock::Several(_, _, items) => items.as_slice(),
    }
}

/// A scope: what makes it, the last step of its path (the top has none), the number of the scope in which it stands, the turn of a loop
/// that it is of, and what it declares in order of text.
#[derive(Drop)]
pub struct Scope<'a> {
    pub origin: Origin<'a>,
    pub step: Option<Step<'a>>,
    pub within: Option<u32>,
    pub turn: Option<Turn<'a>>,
    pub declared: Vec<Declared<'a>>,
}
