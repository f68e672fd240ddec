//! Selects, gathered from left to right.

ghost use Rattle.std.specs.Prelude.{◌≡◌, IfOk};
ghost use Rattle.std.specs.Option.{option_map};
ghost use Rattle.vl_tree.specs.SyntaxView as view;
ghost use Rattle.vl_value.specs.Constant.{is_constant};
ghost use Rattle.vl_value.specs.Faults as faults;
ghost use Rattle.vl_width.specs.Objects.{Numbering};
ghost use Rattle.vl_sized.specs.Sensed as sensed;
ghost use Rattle.vl_found.specs.View.{found};
ghost use Rattle.vl_sized.specs.Told.{fault_in};
ghost use Rattle.vl_sized.specs.Nodes.{whole_of};
ghost use Rattle.vl_sized.specs.Plain.{sense_of, plain_pick, plain_picks, judged, IsIndexed};

use crate::constancy;
use crate::node::{Index, Node, SizedExpr};
use sqlite_items::{Boxed, Items};
use std::alloc::{AllocError, Global};
use vl_found::{Found, lesser};
use vl_tree::expression::Expr;
use vl_tree::fault::FaultKind;
use vl_width::constants::settled_constant;
use vl_width::names::Names;
use vl_width::number::Constant;
use vl_width::place::start;

/// A sized expression, or the least of its faults.
pub type Judged = Result<SizedExpr, Found>;

/// A select: without an index where that has a fault, without a number where what has to be constant is none.
#[derive(Drop)]
pub enum Pick {
    Bit(Option<Index<Node>>),
    Span(Option<Constant>, Option<Constant>),
    Upward(Option<Index<Node>>, Option<Constant>),
    Downward(Option<Index<Node>>, Option<Constant>),
}

/// An index, or none where it has this fault.
#[derive(Drop)]
pub struct Indexed {
    pub fault: Option<Found>,
    pub index: Option<Index<Node>>,
}

/// A select, and the least fault of its operands.
#[derive(Drop)]
pub struct Picked {
    pub fault: Option<Found>,
    pub pick: Pick,
}

/// Selects, from left to right, and the least fault of their operands.
#[derive(Drop)]
pub struct Picks {
    pub fault: Option<Found>,
    pub list: Items<Pick>,
}

impl Picks {
    /// No select.
    pub fn none(alloc: Global) -> Picks
        ensures { (ns : Numbering) → plain_picks ns result ≡ sensed.no_picks }
    {
        Picks {
            fault: None,
            list: Items::new(alloc),
        }
    }

    /// One select more.
    pub fn with(self, picked: Picked) -> Result<Picks, AllocError>
        ensures { IfOk result (λ p. (ns : Numbering) →
            plain_picks ns p ≡ sensed.one_more (plain_picks ns self) (option_map found picked.fault) (plain_pick ns picked.pick)) }
    {
        let Picks {
            fault: before,
            mut list,
        } = self;
        let Picked { fault, pick } = picked;
        list.push(pick)?;
        Ok(Picks {
            fault: lesser(before, fault),
            list,
        })
    }
}

/// The least fault of an expression that was sized, and has to be constant.
pub fn needed<N: Names>(names: &N, e: &Expr, sized: Judged) -> Option<Found>
    ensures { let x = view.expr e.now in (ns : Numbering) →
        option_map found result ≡ sensed.needed (is_constant (N.sight names.now) x) (faults.start x) (fault_in (judged (sense_of ns) sized)) }
{
    let inner = fault_of(sized);
    if constancy::is_constant(names, e) {
        return inner;
    }
    let own = Found {
        place: start(e),
        kind: FaultKind::NotConstant,
    };
    lesser(inner, Some(own))
}

// The fault that stands in the place of a sized expression.
fn fault_of(sized: Judged) -> Option<Found>
    ensures { (ns : Numbering) → option_map found result ≡ fault_in (judged (sense_of ns) sized) }
{
    match sized {
        Ok(_) => None,
        Err(fault) => Some(fault),
    }
}

/// An expression that was sized as an index: the number that it is in each moment, or what it is at its own size.
pub fn index_of<N: Names>(
    alloc: Global,
    names: &N,
    e: &Expr,
    sized: Judged,
) -> Result<Indexed, AllocError>
    ensures { let z = sensed.whole_settled (N.sight names.now) (view.expr e.now) in
        IfOk result (λ k. (ns : Numbering) → let r = judged (sense_of ns) sized in IsIndexed ns k (fault_in r) (sensed.basis_of z r)) }
{
    let settled = settled_whole(alloc, names, e)?;
    index_by(alloc, settled, sized)
}

fn index_by(alloc: Global, settled: Option<Constant>, sized: Judged) -> Result<Indexed, AllocError>
    ensures { let z = option_map whole_of settled in
        IfOk result (λ k. (ns : Numbering) → let r = judged (sense_of ns) sized in IsIndexed ns k (fault_in r) (sensed.basis_of z r)) }
{
    match (settled, sized) {
        (Some(number), sized) => Ok(Indexed {
            fault: fault_of(sized),
            index: Some(Index::Fixed(number)),
        }),
        (None, Ok(sized)) => Ok(Indexed {
            fault: None,
            index: Some(Index::Varying(Boxed::new(alloc, sized)?)),
        }),
        (None, Err(fault)) => Ok(Indexed {
            fault: Some(fault),
            index: None,
        }),
    }
}

/// The number that an expression is where it is constant and has no fault.
pub fn settled_whole<N: Names>(
    alloc: Global,
    names: &N,
    e: &Expr,
) -> Result<Option<Constant>, AllocError>
    ensures { let s = N.sight names.now in
        IfOk result (λ c. option_map whole_of c ≡ sensed.whole_settled s (view.expr e.now)) }
{
    settled_constant(alloc, names, e)
}
