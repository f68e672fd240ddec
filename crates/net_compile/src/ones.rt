//! Reductions by `&` as comparisons with ones.

ghost use Rattle.std.specs.Prelude.{◌≡◌, ◌-◌, ◌^◌, ◌≤◌, IfOk, OnOk, IfSome};
ghost use Rattle.netlist.specs.Design as design;
ghost use Rattle.netlist.specs.declared.node.Operation.{Operation};
ghost use Rattle.step_program.specs.Draft as draft;
ghost use Rattle.step_program.specs.Fits.{IsWidth, CalculationFits};
ghost use Rattle.net_compile.specs.Cycle.{Front};
ghost use Rattle.net_compile.specs.Lowered as lowered;
ghost use Rattle.net_compile.specs.Stands as stands;

use bit_ops::{Binary, Unary};
use dt_core::fault::NoMemory;
use dt_core::limits::MAX_WIDTH;
use step_program::builder::Builder;
use step_program::step::{Calculation, Operand};

// 2^width - 1
fn ones(width: u32) -> u128
    requires { IsWidth width }
    ensures { result ≡ 2 ^ width - 1 }
{
    u128::MAX >> (MAX_WIDTH - width)
}

// The comparison with ones that a reduction is, if it is one.
fn comparison_of(operator: Unary) -> Option<Binary>
    ensures { IfSome result (lowered.ComparesOnes operator) }
{
    match operator {
        Unary::And => Some(Binary::Eq),
        Unary::Nand => Some(Binary::Ne),
        _ => None,
    }
}

// A calculation on an operand and as many ones as it has bits.
fn beside_ones(
    builder: &mut Builder,
    operator: Binary,
    of: Operand,
) -> Result<Calculation, NoMemory>
    requires { IsWidth of.width }
    ensures grows { OnOk result (stands.Grows builder.old builder.new) }
    ensures ones { IfOk result (λ r. lowered.IsBesideOnes builder.old builder.new operator of r) }
{
    let slot = builder.constant(of.width, ones(of.width))?;
    Ok(Calculation::Binary {
        operator,
        signed: false,
        left: of,
        right: Operand {
            slot,
            width: of.width,
        },
    })
}

/// A calculation with the value of this one: of a reduction by `&` a comparison with ones, for which there is a fast step.
pub(crate) fn with_ones(
    builder: &mut Builder,
    width: u32,
    calculation: Calculation,
) -> Result<Calculation, NoMemory>
    requires { CalculationFits (draft.narrow_count builder.old) (draft.wide_count builder.old) width calculation }
    ensures grows { OnOk result (stands.Grows builder.old builder.new) }
    ensures same { IfOk result (λ r. (f : design.Flat) (front : Front) (x : Operation) → stands.Begins front builder.old
        → lowered.Mirrors f front builder.old width x calculation → lowered.Mirrors f front builder.new width x r) }
{
    match calculation {
        Calculation::Unary { operator, of } => match comparison_of(operator) {
            Some(comparison) => beside_ones(builder, comparison, of),
            None => Ok(calculation),
        },
        _ => Ok(calculation),
    }
}
