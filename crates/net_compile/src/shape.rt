//! Bits of slots, and slots side by side.

ghost use Rattle.std.specs.Prelude.{◌≡◌, ◌+◌, ◌<◌, ◌≤◌, IfOk, OnOk};
ghost use Rattle.dt_core.specs.declared.limits.TheConstants.{MAX_WIDTH};
ghost use Rattle.step_program.specs.Fits.{IsWidth};
ghost use Rattle.net_compile.specs.Stands as stands;

use crate::quick::step_of;
use dt_core::fault::NoMemory;
use step_program::builder::Builder;
use step_program::step::{Calculation, Number, Operand, Rare, Slot, Step, Take};

// The bits of a wide operand from a place on.
fn cut_wide(builder: &mut Builder, of: Operand, from: u32, width: u32) -> Result<Slot, NoMemory>
    requires there { stands.HasKind builder.old of.slot of.width }
    requires of { IsWidth of.width }
    requires range { (1 ≤ width) × (from + width ≤ of.width) }
    ensures grows { OnOk result (stands.Grows builder.old builder.new) }
    ensures cut { IfOk result (λ slot. stands.IsCut builder.old builder.new of from width slot) }
{
    let place = builder.constant(8, u128::from(from))?;
    let number = Number {
        of: Operand {
            slot: place,
            width: 8,
        },
        signed: false,
    };
    builder.push(Step::Rare(Rare {
        width,
        calculation: Calculation::Select { of, place: number },
    }))
}

/// The bits of an operand from a place on: its own slot where they are all of it.
pub(crate) fn cut(
    builder: &mut Builder,
    of: Operand,
    from: u32,
    width: u32,
) -> Result<Slot, NoMemory>
    requires there { stands.HasKind builder.old of.slot of.width }
    requires of { IsWidth of.width }
    requires range { (1 ≤ width) × (from + width ≤ of.width) }
    ensures grows { OnOk result (stands.Grows builder.old builder.new) }
    ensures cut { IfOk result (λ slot. stands.IsCut builder.old builder.new of from width slot) }
{
    if from == 0 && width == of.width {
        return Ok(of.slot);
    }
    match of.slot {
        Slot::Narrow(number) => builder.push(Step::Take(Take::bits(number, from, width))),
        Slot::Wide(_) => cut_wide(builder, of, from, width),
    }
}

/// Two operands side by side.
pub(crate) fn joined(builder: &mut Builder, left: Operand, right: Operand) -> Result<Slot, NoMemory>
    requires left { stands.HasKind builder.old left.slot left.width × IsWidth left.width }
    requires right { stands.HasKind builder.old right.slot right.width × IsWidth right.width }
    requires width { left.width + right.width ≤ MAX_WIDTH }
    ensures grows { OnOk result (stands.Grows builder.old builder.new) }
    ensures joined { IfOk result (λ slot. stands.IsJoined builder.old builder.new left right slot) }
{
    let width = left.width + right.width;
    builder.push(step_of(width, Calculation::Concat { left, right }))
}
