//! Bits of a signal as slots.

ghost use Rattle.std.specs.Prelude.{◌≡◌, ◌+◌, ◌<◌, ◌≤◌, slice_get, Some, IfOk, OnOk, IfSome};
ghost use Rattle.netlist.specs.Fits.{IsWidth, LiesWithin};
ghost use Rattle.net_compile.specs.Pieces as pieces;
ghost use Rattle.net_compile.specs.Stands as stands;

use crate::layout::Layout;
use crate::operand::slot_of;
use crate::pieces::{Source, piece_at};
use crate::shape::{cut, joined};
use dt_core::fault::NoMemory;
use netlist::design::Range;
use netlist::flat::Flat;
use step_program::builder::Builder;
use step_program::step::{Operand, Slot};

// The given slot of this number.
fn given_slot(layout: &Layout, number: usize) -> Option<Slot>
    ensures { result ≡ slice_get layout.now.given.slots.items number }
{
    layout.given.slots.get(number).copied()
}

// The slot of a source; none where it is a node that has none yet.
fn source_slot(
    flat: &Flat,
    layout: &Layout,
    slots: &[Option<Slot>],
    builder: &mut Builder,
    source: Source,
    of: u32,
) -> Result<Option<Slot>, NoMemory>
    requires layout { pieces.IsLaidOut flat.now layout.now }
    requires begins { stands.Begins (pieces.front_of layout.now.given) builder.old }
    requires nodes { stands.NodesStand flat.now (pieces.front_of layout.now.given) builder.old slots.now }
    requires fits { IsWidth of × pieces.SourceFits flat.now of source }
    ensures grows { OnOk result (stands.Grows builder.old builder.new) }
    ensures slot { IfOk result (λ o. IfSome o (λ slot. stands.Stands flat.now (pieces.front_of layout.now.given)
        builder.new slot of (pieces.source_number flat.now (pieces.front_of layout.now.given) source))) }
{
    match source {
        Source::Node(node) => Ok(slot_of(slots, node)),
        Source::Register(number) => Ok(given_slot(layout, number as usize)),
        Source::Input(number) => Ok(given_slot(layout, flat.registers().len() + number as usize)),
        Source::Kept(value) => Ok(Some(builder.constant(of, value)?)),
    }
}

// The bits of a signal from a place on, up to the end or less; none where a node has no slot yet.
fn piece_slot(
    flat: &Flat,
    layout: &Layout,
    slots: &[Option<Slot>],
    builder: &mut Builder,
    signal: u32,
    place: u32,
    end: u32,
) -> Result<Option<Operand>, NoMemory>
    requires layout { pieces.IsLaidOut flat.now layout.now }
    requires begins { stands.Begins (pieces.front_of layout.now.given) builder.old }
    requires nodes { stands.NodesStand flat.now (pieces.front_of layout.now.given) builder.old slots.now }
    requires there { pieces.Reaches flat.now signal end }
    requires place { place < end }
    ensures grows { OnOk result (stands.Grows builder.old builder.new) }
    ensures within { IfOk result (λ o. IfSome o (λ p. place + p.width ≤ end)) }
    ensures slot { IfOk result (λ o. IfSome o (λ p. stands.OperandStands flat.now (pieces.front_of layout.now.given)
        builder.new p (stands.signal_number flat.now (pieces.front_of layout.now.given) signal place p.width))) }
{
    let piece = piece_at(flat, layout, signal, place, end);
    match source_slot(flat, layout, slots, builder, piece.source, piece.of)? {
        Some(slot) => {
            let of = Operand {
                slot,
                width: piece.of,
            };
            let slot = cut(builder, of, piece.from, piece.width)?;
            Ok(Some(Operand {
                slot,
                width: piece.width,
            }))
        }
        None => Ok(None),
    }
}

/// The slot of bits of a signal; none where a node that drives some of them has none yet.
pub(crate) fn bits(
    flat: &Flat,
    layout: &Layout,
    slots: &[Option<Slot>],
    builder: &mut Builder,
    range: Range,
) -> Result<Option<Slot>, NoMemory>
    requires layout { pieces.IsLaidOut flat.now layout.now }
    requires begins { stands.Begins (pieces.front_of layout.now.given) builder.old }
    requires nodes { stands.NodesStand flat.now (pieces.front_of layout.now.given) builder.old slots.now }
    requires range { LiesWithin flat.now.signals range × IsWidth range.width }
    ensures grows { OnOk result (stands.Grows builder.old builder.new) }
    ensures slot { IfOk result (λ o. IfSome o (λ slot. stands.Stands flat.now (pieces.front_of layout.now.given)
        builder.new slot range.width
        (stands.signal_number flat.now (pieces.front_of layout.now.given) range.signal range.low range.width))) }
{
    let end = range.low + range.width;
    let mut all = match piece_slot(flat, layout, slots, builder, range.signal, range.low, end)? {
        Some(first) => first,
        None => return Ok(None),
    };
    while all.width < range.width {
        let place = range.low + all.width;
        match piece_slot(flat, layout, slots, builder, range.signal, place, end)? {
            Some(next) => {
                let slot = joined(builder, next, all)?;
                all = Operand {
                    slot,
                    width: next.width + all.width,
                };
            }
            None => return Ok(None),
        }
    }
    Ok(Some(all.slot))
}
