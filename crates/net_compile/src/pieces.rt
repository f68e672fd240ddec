//! The pieces of a signal.

ghost use Rattle.std.specs.Prelude.{◌≡◌, ◌+◌, ◌<◌, ◌≤◌, length, slice_get, slice_index_or, IsSomeAnd, Some};
ghost use Rattle.netlist.specs.Fits.{IsInner};
ghost use Rattle.netlist.specs.Laws.{HasBit};
ghost use Rattle.net_compile.specs.Pieces as pieces;

use crate::layout::Layout;
use crate::ranges::{Near, nearest};
use netlist::design::{Role, Signal};
use netlist::flat::Flat;
use netlist::laws::bits_law;

/// A number in a cycle: the value of a node, of a register part, of a data input, or one that stays.
#[derive(Clone, Copy, Debug, PartialEq, Eq)]
pub(crate) enum Source {
    Node(u32),
    Register(u32),
    Input(u32),
    Kept(u128),
}

/// So many bits as the width says of a source that has `of` bits, from a place on.
#[derive(Clone, Copy, Debug, PartialEq, Eq)]
pub(crate) struct Piece {
    pub(crate) source: Source,
    pub(crate) of: u32,
    pub(crate) from: u32,
    pub(crate) width: u32,
}

// The piece of a signal that lies in a driven part.
fn driven_piece(flat: &Flat, number: usize, signal: u32, place: u32, end: u32) -> Piece
    requires there { number < length flat.now.driven }
    requires holds { pieces.DrivenHas flat.now number signal place }
    requires place { place < end }
    ensures { pieces.IsPiece flat.now signal place end result }
{
    bits_law();
    let part = flat.driven()[number];
    let range = part.range;
    Piece {
        source: Source::Node(part.node),
        of: range.width,
        from: place - range.low,
        width: end.min(range.low + range.width) - place,
    }
}

// The piece of a signal that lies in a register part.
fn register_piece(flat: &Flat, number: usize, signal: u32, place: u32, end: u32) -> Piece
    requires there { number < length flat.now.registers }
    requires holds { pieces.RegisterHas flat.now number signal place }
    requires place { place < end }
    ensures { pieces.IsPiece flat.now signal place end result }
{
    bits_law();
    let range = flat.registers()[number].range;
    Piece {
        source: Source::Register(number as u32),
        of: range.width,
        from: place - range.low,
        width: end.min(range.low + range.width) - place,
    }
}

// What gives a signal its bits that lie in no part.
fn source_for(kept: u128, role: Role) -> Source
    ensures { result ≡ pieces.source_for kept role }
{
    match role {
        Role::Clock => Source::Kept(0),
        Role::Input(number) => Source::Input(number),
        Role::Inner => Source::Kept(kept),
    }
}

// The piece of a signal that lies in no part, up to the end.
fn kept_piece(flat: &Flat, signal: u32, place: u32, end: u32) -> Piece
    requires there { pieces.Reaches flat.now signal end }
    requires place { place < end }
    requires none { pieces.AreInNone flat.now signal place end }
    ensures { pieces.IsPiece flat.now signal place end result }
{
    bits_law();
    let declared = &flat.signals()[signal as usize];
    Piece {
        source: source_for(declared.kept, declared.role),
        of: declared.width,
        from: place,
        width: end - place,
    }
}

/// The piece of a signal from a place on, up to the end or less.
pub(crate) fn piece_at(flat: &Flat, layout: &Layout, signal: u32, place: u32, end: u32) -> Piece
    requires layout { pieces.IsLaidOut flat.now layout.now }
    requires there { pieces.Reaches flat.now signal end }
    requires place { place < end }
    ensures { pieces.IsPiece flat.now signal place end result }
{
    match nearest(&layout.driven, signal, place) {
        Near::Holder(number) => driven_piece(flat, number, signal, place, end),
        Near::Free(until) => match nearest(&layout.registers, signal, place) {
            Near::Holder(number) => register_piece(flat, number, signal, place, end),
            Near::Free(other) => kept_piece(flat, signal, place, end.min(until).min(other)),
        },
    }
}
