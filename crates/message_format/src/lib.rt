//! Formats of messages: which elements a format has, its text, and the events that say it.
//!
//! Below: `dt_core`, `bit_ops`, `netlist` (its events, and `specs/Message`: which text a value has). Above: what reads
//! the blocks of a design.
//! Promise: `specs/Format` says what a format is spelled of, `specs/Formatted` which text it has with its arguments.
//! `split` cuts a format into its pieces, whole texts among them, and refuses exactly what isn't spelled of elements.
//! `message_events` gives the events of a message: wherever they stand in a block, they add the text of the format
//! where their condition holds, and do nothing else. It refuses exactly a format that has no text with its arguments.
//! `format_law` says that the elements that are computed are those that a format is spelled of. A refusal carries no
//! place: it stands at the format, which the caller has. Not said: that memory is enough.
#![tactic(auto)]

pub mod element;
pub mod events;
pub mod fault;
pub mod laws;
pub mod piece;
pub mod split;
