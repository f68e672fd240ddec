//! The pieces of a format: texts as they are said, the path of the scope, and items.

ghost use Rattle.std.specs.Prelude.{◌≡◌, ◌++◌, ◌∷◌, [], true, false, OnOk, IfOk};
ghost use Rattle.message_format.specs.Pieces.{AreWhole, bytes_of, elements_of};
ghost use Rattle.message_format.specs.Draft.{IsDraft, is_text, said};

use crate::element::{Element, Item};
use dt_core::append::push;
use dt_core::fault::NoMemory;
use dt_core::text::Text;
use std::alloc::Global;
use std::marker::Model;
use std::mem;

/// A piece of a format.
#[derive(Debug, Drop)]
pub enum Piece {
    /// A text, as it is said.
    Said(Text),
    /// The path of the scope.
    Path,
    /// The next argument.
    Value(Item),
}

// The pieces so far, and the text after them.
#[derive(Drop)]
pub(crate) struct Draft {
    pieces: Vec<Piece>,
    text: Vec<u8>,
}

impl Model for Draft {
    ghost use Rattle.message_format.specs.Plain.{PlainDraft};

    ghost Value = { PlainDraft };

    ghost view = { λ d. record { pieces = d.pieces.items; text = d.text.items } };
}

impl Draft {
    // Nothing yet.
    pub(crate) fn new(alloc: Global) -> Draft
        ensures { result ≡ record { pieces = []; text = [] } }
    {
        Draft {
            pieces: Vec::new(alloc),
            text: Vec::new(alloc),
        }
    }

    // Appends an element.
    pub(crate) fn add(&mut self, alloc: Global, element: Element) -> Result<(), NoMemory>
        requires { IsDraft self.old }
        ensures said { OnOk result (said self.new ≡ said self.old ++ element ∷ []) }
        ensures whole { OnOk result (IsDraft self.new) }
    {
        match element {
            Element::Byte(byte) => push(&mut self.text, &[byte]),
            Element::Path => self.add_piece(alloc, Piece::Path),
            Element::Value(item) => self.add_piece(alloc, Piece::Value(item)),
        }
    }

    // Appends a piece that is no text.
    fn add_piece(&mut self, alloc: Global, piece: Piece) -> Result<(), NoMemory>
        requires draft { IsDraft self.old }
        requires other { is_text piece ≡ false }
        ensures said { OnOk result (said self.new ≡ said self.old ++ elements_of (piece ∷ [])) }
        ensures whole { OnOk result (IsDraft self.new) }
    {
        self.end_text(alloc)?;
        push_piece(&mut self.pieces, piece)
    }

    // Makes the text a piece, if it isn't empty.
    fn end_text(&mut self, alloc: Global) -> Result<(), NoMemory>
        requires { IsDraft self.old }
        ensures said { OnOk result (elements_of self.new.pieces ≡ said self.old) }
        ensures whole { OnOk result (AreWhole false self.new.pieces) }
        ensures empty { OnOk result (self.new.text ≡ []) }
    {
        if self.text.is_empty() {
            return Ok(());
        }
        let text = Text::of_bytes(mem::replace(&mut self.text, Vec::new(alloc)));
        push_piece(&mut self.pieces, Piece::Said(text))
    }

    // The pieces, the text after them as the last one.
    pub(crate) fn finish(self, alloc: Global) -> Result<Vec<Piece>, NoMemory>
        requires { IsDraft self }
        ensures elements { IfOk result (λ ps. elements_of ps.items ≡ said self) }
        ensures whole { IfOk result (λ ps. AreWhole false ps.items) }
    {
        let mut draft = self;
        draft.end_text(alloc)?;
        Ok(draft.pieces)
    }
}

// Appends a piece to a list.
fn push_piece(pieces: &mut Vec<Piece>, piece: Piece) -> Result<(), NoMemory>
    ensures { OnOk result (pieces.new.items ≡ pieces.old.items ++ piece ∷ []) }
{
    match pieces.push(piece) {
        Ok(()) => Ok(()),
        Err(_) => Err(NoMemory),
    }
}
