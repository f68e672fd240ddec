//! The names of the scopes of one module, one within another.

ghost use Rattle.std.specs.Prelude.{◌≡◌, ◌++◌, ◌∷◌, [], false, OnOk, bytes_eq};
ghost use Rattle.std.specs.Option.{option_map};
ghost use Rattle.vl_design.specs.Constants as design;
ghost use Rattle.vl_frames.specs.Marks.{IsNew, around, known_in, genvar_in, plain_worth};
ghost use Rattle.vl_frames.specs.Changes.{Becomes, Enters, Leaves, declared, genvar_noted, hidden, passed};

use crate::frame::Frame;
use crate::mark::{Mark, Worth};
use dt_core::text::Text;
use std::alloc::{AllocError, Global};
use std::mem::replace;

/// The scopes of one module around a place, from the module inward.
#[derive(Drop)]
pub struct Frames {
    pub inner: Frame,
    pub outer: Vec<Frame>,
}

impl Frames {
    /// The scope of a module, which has no name yet.
    pub fn new(alloc: Global) -> Frames
        ensures { IsNew result }
    {
        Frames {
            inner: Frame::new(alloc),
            outer: Vec::new(alloc),
        }
    }

    /// Enters a scope, which has no name yet.
    pub fn enter(&mut self, alloc: Global) -> Result<(), AllocError>
        ensures { OnOk result (Enters self.old self.new) }
    {
        let outer = replace(&mut self.inner, Frame::new(alloc));
        push(&mut self.outer, outer)?;
        Ok(())
    }

    /// Leaves the innermost scope.
    pub fn leave(&mut self)
        ensures { Leaves self.old self.new }
    {
        if let Some(frame) = self.outer.pop() {
            self.inner = frame;
        }
    }

    /// What a constant in sight is worth.
    pub fn worth(&self, name: &Text) -> Option<Worth>
        ensures { option_map plain_worth result ≡ (around self.now).known name.now }
    {
        let outer = worth_in(self.outer.as_slice(), name);
        self.inner.worth(name, outer)
    }

    /// Whether a name is that of a constant which rests on a fault.
    pub fn is_faulty(&self, name: &Text) -> bool
        ensures { result ≡ design.is_faulty ((around self.now).known name.now) }
    {
        match self.worth(name) {
            Some(Worth::Faulty) => true,
            Some(Worth::Number(_)) => false,
            None => false,
        }
    }

    /// Whether a name is a genvar's.
    pub fn is_genvar(&self, name: &Text) -> bool
        ensures { result ≡ (around self.now).is_genvar name.now }
    {
        let outer = is_genvar_in(self.outer.as_slice(), name);
        self.inner.is_genvar(name, outer)
    }

    /// An object of the innermost scope has a name.
    pub fn hide(&mut self, alloc: Global, name: &Text) -> Result<(), AllocError>
        ensures { OnOk result (Becomes self.old self.new (hidden (bytes_eq name.now) (around self.old))) }
    {
        self.inner.mark(alloc, name, Mark::Object)?;
        self.inner.tell(alloc, name, false)?;
        Ok(())
    }

    /// A constant of the innermost scope is in sight from here on.
    pub fn declare(&mut self, alloc: Global, name: &Text, worth: Worth) -> Result<(), AllocError>
        ensures { OnOk result (Becomes self.old self.new (declared name.now (plain_worth worth) (around self.old))) }
    {
        self.inner.mark(alloc, name, Mark::Constant(worth))?;
        Ok(())
    }

    /// A genvar of the innermost scope has a name.
    pub fn note_genvar(&mut self, alloc: Global, name: &Text) -> Result<(), AllocError>
        ensures { OnOk result (Becomes self.old self.new (genvar_noted (bytes_eq name.now) (around self.old))) }
    {
        self.inner.tell(alloc, name, true)?;
        Ok(())
    }

    /// A parameter hides a genvar of its name.
    pub fn pass(&mut self, alloc: Global, name: &Text) -> Result<(), AllocError>
        ensures { OnOk result (Becomes self.old self.new (passed (bytes_eq name.now) (around self.old))) }
    {
        self.inner.tell(alloc, name, false)?;
        Ok(())
    }
}

fn push(frames: &mut Vec<Frame>, frame: Frame) -> Result<(), AllocError>
    ensures { OnOk result (frames.new.items ≡ frames.old.items ++ frame ∷ []) }
{
    match frames.push(frame) {
        Ok(()) => Ok(()),
        Err(_) => Err(AllocError),
    }
}

// What a constant is worth that scopes have, from the outermost inward.
fn worth_in(frames: &[Frame], name: &Text) -> Option<Worth>
    ensures { option_map plain_worth result ≡ known_in design.nothing_known frames.now name.now }
{
    let mut worth = None;
    for frame in frames {
        worth = frame.worth(name, worth);
    }
    worth
}

// Whether a name is a genvar's by scopes, from the outermost inward.
fn is_genvar_in(frames: &[Frame], name: &Text) -> bool
    ensures { result ≡ genvar_in (λ x. false) frames.now name.now }
{
    let mut is_genvar = false;
    for frame in frames {
        is_genvar = frame.is_genvar(name, is_genvar);
    }
    is_genvar
}
