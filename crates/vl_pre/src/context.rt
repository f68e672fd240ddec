//! What is defined, and which conditions are open.

ghost use Rattle.std.specs.Prelude.{◌≡◌, is_some};
ghost use Rattle.vl_pre.specs.Bytes as b;
ghost use Rattle.vl_pre.specs.Directives as d;
ghost use Rattle.vl_pre.specs.CleanText as t;
ghost use Rattle.vl_pre.specs.Calls.Reading.{Changes, Finishes, Goes};
ghost use Rattle.vl_pre.specs.Calls.Views.{context_of};

use crate::conditions::{Branch, Condition, first_branch, next_branch};
use crate::fault::in_text;
use crate::macros::Macros;
use dt_core::text::Text;
use indexmap::IndexMap;
use std::alloc::Global;
use vl_tree::fault::{FaultKind, StaticFault};

/// The body of each name that is defined, and the open conditions, the innermost last.
#[derive(Drop)]
pub struct Context {
    pub macros: Macros,
    pub conditions: Vec<Condition>,
}

impl Context {
    /// Nothing is defined, and no condition is open.
    pub fn new(alloc: Global) -> Context
        ensures { context_of result ≡ t.start }
    {
        Context {
            macros: IndexMap::new(alloc),
            conditions: Vec::new(alloc),
        }
    }

    /// Gives a name this body in place of any that it had.
    pub fn define(&mut self, name: Text, body: Text) -> Result<(), StaticFault>
        ensures { Changes (d.with_macros (d.defined name body (context_of self.old).macros) (context_of self.old))
            self.new result }
    {
        match self.macros.insert(name, body) {
            Ok(_) => Ok(()),
            Err(_) => Err(StaticFault::Memory),
        }
    }

    /// Takes a name's body away, if it has one.
    pub fn undefine(&mut self, name: &Text)
        ensures { context_of self.new
            ≡ d.with_macros (d.undefined name.now (context_of self.old).macros) (context_of self.old) }
    {
        self.macros.swap_remove(name);
    }

    /// Whether a name has a body.
    pub fn is_defined(&self, name: &Text) -> bool
        ensures { result ≡ is_some ((context_of self.now).macros name.now) }
    {
        self.macros.get(name).is_some()
    }

    /// Whether text is read, and not skipped.
    pub fn is_read(&self) -> bool
        ensures { result ≡ d.is_read (context_of self.now).conditions }
    {
        match self.conditions.last() {
            Some(condition) => condition.branch.is_reading(),
            None => true,
        }
    }

    /// Opens a condition, which holds or not.
    pub fn open(&mut self, line: u32, holds: bool) -> Result<(), StaticFault>
        ensures { Changes (d.opened line holds (context_of self.old)) self.new result }
    {
        let condition = Condition {
            line,
            branch: first_branch(self.is_read(), holds),
            last: false,
        };
        match self.conditions.push(condition) {
            Ok(()) => Ok(()),
            Err(_) => Err(StaticFault::Memory),
        }
    }

    /// Whether the innermost condition may go on to a next branch: one is open, and its `else` hasn't come.
    pub fn may_turn(&self) -> bool
        ensures { result ≡ d.may_turn (context_of self.now).conditions }
    {
        match self.conditions.last() {
            Some(condition) => !condition.last,
            None => false,
        }
    }

    /// Goes on to the next branch of the innermost condition: whether it holds, and whether it is the one of `else`.
    pub fn turn(&mut self, line: u32, holds: bool, last: bool) -> Result<(), StaticFault>
        ensures { (rest : b.Text) → Goes rest self.new
            (d.branch_step line (context_of self.old) (context_of self.old).conditions holds last rest) result }
    {
        let Some(mut condition) = self.conditions.pop() else {
            return Err(in_text(FaultKind::Unbalanced, line));
        };
        if condition.last {
            return Err(in_text(FaultKind::Unbalanced, line));
        }
        condition.branch = next_branch(condition.branch, holds);
        condition.last = last;
        match self.conditions.push(condition) {
            Ok(()) => Ok(()),
            Err(_) => Err(StaticFault::Memory),
        }
    }

    /// Ends the innermost condition.
    pub fn close(&mut self, line: u32) -> Result<(), StaticFault>
        ensures { (rest : b.Text) → Goes rest self.new
            (d.close_step line (context_of self.old) (context_of self.old).conditions rest) result }
    {
        match self.conditions.pop() {
            Some(_) => Ok(()),
            None => Err(in_text(FaultKind::Unbalanced, line)),
        }
    }

    /// The fault of a condition that is open at the end of the text, the innermost first.
    pub fn finish(&self) -> Result<(), StaticFault>
        ensures { Finishes (context_of self.now).conditions result }
    {
        match self.conditions.last() {
            Some(condition) => Err(in_text(FaultKind::Unbalanced, condition.line)),
            None => Ok(()),
        }
    }
}
