//! What the names of a module stand for.

ghost use Rattle.std.specs.Prelude.{◌≡◌, Some, true, is_some};
ghost use Rattle.vl_meaning.specs.Objects as objects;
ghost use Rattle.vl_proc.specs.Ports.{found};
ghost use Rattle.vl_proc.specs.Scopes.{IsKnown, module_in};

use dt_core::text::Text;
use flat_ir::design::Signal;
use vl_scope::scope;
use vl_tree::tree::Module;

/// A module with the names of its ports, and with their signals, in order.
#[derive(Clone, Copy)]
pub struct Scope<'a> {
    pub module: &'a Module,
    pub names: &'a scope::Scope<'a>,
    pub signals: &'a [Signal],
}

impl Scope<'_> {
    /// The signal of a declared name.
    pub fn signal(&self, name: &Text) -> &Signal
        requires known { IsKnown self.now }
        requires declared { is_some (objects.port_named (module_in self.now).ports name.now) ≡ true }
        ensures { found (module_in self.now).clock 0 0 (module_in self.now).ports name.now ≡ Some result.now }
    {
        match self.names.find(name) {
            Some(number) => &self.signals[number as usize],
            None => unreachable!(),
        }
    }
}
