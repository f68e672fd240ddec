//! Whether a module with one clocked block has a static fault, and the table of its names.
//!
//! Below: `vl_tree` (trees), `vl_meaning` (what a fault is, what a name stands for), `flat_ir` (how many arguments a format shows).
//! Above: `vl_proc` finds names in a `Scope`, `vl_front` refuses a module that is not sound.
//! Promise: `is_sound` answers exactly `is_sound` of `vl_meaning/specs/Faults`, and each test that it is made of answers its own
//! definition; `Scope::find` answers exactly `port_place` of `vl_meaning/specs/Objects`.
//! Not said: which fault a module has, or where; that memory is enough, or the stack: the walks go as deep as the tree does.
#![tactic(auto)]

ghost use Rattle.std.specs.Prelude.{◌≡◌, map, IsTrue, IfOk};
ghost use Rattle.vl_tree.specs.View.{port, module_of};
ghost use Rattle.vl_meaning.specs.Faults as faults;

pub mod counts;
pub mod declared;
pub mod scope;
pub mod statements;

use dt_core::fault::NoMemory;
use scope::Scope;
use std::alloc::Global;
use vl_tree::tree::Module;

/// Whether a module has no static fault.
pub fn is_sound(alloc: Global, top: &Module) -> Result<bool, NoMemory>
    ensures { IfOk result (λ sound. sound ≡ faults.is_sound (module_of top.now)) }
{
    if !declared::are_few(top) {
        return Ok(false);
    }
    let scope = Scope::of_ports(alloc, &top.ports)?;
    Ok(is_sound_in(top, &scope))
}

/// Whether a module that has few enough declarations has no static fault, where the scope of its ports is at hand.
pub fn is_sound_in(top: &Module, scope: &Scope<'_>) -> bool
    requires few { IsTrue (faults.are_few (module_of top.now)) }
    requires scope { scope.now ≡ map port top.now.ports.items }
    ensures { result ≡ faults.is_sound (module_of top.now) }
{
    declared::are_declared(top, scope)
        && statements::are_stmts(top, scope, top.body.as_slice())
        && counts::is_short(top)
        && counts::stops_once(top)
}
