//! The top of a source.

ghost use Rattle.std.specs.Prelude.{◌≡◌, map};
ghost use Rattle.vl_tree.specs.SyntaxView as view;
ghost use Rattle.vl_front.specs.Top as spec;

use vl_tree::item::{Module, Source};

/// Whether a source has no top: no module has the name that is asked for, or there is no module.
pub fn is_topless(source: &Source, top: Option<&[u8]>) -> bool
    ensures { result ≡ spec.is_topless (spec.asked top.entry) (view.source source.now) }
{
    let modules = source.modules.as_slice();
    match top {
        Some(name) => !has_module(modules, name),
        None => modules.is_empty(),
    }
}

// Whether a module has this name.
fn has_module(modules: &[Module], name: &[u8]) -> bool
    ensures { result ≡ spec.has_module name.now (map view.module_tree modules.now) }
{
    for module in modules {
        if module.name.text.bytes() == name {
            return true;
        }
    }
    false
}

/// Whether a module of this name may be the top.
pub fn is_asked(name: &[u8], top: Option<&[u8]>) -> bool
    ensures { result ≡ spec.is_asked (spec.asked top.entry) name.now }
{
    match top {
        Some(asked) => name == asked,
        None => true,
    }
}
