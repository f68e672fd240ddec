//! The path of a scope.

ghost use Rattle.std.specs.Prelude.{◌≡◌, ◌<◌, ◌++◌, map, length, IfOk, OnOk};
ghost use Rattle.std.specs.List.{All};
ghost use Rattle.design_names.specs.Shown.{scope_at};
ghost use Rattle.design_names.specs.Path as path;

use crate::append;
use dt_core::append::push;
use dt_core::fault::NoMemory;
use dt_core::text::Text;
use netlist::flat::Flat;
use std::alloc::Global;

/// The scopes from the top down to the one of a number, each in the one before it.
pub fn scopes_to(alloc: Global, flat: &Flat, scope: u32) -> Result<Vec<u32>, NoMemory>
    requires { scope < length flat.now.scopes }
    ensures down { IfOk result (λ scopes. scopes.items ≡ path.scopes_to flat.now scope) }
    ensures there { IfOk result (λ scopes. All (λ k. k < length flat.now.scopes) scopes.items) }
{
    let scopes = flat.scopes();
    let mut up = Vec::new(alloc);
    let mut next = Some(scope);
    while let Some(number) = next {
        append::push(&mut up, number)?;
        next = scopes[number as usize].parent;
    }
    up.reverse();
    Ok(up)
}

/// The path of the scope of a number, as a report writes it: the names of the scopes from the top down to it, with a
/// point between each two.
pub fn path_text(alloc: Global, flat: &Flat, scope: u32) -> Result<Text, NoMemory>
    requires { scope < length flat.now.scopes }
    ensures { IfOk result (λ text. text ≡ path.path_text flat.now scope) }
{
    let scopes = scopes_to(alloc, flat, scope)?;
    let mut text = Vec::new(alloc);
    if let Some((top, below)) = scopes.split_first() {
        push_name(&mut text, flat, *top)?;
        push_behind(&mut text, flat, below)?;
    }
    Ok(Text::of_bytes(text))
}

// Appends the name of each scope, with a point before it.
fn push_behind(text: &mut Vec<u8>, flat: &Flat, scopes: &[u32]) -> Result<(), NoMemory>
    requires { All (λ k. k < length flat.now.scopes) scopes.now }
    ensures { OnOk result
        (text.new.items ≡ text.old.items ++ path.dotted_behind (map (λ k. (scope_at flat.now k).name) scopes.now)) }
{
    for scope in scopes {
        push(text, b".")?;
        push_name(text, flat, *scope)?;
    }
    Ok(())
}

// Appends the name of a scope.
fn push_name(text: &mut Vec<u8>, flat: &Flat, scope: u32) -> Result<(), NoMemory>
    requires { scope < length flat.now.scopes }
    ensures { OnOk result (text.new.items ≡ text.old.items ++ (scope_at flat.now scope).name) }
{
    push(text, flat.scopes()[scope as usize].name.bytes())
}
