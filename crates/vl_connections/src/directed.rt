//! Names that have a direction.

ghost use Rattle.std.specs.Prelude.{◌≡◌, IfOk, OnOk};
ghost use Rattle.vl_declares.specs.Plain.{all_plain, plain};
ghost use Rattle.vl_connections.specs.Connections.{AddsDirected, HasDirected};

use std::alloc::{AllocError, Global};
use vl_declares::declared::Declared;
use vl_names::NameSet;

/// The names of ports among declarations.
pub fn directed_names(alloc: Global, declared: &[Declared<'_>]) -> Result<NameSet, AllocError>
    ensures { let ds = all_plain declared.now in
        IfOk result (λ s. HasDirected s ds) }
{
    let mut names = NameSet::new(alloc);
    for one in declared {
        add_directed(alloc, &mut names, one)?;
    }
    Ok(names)
}

// Adds the name of a declaration that has a direction.
fn add_directed(alloc: Global, names: &mut NameSet, one: &Declared<'_>) -> Result<(), AllocError>
    ensures { let d = plain one.now in
        OnOk result (AddsDirected d names.old names.new) }
{
    match one {
        Declared::Port(_, _, local) => {
            names.add(alloc, &local.name.text)?;
            Ok(())
        }
        Declared::Object(_, _) => Ok(()),
        Declared::Memory(_, _) => Ok(()),
        Declared::Parameter(_, _) => Ok(()),
        Declared::Genvar(_) => Ok(()),
        Declared::Routine(_) => Ok(()),
        Declared::Inner(_) => Ok(()),
    }
}
