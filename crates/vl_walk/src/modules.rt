//! The modules of a source.

ghost use Rattle.std.specs.Prelude.{◌≡◌, IfOk};
ghost use Rattle.std.specs.Option.{option_map};
ghost use Rattle.vl_tree.specs.SyntaxView as view;
ghost use Rattle.vl_design.specs.Scopes.{module_at};
ghost use Rattle.vl_top.specs.Names.{tree_of};
ghost use Rattle.vl_walk.specs.Library.{Finds, IsOf, source_of};

use dt_core::text::Text;
use indexmap::IndexMap;
use std::alloc::{AllocError, Global};
use vl_top::modules_by_name;
use vl_tree::item::{Module, Source};

/// The modules of a source in order, and the first of each name.
#[derive(Drop)]
pub struct Modules<'a> {
    pub alloc: Global,
    pub all: &'a [Module],
    pub by_name: IndexMap<Text, &'a Module>,
}

impl<'a> Modules<'a> {
    /// The modules of a source.
    pub fn new(alloc: Global, source: &'a Source) -> Result<Modules<'a>, AllocError>
        ensures { let src = view.source source.now in
            IfOk result (λ m. IsOf src m) }
    {
        let all = source.modules.as_slice();
        let by_name = modules_by_name(alloc, all)?;
        Ok(Modules {
            alloc,
            all,
            by_name,
        })
    }

    /// The first module of a name.
    pub fn find(&self, name: &Text) -> Option<&'a Module>
        requires { Finds self.now }
        ensures { option_map tree_of result ≡ module_at (source_of self.now) name.now }
    {
        self.by_name.get(name).copied()
    }
}
