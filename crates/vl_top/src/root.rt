//! The module that no module instantiates.

ghost use Rattle.std.specs.Prelude.{◌≡◌, map, filter, nat_eq};
ghost use Rattle.std.specs.Option.{option_map};
ghost use Rattle.std.specs.Cmp.Lexicographic.{pointwise};
ghost use Rattle.indexmap.specs.IndexMap.{get};
ghost use Rattle.vl_design.specs.Walk as walk;
ghost use Rattle.vl_top.specs.Names.{is_unused, tree_of};

use crate::first::has_name;
use dt_core::text::Text;
use indexmap::IndexMap;
use vl_tree::item::Module;

/// The only one of some modules whose name isn't used.
pub fn only_root<'a>(used: &IndexMap<Text, u32>, modules: &[&'a Module]) -> Option<&'a Module>
    ensures { let find = get (pointwise nat_eq) used.now in
        option_map tree_of result ≡ walk.only_one (map tree_of (filter (is_unused find) modules.now)) }
{
    let mut root = None;
    for one in modules {
        if !has_name(used, &one.name.text) {
            if root.is_some() {
                return None;
            }
            root = Some(*one);
        }
    }
    root
}
