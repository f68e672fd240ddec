//! Of which module instances are, and what is given to its parameters.

ghost use Rattle.std.specs.Prelude.{IfOk, map};
ghost use Rattle.std.specs.Option.{option_map};
ghost use Rattle.vl_tree.specs.SyntaxView as view;
ghost use Rattle.vl_constants.specs.Needed.{constants_of};
ghost use Rattle.vl_walk.specs.Library.{Finds};
ghost use Rattle.vl_walk.specs.Asked.{IsInstanceSite, Supplies};

use crate::modules::Modules;
use std::alloc::AllocError;
use vl_frames::frames::Frames;
use vl_opening::instance::{Site, refuse_name};
use vl_opening::walk::Walk;
use vl_parameters::given::given_by;
use vl_parameters::worth::Given;
use vl_scopes::scope::{Origin, Step};
use vl_tree::expression::Name;
use vl_tree::item::{Binds, Instance, Module};

/// A module, and the values that are given to its parameters.
#[derive(Drop)]
pub struct Supply<'a> {
    pub parent: &'a Module,
    pub given: Vec<Given<'a>>,
}

/// The module of a name and what stands behind that, whose faults are told; none where no module has the name, and then the instances count.
pub fn supply_of<'a>(
    modules: &Modules<'a>,
    walk: &mut Walk<'_>,
    frames: &Frames,
    name: &Name,
    values: &'a Option<Option<Binds>>,
    instances: &[Instance],
) -> Result<Option<Supply<'a>>, AllocError>
    requires { Finds modules.now }
    ensures { let x = view.name name.now in let is = map view.instance instances.now in
        let ps = option_map (option_map view.binds) values.now in
        IfOk result (λ s. Supplies modules.now (constants_of frames.now) x ps is walk.old walk.new s) }
{
    match modules.find(&name.text) {
        Some(parent) => {
            let gift = given_by(modules.alloc, frames, parent, values)?;
            walk.progress.fail(gift.fault);
            Ok(Some(Supply {
                parent,
                given: gift.given,
            }))
        }
        None => {
            refuse_name(walk, name, instances);
            Ok(None)
        }
    }
}

/// How an instance of a module stands in the scope of a number.
pub fn instance_site<'a>(within: u32, parent: &'a Module, instance: &'a Instance) -> Site<'a>
    ensures { let m = view.module_tree parent.now in let i = view.instance instance.now in
        IsInstanceSite within m i result }
{
    Site {
        place: instance.name.place,
        origin: Origin::Instance(parent, instance),
        step: Some(Step::Named(&instance.name)),
        within: Some(within),
    }
}
