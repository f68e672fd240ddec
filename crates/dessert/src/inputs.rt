//! The data inputs of a design, as the reader of its stimulus takes them.

ghost use Rattle.std.specs.Prelude.{◌≡◌, ◌++◌, ◌∷◌, [], IfOk, OnOk};
ghost use Rattle.netlist.specs.Fits.{IsWellFormed};
ghost use Rattle.vl_stands.specs.StandsFor.{input_names};
ghost use Rattle.dessert.specs.Inputs.{bits_named};

use dt_core::fault::NoMemory;
use dt_core::text::Text;
use netlist::design::Signal;
use netlist::flat::Flat;
use std::alloc::Global;
use stimulus::refusal::Input;

/// The data inputs, in order of the ports. Each has one bit, as all have in today's form of modules.
pub fn inputs_of(alloc: Global, flat: &Flat) -> Result<Vec<Input>, NoMemory>
    ensures { IfOk result (λ inputs. inputs.items ≡ bits_named (input_names flat.now)) }
{
    let signals = flat.signals();
    let mut inputs = Vec::new(alloc);
    for number in flat.inputs() {
        push_input(alloc, &mut inputs, &signals[*number as usize])?;
    }
    Ok(inputs)
}

// Appends a data input.
fn push_input(alloc: Global, inputs: &mut Vec<Input>, signal: &Signal) -> Result<(), NoMemory>
    ensures { OnOk result (inputs.new.items ≡ inputs.old.items ++ bits_named (signal.now.name ∷ [])) }
{
    let name = Text::copied(alloc, signal.name.bytes())?;
    if inputs.push(Input { name, width: 1 }).is_err() {
        return Err(NoMemory);
    }
    Ok(())
}
