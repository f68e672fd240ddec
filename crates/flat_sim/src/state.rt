//! States.

use std::marker::Model;

/// The state of a cycle: of each register part its value, in order of number, and of each memory that some block writes
/// its words from the least index on; of each other memory no words.
#[derive(Drop)]
pub struct FlatState {
    pub registers: Vec<u128>,
    pub memories: Vec<Vec<u128>>,
}

impl Model for FlatState {
    ghost use Rattle.std.specs.Prelude.{map};
    ghost use Rattle.netlist.specs.Run.{State};

    ghost Value = { State };

    ghost view = { λ s. record { registers = s.registers.items; memories = map (λ m. m.items) s.memories.items } };
}
