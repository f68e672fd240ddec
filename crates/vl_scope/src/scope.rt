//! The names of a module's ports, with their numbers.

ghost use Rattle.std.specs.Prelude.{◌≡◌, ◌<◌, ◌^◌, map, length, IfOk, OnOk, IfSome, is_some, not, nat_eq};
ghost use Rattle.std.specs.Option.{option_map, option_copied};
ghost use Rattle.std.specs.Cmp.Lexicographic.{pointwise};
ghost use Rattle.indexmap.specs.IndexMap.{get, Updates};
ghost use Rattle.vl_tree.specs.View.{port};
ghost use Rattle.vl_meaning.specs.Objects.{port_name, port_named, port_place};
ghost use Rattle.vl_meaning.specs.Faults as faults;

use dt_core::fault::NoMemory;
use dt_core::text::Text;
use indexmap::IndexMap;
use std::alloc::Global;
use std::marker::Model;
use vl_tree::tree::Port;

/// The names that ports declare, each with the number of the first port of that name, from 0. A contract sees the ports, as plain data.
#[derive(Drop)]
pub struct Scope<'a> {
    ports: &'a [Port],
    numbers: IndexMap<Text, u32>,
    distinct: bool,
}

impl<'a> Model for Scope<'a> {
    ghost use Rattle.std.specs.Prelude.{◌≡◌, ℕ, List, map, nat_eq};
    ghost use Rattle.std.specs.Cmp.Lexicographic.{pointwise};
    ghost use Rattle.indexmap.specs.IndexMap.{get};
    ghost use Rattle.vl_tree.specs.Tree.{Port};
    ghost use Rattle.vl_tree.specs.View.{port};
    ghost use Rattle.vl_meaning.specs.Objects.{port_place};
    ghost use Rattle.vl_meaning.specs.Faults as faults;

    ghost Value = { List Port };

    ghost view = { λ s. map port s.ports.now };

    ghost invariant = { λ s. ((x : List ℕ) → get (pointwise nat_eq) s.numbers x ≡ port_place (map port s.ports.now) x) × (s.distinct ≡ faults.are_distinct (map port s.ports.now)) };
}

impl<'a> Scope<'a> {
    /// The scope of these ports, in linear time as far as hashing goes.
    pub fn of_ports(alloc: Global, ports: &'a [Port]) -> Result<Scope<'a>, NoMemory>
        requires { length ports.now < 2 ^ 32 }
        ensures { IfOk result (λ scope. scope ≡ map port ports.now) }
    {
        let mut numbers = IndexMap::new(alloc);
        let mut distinct = true;
        // From the last port on, so that the first of a name stands in the end.
        for i in (0..ports.len()).rev() {
            let name = Text::copied(alloc, name_of(&ports[i]).bytes())?;
            let is_new = declare(&mut numbers, name, i as u32)?;
            distinct = is_new && distinct;
        }
        Ok(Scope {
            ports,
            numbers,
            distinct,
        })
    }

    /// The number of the first port of a name.
    pub fn find(&self, name: &Text) -> Option<u32>
        ensures number { result ≡ port_place self.now name.now }
        ensures within { IfSome result (λ n. n < length self.now) }
    {
        self.numbers.get(name).copied()
    }

    /// The first port of a name.
    pub fn port_of(&self, name: &Text) -> Option<&'a Port>
        ensures { option_map port (option_copied result) ≡ port_named self.now name.now }
    {
        let number = self.find(name)?;
        Some(&self.ports[number as usize])
    }

    /// Whether no name is declared twice.
    pub fn are_distinct(&self) -> bool
        ensures { result ≡ faults.are_distinct self.now }
    {
        self.distinct
    }
}

/// The name that a port declares.
pub fn name_of(declared: &Port) -> &Text
    ensures { result.now ≡ port_name (port declared.now) }
{
    match declared {
        Port::Input(name) => name,
        Port::Output(name, _, _) => name,
    }
}

// Gives a name its number, and says whether it had none before.
fn declare(numbers: &mut IndexMap<Text, u32>, name: Text, number: u32) -> Result<bool, NoMemory>
    ensures new { IfOk result (λ is_new. is_new ≡ not (is_some (get (pointwise nat_eq) numbers.old name))) }
    ensures updates { OnOk result (Updates (pointwise nat_eq) numbers.old numbers.new name (Some number)) }
{
    match numbers.insert(name, number) {
        Ok(old) => Ok(old.is_none()),
        Err(_) => Err(NoMemory),
    }
}
