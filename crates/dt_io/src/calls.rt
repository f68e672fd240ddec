//! The calls to an object in memory: which fail, how many were made, and how many faults there were.

ghost use Rattle.std.specs.Prelude.{◌≡◌, ◌≤◌, ◌↔◌, IsTrue};
ghost use Rattle.dt_core.specs.Causes.{IsNamed, FailsAsNamed};
ghost use Rattle.dt_io.specs.Counts.{Counts, one_more};

use dt_core::fault::Failed;

// The calls that fail by their numbers from 1, the calls so far, and the faults so far.
#[derive(Drop)]
pub(crate) struct Calls {
    pub fails: Vec<u32>,
    pub made: u64,
    pub faults: u64,
}

impl Calls {
    // No call was made.
    pub fn new(fails: Vec<u32>) -> Calls
        ensures { result ≡ record { fails = fails; made = 0; faults = 0 } }
    {
        Calls {
            fails,
            made: 0,
            faults: 0,
        }
    }

    // Counts a call, which fails where the list names it.
    pub fn begin(&mut self) -> Result<(), Failed>
        ensures named { FailsAsNamed self.old.fails.items self.old.made result }
        ensures faults { Counts self.old.faults self.new.faults result }
        ensures later { self.old.faults ≤ self.new.faults }
        ensures made { self.new.made ≡ one_more self.old.made }
        ensures kept { self.new.fails ≡ self.old.fails }
    {
        let named = names_next(&self.fails, self.made);
        self.made = self.made.saturating_add(1);
        if named {
            self.fault();
            return Err(Failed);
        }
        Ok(())
    }

    // Counts a fault.
    pub fn fault(&mut self)
        ensures one { self.new ≡ record self.old { faults = one_more self.old.faults } }
        ensures later { self.old.faults ≤ self.new.faults }
    {
        self.faults = self.faults.saturating_add(1);
    }
}

// Whether the list names the next call.
fn names_next(fails: &[u32], made: u64) -> bool
    ensures { IsTrue result ↔ IsNamed fails.now made }
{
    for fail in fails {
        if *fail != 0 && u64::from(*fail) - 1 == made {
            return true;
        }
    }
    false
}
