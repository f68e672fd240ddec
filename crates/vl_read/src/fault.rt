//! Why a reader gives no tree, and why a list of tokens is refused.

ghost use Rattle.std.specs.Prelude.{◌≡◌, ◌<◌, ◌^◌};
ghost use Rattle.vl_read.specs.Faults.{told};

use dt_core::fault::NoMemory;
use std::alloc::AllocError;

/// Why a reader gives no tree. A place is told by the number of tokens that are left there.
#[derive(Clone, Copy, Debug, PartialEq, Eq)]
pub enum Fault {
    /// There was too little memory.
    Memory,
    /// No tree begins with the tokens up to the first of this many that are left, or up to the end where it is 0.
    At(usize),
    /// The first of this many tokens that are left is deeper than 200.
    Deep(usize),
}

/// Why a list of tokens is refused.
#[derive(Clone, Copy, Debug, PartialEq, Eq)]
pub enum SynFault {
    /// The token of this number is the least such that no text goes on with the tokens up to it; where only the end is
    /// bad, it is the number of the tokens.
    At { token: u32 },
    /// The token of this number is the first that is deeper than 200.
    Deep { token: u32 },
    /// There was too little memory.
    Memory,
}

impl Fault {
    /// The same of a list of so many tokens, told by the token's number.
    pub fn told(self, count: usize) -> SynFault
        requires { count < 2 ^ 32 }
        ensures { result ≡ told count self }
    {
        match self {
            Fault::Memory => SynFault::Memory,
            Fault::At(left) => SynFault::At {
                token: count.saturating_sub(left) as u32,
            },
            Fault::Deep(left) => SynFault::Deep {
                token: count.saturating_sub(left) as u32,
            },
        }
    }
}

impl From<AllocError> for Fault {
    ghost use Rattle.std.specs.Prelude.{◌≡◌};
    ghost use Rattle.vl_read.specs.declared.fault.Fault.TheVariants.{Memory};

    ghost from_gives = { λ _ e. e ≡ Memory };

    fn from(_: AllocError) -> Fault {
        Fault::Memory
    }
}

impl From<NoMemory> for Fault {
    ghost use Rattle.std.specs.Prelude.{◌≡◌};
    ghost use Rattle.vl_read.specs.declared.fault.Fault.TheVariants.{Memory};

    ghost from_gives = { λ _ e. e ≡ Memory };

    fn from(_: NoMemory) -> Fault {
        Fault::Memory
    }
}
