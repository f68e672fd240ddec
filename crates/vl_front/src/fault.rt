//! Why a text gives no design.

ghost use Rattle.std.specs.Prelude.{◌≡◌};
ghost use Rattle.vl_tree.specs.Token.{all_coded};
ghost use Rattle.vl_front.specs.FirstFault as first;
ghost use Rattle.vl_front.specs.Calls.Faults.{of_source};
ghost use Rattle.vl_front.specs.declared.fault.DesignFault.TheVariants.{At};

use dt_core::fault::NoMemory;
use vl_module::SynFault;
use vl_tree::fault::{FaultKind, StaticFault};
use vl_tree::token::Token;

/// Why a text gives no design.
#[derive(Clone, Copy, Debug, PartialEq, Eq)]
pub enum DesignFault {
    /// Its first static fault: the phase that finds it (1, clean text; 2, tokens; 3, grammar), the line where it stands, from 1, and
    /// its kind.
    At {
        phase: u8,
        line: u32,
        kind: FaultKind,
    },
    /// It has no fault of these phases, and no module is its top, on the line of its first token. It has no kind of its own among the
    /// shared ones before the other faults of phase 4 have theirs.
    NoTop {
        line: u32,
    },
    /// It has no fault of these, but isn't the text of a sound module with one clocked block.
    NotYetBuilt,
    /// Out of memory.
    Memory,
}

impl From<StaticFault> for DesignFault {
    ghost use Rattle.std.specs.Prelude.{◌≡◌};
    ghost use Rattle.vl_front.specs.Calls.Faults.{of_static};

    ghost from_gives = { λ fault e. e ≡ of_static fault };

    fn from(fault: StaticFault) -> DesignFault {
        match fault {
            StaticFault::At { phase, place, kind } => DesignFault::At {
                phase,
                line: place.line,
                kind,
            },
            StaticFault::Memory => DesignFault::Memory,
        }
    }
}

impl From<SynFault> for DesignFault {
    ghost use Rattle.std.specs.Prelude.{◌≡◌};
    ghost use Rattle.vl_front.specs.Calls.Faults.{of_tree};

    ghost from_gives = { λ fault e. e ≡ of_tree fault };

    fn from(fault: SynFault) -> DesignFault {
        match fault {
            SynFault::NoTree => DesignFault::NotYetBuilt,
            SynFault::Memory => DesignFault::Memory,
        }
    }
}

impl From<NoMemory> for DesignFault {
    ghost use Rattle.std.specs.Prelude.{◌≡◌};
    ghost use Rattle.vl_front.specs.declared.fault.DesignFault.TheVariants.{Memory};

    ghost from_gives = { λ _ e. e ≡ Memory };

    fn from(_: NoMemory) -> DesignFault {
        DesignFault::Memory
    }
}

/// The line of the token of this number; of the last one, where there are no more; the first line, where there is none.
pub fn line_at(tokens: &[Token], number: u32) -> u32
    ensures { result ≡ first.line_at (all_coded tokens.now) number }
{
    match tokens.get((number as usize).min(tokens.len().saturating_sub(1))) {
        Some(token) => token.line,
        None => 1,
    }
}

/// Why tokens are no source, with the line.
pub fn in_source(tokens: &[Token], fault: vl_source::SynFault) -> DesignFault
    ensures { result ≡ of_source (all_coded tokens.now) fault }
{
    match fault {
        vl_source::SynFault::At { token } => in_grammar(FaultKind::Syntax, line_at(tokens, token)),
        vl_source::SynFault::Deep { token } => in_grammar(FaultKind::Deep, line_at(tokens, token)),
        vl_source::SynFault::Memory => DesignFault::Memory,
    }
}

// A fault of the grammar, which is phase 3.
fn in_grammar(kind: FaultKind, line: u32) -> DesignFault
    ensures { result ≡ At 3 line kind }
{
    DesignFault::At {
        phase: 3,
        line,
        kind,
    }
}
