//! Laws of the stimulus, as the clauses of a function that does nothing.
//!
//! Below: `stimulus` (definitions, reader). Above: `dessert`, whose proofs cite the laws.
//! Promise: `stimulus_law`: a refusal other than Truncated stays, whatever bytes come after it; what begins a stimulus is
//! refused with nothing but Truncated; and the rows that a reader has given fit the data inputs.
#![tactic(auto)]

ghost use Rattle.std.specs.Prelude.{◌≡◌, ◌≢◌, ◌≤◌, ◌++◌, List, ℕ};
ghost use Rattle.stimulus.specs.Stimulus.{MayGoOn, refused, rows, stimulus};
ghost use Rattle.stimulus.specs.Fits.{AreNamed, AreRows};
ghost use Rattle.stimulus.specs.Reader.{Reader};
ghost use Rattle.stimulus.specs.Reads.{Reads};
ghost use Rattle.stimulus.specs.declared.refusal.Input.{Input};
ghost use Rattle.stimulus.specs.declared.refusal.Refusal.{Refusal};
ghost use Rattle.stimulus.specs.declared.refusal.RefusalKind.TheVariants as k;

/// A refusal other than Truncated stays, whatever bytes come after it; what begins a stimulus is refused with nothing but
/// Truncated; and the rows that a reader has given fit the data inputs.
pub fn stimulus_law()
    ensures stays { (inputs : List Input) (bytes more : List ℕ) (r : Refusal)
        → stimulus inputs bytes ≡ refused r → r.kind ≢ k.Truncated → stimulus inputs (bytes ++ more) ≡ refused r }
    ensures goes_on { (inputs : List Input) (taken rest : List ℕ) (rs : List (List ℕ))
        → stimulus inputs (taken ++ rest) ≡ rows rs → MayGoOn inputs taken }
    ensures fits { (reader : Reader) (taken : List ℕ) (given : List (List ℕ))
        → Reads reader taken given → AreNamed reader.inputs → AreRows reader.inputs given }
{}
