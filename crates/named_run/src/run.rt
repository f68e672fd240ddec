//! The name of a run.

ghost use Rattle.named_run.specs.Named.{RunData, no_run};

use std::marker::Brand;

/// A run, for contracts alone: what makes channels and boards takes one as a type parameter, and what it makes keeps
/// that run as plain data.
pub trait RunName {
    ghost run: { RunData };
}

impl RunName for Brand {
    ghost run = { no_run 0 };
}
