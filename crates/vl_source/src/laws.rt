//! Laws of sources. A call does nothing: its contract is the law, over all lists of tokens.

ghost use Rattle.vl_source.specs.Laws.{RefusalLaw};

/// Tokens are refused at one token and for one reason, and those of a source not at all.
pub fn refusal_law()
    ensures { RefusalLaw }
{}
