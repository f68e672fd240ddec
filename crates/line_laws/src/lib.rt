//! A law of the grammar: the tree of a text doesn't depend on where its lines break.
//!
//! Below: `vl_tree` (tokens, trees, grammar). Above: nothing; it holds of the definitions, whatever reads them.
//! Promise: `lines_law`: where tokens are a source, the same tokens on other lines are the same source, on those lines.
#![tactic(auto)]

ghost use Rattle.line_laws.specs.Lines.{LinesLaw};

/// The tree of tokens doesn't depend on their lines. A call does nothing: its contract is the law, over all lists of tokens.
pub fn lines_law()
    ensures { LinesLaw }
{}
