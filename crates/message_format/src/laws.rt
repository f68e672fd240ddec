//! Laws of formats. A call does nothing: its contract is the law.

ghost use Rattle.message_format.specs.Laws.{ElementsLaw};

/// The elements that are computed are those that a format is spelled of; there are none where it is spelled of none.
pub fn format_law()
    ensures { ElementsLaw }
{}
