//! Changes of a state.

/// What a clock edge may change of a state: a register part, by its number; or a word, by its memory's number and its place
/// among the memory's words, from the least index on.
#[derive(Clone, Copy, Debug, PartialEq, Eq, Drop)]
pub enum Element {
    Register(usize),
    Word(u32, usize),
}

/// An element that took another value, and its old value.
#[derive(Clone, Copy, Drop)]
pub struct Change {
    pub element: Element,
    pub old: u128,
}
