//! The outline of a design: its scopes and signals one after another.

/// A line of the outline: a scope by its number begins, a signal by its number stands in the innermost scope, or the
/// innermost scope ends.
#[derive(Clone, Copy, Debug, PartialEq, Eq)]
pub enum Entry {
    Scope(u32),
    Signal(u32),
    End,
}
