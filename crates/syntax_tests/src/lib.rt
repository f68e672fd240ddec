//! Tests of the readers of the whole grammar through what they make public: token lists with the tree that they begin with,
//! or the place of their fault.
#![tactic(auto)]

#[cfg(test)]
mod expressions;
#[cfg(test)]
mod sources;
#[cfg(test)]
mod statements;
#[cfg(test)]
mod words;
