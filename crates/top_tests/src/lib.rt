//! Tests of `dessert` through the one call that it makes public: words, files and bytes in memory, and what comes of them.
#![tactic(auto)]

#[cfg(test)]
mod calls;
