//! Tests of `stimulus` through what it makes public: each refusal with its line, long lines, many rows, and that no read is made
//! that isn't needed.
#![tactic(auto)]

#[cfg(test)]
mod lines;
#[cfg(test)]
mod rows;
