//! Tests of `gang_board` and `token_chan` through what they make public: what no clause says, that calls succeed and
//! that threads run them beside each other.
//!
//! Rounds of calls stand in modules of their own, with no tests in them, so that what measures them can call them
//! too. Each names a run of its own (`specs/Runs`), in which its calls are allowed.
//!
//! Below: `gang_board`, `token_chan`, `board_rule`, `named_run`. Above: the program that measures them.
#![tactic(auto)]

#[cfg(test)]
mod boards;
#[cfg(test)]
mod channels;
pub mod leaders_and_laggers;
pub mod posts;
pub mod tokens;
