//! The board of a gang: what leaders and laggers on several threads let each other know.
//!
//! A leader's word tells its position and whether it is halted, a lagger's word its position; the fire word is the
//! least cycle in which a leader has reported that an assertion fires. Each leader and each lagger has a post, with
//! which it alone makes steps on its own words, and remembers what it has seen of others.
//!
//! Below: `board_rule`, the rule of the board's words and its steps; `token_net`, which says what holds of posts and
//! what a post allows; `named_run`, the run that contracts name; the kit's `atomic_table`. Above: what runs
//! partitions on threads.
//! Promise: between any two steps, whoever makes them, the words are those of posts for which `PostsHold` of
//! `token_net` holds: it is the rule of the table, so no order of steps breaks it. Each call is one step of
//! `token_net`, on the post that it is handed; what it answers is what that step found. `specs/PostStates` is what a
//! contract sees of a post. All calls but `Board::new` take no memory. Not said: that threads run beside each other,
//! or that anything is ever reported or raised.
#![tactic(auto)]

mod accessors;
mod begin;
pub mod board;
mod catch_up;
pub mod posts;
pub mod seen;
