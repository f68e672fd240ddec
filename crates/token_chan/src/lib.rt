//! Channels: from one partition of a cut design to another, between threads.
//!
//! A channel carries a token for each cycle, in order: what the taker reads of the giver's registers. It is a queue of
//! tokens under a rule, and a queue on the way back for those that the taker returns once it has read them: the giver
//! fills them anew. So `Pairs::pair` and `ruled_pair` alone take memory: no call on an end does, nor `close`.
//!
//! Below: `named_run`, the run that contracts name; the kit's `crossbeam_queue`. Above: what runs partitions on
//! threads, which knows channels by the traits of `ends` and `pairs` alone.
//! Promise: between any two steps, whoever makes them, a channel's queue holds the run's tokens in order, from the
//! count taken up to the count given, and at most as many as its depth (`specs/TokenRule`), and the queue on the way
//! back those that are returned and not reused, in order, at most as many, each of the channel's shape
//! (`specs/ReturnRule`): these are the rules of the queues, so no order of steps breaks them. The state of an end has
//! its own counts, and how far it knows the other's (`specs/Ends`): what it knows of, it is answered. `catch_up` says
//! how both stand; `close` gives the oldest token, and hands over all that wait to be reused. Not said: that a refused
//! call made its own attempt, or that any call returns; calls on ruled ends may wait behind another thread.
#![tactic(auto)]

pub mod ends;
pub mod open;
pub mod pairs;
pub mod queues;
pub mod ruled;
pub mod rules;
pub mod view;
