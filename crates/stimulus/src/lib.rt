//! The whole stimulus: from a source to rows, one after another, or the first refusal with its line.
//!
//! Below: `dt_core`, `dt_io`. Above: `stimulus_laws`, what follows from these definitions; `dessert`, which runs a design over the rows.
//! Promise: `specs/Stimulus` says which rows, or which refusal on which line, the bytes are for data inputs of any width up to
//! `MAX_WIDTH` and names in any order. However the source cuts its bytes, `next_row` gives those rows in order, the end only after a
//! whole stimulus, and else exactly that refusal; `Truncated` only where the source ended. It takes nothing after the bytes among which
//! the first refused one is. `Read` comes only where the source's count of faults rose; in every other answer that count is as before,
//! so no failed read is made again in secret. `specs/Reads` says what a reader has read and what its answers say.
//! It is out of memory only in `new` and in a call that reads line 2.
//! Not said: how many bytes are taken ahead of a row, and that a source at its end isn't asked once more (it isn't).
#![tactic(auto)]

mod buffer;
mod columns;
mod digits;
mod judge;
mod lines;
mod names;
pub mod reader;
pub mod refusal;
mod single;
mod take;
