//! Ground: bit vectors, texts and what is appended to them, rows, places, faults, and the limits of what is read.
//!
//! Below: `itoa` (decimal numbers). Above: every crate.
//! Promise: a `Bits` is a width from 1 to `MAX_WIDTH` and a number below 2^width; a `Text` is its list of bytes, a `Row` its list
//! of bit vectors.
//! `append` puts a piece, or a number's decimal digits, after what a text holds.
//! A row of n values that have b bits together keeps n bytes for their widths and b / 8 bytes, rounded up, for their bits.
//! Clauses see a row as a list of plain records (`specs/BitVectors`); `specs/Packing` says how they lie in bytes.
//! Also here, since every crate above may cite them: `specs/Causes` (faults outside and their causes), `specs/Least`.
//! Not said: that memory is enough.
#![tactic(auto)]

pub mod append;
pub mod bits;
pub mod fault;
pub mod limits;
mod packing;
pub mod place;
pub mod row;
pub mod text;
