//! What stands outside: sources, sinks and files, the real ones, and ones in memory that fail in given calls.
//!
//! Below: `dt_core`. Above: all that reads or writes, and the program.
//! Promise: a count of faults never falls. A call that succeeds leaves it as it was, and a failure comes only where it rose, so
//! no failed call is made again in secret. A write appends a front of its piece; `write_all` appends all, or a front and fails.
//! `load` appends a whole file or leaves the vector as it was, and tells a file that is too long from one that could not be
//! read; where every file that is there can be read, it fails only for a name that has none.
//! An object in memory fails exactly in the calls that its list names, a sink also where its room is full, and files also where
//! there is none of the name.
//! Not said: what standard input and the files on the disk hold, which file the system opens for a name, how many bytes one
//! call of a real reader takes, or that bytes written to the real outside arrive. Tests run these on readers and writers that
//! fail and count their calls.
#![tactic(auto)]

mod calls;
pub mod memory;
pub mod outside;
pub mod real;
