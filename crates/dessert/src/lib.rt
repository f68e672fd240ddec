//! The top call: words, files and a stimulus in, a status, a waveform and a report out.
//!
//! Below: `talk` (words to job, report), `vl_front` (text to design), `stimulus` (its text to rows), `window_run` (a
//! design's run over rows, and the waveform of a window), `design_names` (paths and stops), `dt_io` (the outside). Above:
//! `dessert_cli`, the program. `top` is the way through; `sources`, `inputs`, `rows`, `answers` and `write` are its steps,
//! and `ended` is how a call ends.
//! Promise: `quiet_main` answers what `specs/Headline` says: a status with its cause (`specs/Answer`), the texts of the
//! design's own run (`specs/Outcome`, `specs/Reported`), no count of faults that rose but that of the cause, and at most a
//! step for each row that was read and one for each cycle of the window (`specs/Steps`). Where all is well outside
//! (`specs/Complete`) the status is 0, 1 or 9. What stands in `specs/Calls` is between the functions here, and nothing of
//! it is in that promise.
//! Not said: that memory is enough; what real files and streams hold.
#![tactic(auto)]

mod answers;
mod ended;
mod inputs;
mod rows;
mod sources;
mod top;
mod write;

pub use sources::spot_law;
pub use top::quiet_main;
