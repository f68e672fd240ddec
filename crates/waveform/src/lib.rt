//! The waveform's text: what a design of a whole hierarchy shows in the cycles of a window, as a value change dump.
//!
//! Below: `dt_core`, `dt_io`, `netlist`, `design_names`. It stands on no simulator: who runs the design gives the
//! values. It takes the place of `vcd_text`, which is for designs of one module, once the program runs hierarchies.
//! Promise: header and cycles, one after another, are `specs/Vcd`'s text of the design's tree of scopes and the values.
//! A call that succeeds leaves the sink's count of faults as it was; of one that fails a front is in the sink, and the
//! writer isn't live any more. A reader recovers each value from the lines.
//! Not said: that memory is enough; how long a cycle takes.
#![tactic(auto)]

ghost use Rattle.waveform.specs.Reader.{Recovers, CodesDiffer, BitsTell};

mod cycle;
pub mod fault;
mod form;
mod header;
pub mod lines;
pub mod progress;
pub mod writer;

/// A reader of the lines who keeps the last value of each code knows what each variable shows in each cycle of the
/// window; codes and bits can be read back.
pub fn reader_law()
    ensures recovers { Recovers }
    ensures codes_differ { CodesDiffer }
    ensures bits_tell { BitsTell }
{}
