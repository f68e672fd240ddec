//! Why a waveform was not written.

use thiserror::Error;

/// Why a waveform was not written.
#[derive(Clone, Copy, Debug, PartialEq, Eq, Drop, Error)]
pub enum VcdFault {
    /// The sink failed; its count of faults has risen.
    #[error("the waveform was not written")]
    Write,
    /// Out of memory.
    #[error("no memory was to be had")]
    Memory,
}
