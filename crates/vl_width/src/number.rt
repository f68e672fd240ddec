//! Numbers with a sign.

use dt_core::bits::Bits;

/// A number of a width, and whether it is signed.
#[derive(Clone, Copy, Debug, PartialEq, Eq)]
pub struct Constant {
    pub bits: Bits,
    pub signed: bool,
}
