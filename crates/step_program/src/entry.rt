//! Steps with their slots.

use crate::step::{Slot, Step};

/// A step of a builder, and the slot that has its value.
#[derive(Clone, Copy)]
pub(crate) struct Entry {
    pub step: Step,
    pub slot: Slot,
}
