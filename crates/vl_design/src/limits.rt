//! The most of what a hierarchy is made of.

/// Instances of a design, the top among them.
pub const MAX_INSTANCES: u32 = 4_096;

/// How deep an instance may lie, where the top lies at 1.
pub const MAX_INSTANCE_DEPTH: u32 = 32;

/// Turns of one generate loop.
pub const MAX_TURNS: u32 = 4_096;

/// Tokens of all items of all instances, those in a loop once a turn.
pub const MAX_EXPANDED: u32 = 4_194_304;
