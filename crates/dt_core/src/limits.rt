//! The most of everything that is counted.

/// Bytes of one file.
pub const MAX_FILE: u64 = 4_194_304;

/// Files of a design.
pub const MAX_FILES: usize = 16;

/// Bytes of the text of a design once comments, directives and macros are replaced.
pub const MAX_CLEAN: u32 = 16_777_216;

/// Tokens of a design.
pub const MAX_TOKENS: u32 = 1_048_576;

/// How deep a token may stand.
pub const MAX_DEPTH: u32 = 200;

/// Bytes of a name.
pub const MAX_NAME: usize = 255;

/// Bits of a vector.
pub const MAX_WIDTH: u32 = 128;

/// The greatest bound of a range of bits.
pub const MAX_BOUND: u32 = 65_535;

/// Signals of a design.
pub const MAX_SIGNALS: u32 = 65_535;

/// Data inputs of the top module.
pub const MAX_INPUTS: u32 = 1_024;

/// Bits of all data inputs of the top module together.
pub const MAX_INPUT_BITS: u32 = 4_096;

/// Words of all memories of a design together.
pub const MAX_WORDS: u32 = 1_048_576;

/// Statements of a block, unrolled.
pub const MAX_STATEMENTS: u32 = 65_536;

/// Rows of a stimulus.
pub const MAX_ROWS: u32 = 1_048_576;

/// Cycles before the failure at which the window may begin.
pub const MAX_LAG: u32 = 16_384;

/// The lag where the words don't say one.
pub const DEFAULT_LAG: u32 = 64;
