//! What the program says of itself.

/// Answers `--version`.
pub const VERSION: &[u8] = b"dessert 1\n";

/// Answers `--help`.
pub const HELP: &[u8] = b"dessert: runs a Verilog design to its first failing assertion

  ./dessert sim [lag=N] [top=NAME] FILE... < STIMULUS > WAVEFORM

FILE, 1 to 16 of them, make a module with one clocked block; NAME is the name
of the top module. STIMULUS is read from standard input: line 1 `stimulus 1`,
line 2 `inputs` and the names of the data inputs in any order, then a line for
each cycle, with a hexadecimal value for each name and one space between.

Where a `$stop` executes, the waveform of that cycle and the N cycles before it
(0 to 16384, else 64) goes to standard output, as a VCD that any viewer opens.
The report goes to standard error: the first cycle in which a `$stop` executes,
where it stands, its message and the window, or that there was no failure.

  ./dessert sim lag=4 examples/cnt.v < examples/cnt20.stimulus > cnt.vcd

Status: 0 no failure, 1 a failure, 2 wrong words, 3 the design is refused,
4 the stimulus is refused, 5 a file failed, 6 reading failed, 7 writing the
waveform failed, 8 writing the report failed, 9 no memory. The report is at 2
`usage: word N`, N the number of the first bad word; at 3 `design: FILE:LINE:
KIND` for the first fault of the design, and `design: NotYetBuilt` for one that
isn't built yet; at 4 `stimulus: line N: KIND`.
";
