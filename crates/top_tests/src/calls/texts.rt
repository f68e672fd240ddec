//! Designs, reports and waveforms of the tests.

/// A counter that stops at 9.
pub const COUNTER: &[u8] = b"module cnt(input clk, input rst, input en, output reg [3:0] r);
  always @(posedge clk) begin
    if (rst)
      r <= 4'd0;
    else if (en)
      r <= r + 4'd1;
    if (r == 4'd9) begin
      $display(\"r hit %0d\", r);
      $stop;
    end
  end
endmodule
";

/// The report of its failure, with a window of five cycles.
pub const HIT: &[u8] = b"failure at cycle 9\nstop in cnt at cnt.v:9\nr hit 9\nwindow 5 to 9\n";

/// The same with a window of one cycle.
pub const ALONE: &[u8] = b"failure at cycle 9\nstop in cnt at cnt.v:9\nr hit 9\nwindow 9 to 9\n";

/// The counter within a condition that holds: each of its lines stands one further on.
pub const GUARDED: &[u8] = b"`ifndef SYNTHESIS
module cnt(input clk, input rst, input en, output reg [3:0] r);
  always @(posedge clk) begin
    if (rst)
      r <= 4'd0;
    else if (en)
      r <= r + 4'd1;
    if (r == 4'd9) begin
      $display(\"r hit %0d\", r);
      $stop;
    end
  end
endmodule
`endif
";

/// A counter whose limit the file before defines.
pub const LIMITED: &[u8] = b"module cnt(input clk, input rst, input en, output reg [3:0] r);
  always @(posedge clk) begin
    if (rst) r <= 4'h0;
    else if (en) r <= r + 4'b1;
    if (r == `LIMIT)
      $stop; /* here */
  end
endmodule";

pub const DEFINED: &[u8] = b"// the limit
`define LIMIT 4'o5";

/// The counter's waveform from cycle 5 to 9.
pub const WAVE_4: &[u8] = b"$version dessert 1 $end
$timescale 1 ns $end
$scope module cnt $end
$var wire 1 ! clk $end
$var wire 1 \" rst $end
$var wire 1 # en $end
$var reg 4 $ r $end
$upscope $end
$enddefinitions $end
#10
$dumpvars
0!
0\"
1#
b0101 $
$end
#11
1!
#12
0!
b0110 $
#13
1!
#14
0!
b0111 $
#15
1!
#16
0!
b1000 $
#17
1!
#18
0!
b1001 $
#19
1!
";

/// Its waveform in cycle 9 alone.
pub const WAVE_0: &[u8] = b"$version dessert 1 $end
$timescale 1 ns $end
$scope module cnt $end
$var wire 1 ! clk $end
$var wire 1 \" rst $end
$var wire 1 # en $end
$var reg 4 $ r $end
$upscope $end
$enddefinitions $end
#18
$dumpvars
0!
0\"
1#
b1001 $
$end
#19
1!
";
