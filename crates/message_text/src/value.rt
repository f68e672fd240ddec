//! The text of a value.

ghost use Rattle.std.specs.Prelude.{◌≡◌, ◌≤◌, ◌<◌, ◌%◌, ◌^◌, ◌++◌, OnOk};
ghost use Rattle.netlist.specs.Message.{value_text};

use crate::decimal::append_decimal;
use crate::radix::append_radix;
use dt_core::append::push;
use dt_core::fault::NoMemory;
use dt_core::limits::MAX_WIDTH;
use netlist::design::Base;

/// Appends the text of a value of this width and sign in a base, with the fewest digits where that is wanted. After a
/// refusal a part of it may have been appended.
pub fn append_value(
    out: &mut Vec<u8>,
    base: Base,
    fewest: bool,
    signed: bool,
    width: u32,
    value: u128,
) -> Result<(), NoMemory>
    requires wide { (1 ≤ width) × (width ≤ MAX_WIDTH) }
    requires fits { value < 2 ^ width }
    ensures { OnOk result (out.new.items ≡ out.old.items ++ value_text base fewest signed width value) }
{
    match base {
        Base::Binary => append_radix(out, 1, fewest, width, value),
        Base::Octal => append_radix(out, 3, fewest, width, value),
        Base::Decimal => append_decimal(out, fewest, signed, width, value),
        Base::Hexadecimal => append_radix(out, 4, fewest, width, value),
        Base::Character => push(out, &[low_byte(value)]),
    }
}

// The lowest eight bits.
fn low_byte(value: u128) -> u8
    ensures { result ≡ value % 256 }
{
    (value % 256) as u8
}
