//! Numbers of some bits in a list of bytes, the lowest bit of the first byte first.

ghost use Rattle.std.specs.Prelude.{◌≡◌, ◌+◌, ◌*◌, ◌/◌, ◌%◌, ◌^◌, ◌<◌, ◌≤◌, length};
ghost use Rattle.dt_core.specs.Packing.{number, put};

use crate::bits::Bits;
use crate::limits::MAX_WIDTH;

/// The number that `width` bits from bit `from` on are, read a byte at a time.
pub fn read(bytes: &[u8], from: usize, width: u32) -> u128
    requires wide { width ≤ MAX_WIDTH }
    requires within { from + width ≤ 8 * length bytes.now }
    requires counted { from + width < 2 ^ 64 }
    ensures { result ≡ number bytes.now / 2 ^ from % 2 ^ width }
{
    let mut value: u128 = 0;
    let mut done: u32 = 0;
    while done < width {
        let piece = piece_at(from + done as usize, width - done);
        let part = field(u128::from(bytes[piece.byte]), piece.low, piece.count);
        value += u128::from(part) << done;
        done += piece.count;
    }
    value
}

/// Puts a value to the bits from bit `from` on, a byte at a time; all other bits stay.
pub fn write(bytes: &mut [u8], from: usize, value: Bits)
    requires within { from + value.width ≤ 8 * length bytes.old }
    requires counted { from + value.width < 2 ^ 64 }
    ensures { number bytes.new ≡ put (number bytes.old) from value.width value.value }
{
    let width = value.width();
    let mut done: u32 = 0;
    while done < width {
        let piece = piece_at(from + done as usize, width - done);
        let part = field(value.value(), done, piece.count);
        bytes[piece.byte] = with_field(bytes[piece.byte], piece.low, piece.count, part);
        done += piece.count;
    }
}

// A part of a byte: the byte's number, the part's lowest bit, and how many bits it has.
#[derive(Clone, Copy)]
struct Piece {
    byte: usize,
    low: u32,
    count: u32,
}

// The part of a byte that begins at bit `at`, of at most `most` bits.
fn piece_at(at: usize, most: u32) -> Piece
    requires { 0 < most }
    ensures place { 8 * result.byte + result.low ≡ at }
    ensures within { result.low + result.count ≤ 8 }
    ensures some { (0 < result.count) × (result.count ≤ most) }
{
    let low = (at % 8) as u32;
    Piece {
        byte: at / 8,
        low,
        count: most.min(8 - low),
    }
}

// The bits of a number from `low` on, of which there are `count`.
fn field(value: u128, low: u32, count: u32) -> u8
    requires { (low < MAX_WIDTH) × (count ≤ 8) }
    ensures { result ≡ value / 2 ^ low % 2 ^ count }
{
    ((value >> low) & ((1 << count) - 1)) as u8
}

// The byte with other bits from `low` on, of which there are `count`.
fn with_field(byte: u8, low: u32, count: u32, part: u8) -> u8
    requires within { low + count ≤ 8 }
    requires fits { part < 2 ^ count }
    ensures { result ≡ put byte low count part }
{
    let byte = u32::from(byte);
    let above = ((byte >> (low + count)) << count) + u32::from(part);
    let below = byte & ((1 << low) - 1);
    ((above << low) + below) as u8
}
