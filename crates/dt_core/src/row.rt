//! Rows: the values of the data inputs in one cycle, packed.

ghost use Rattle.std.specs.Prelude.{◌≡◌, ◌*◌, ◌^◌, ◌<◌, ◌≤◌, length, map, sum, IfOk, SomeIff, IsSomeAnd, slice_get, slice_set, option_map};
ghost use Rattle.dt_core.specs.BitVectors.{plain, widths_of};
ghost use Rattle.dt_core.specs.Packing.{number, unpacked};

use crate::bits::Bits;
use crate::fault::NoMemory;
use crate::packing::{read, write};
use std::alloc::Global;
use std::marker::Model;

/// A list of bit vectors, one per data input in the order of the ports.
///
/// It takes a byte per value for its width, and the bits of the values follow one another without gaps.
#[derive(Debug, Drop)]
pub struct Row {
    widths: Vec<u8>,
    bytes: Vec<u8>,
}

impl Model for Row {
    ghost use Rattle.std.specs.Prelude.{List};
    ghost use Rattle.dt_core.specs.BitVectors.{BitVector};
    ghost use Rattle.dt_core.specs.Packing.{number, unpacked, Packs};

    ghost Value = { List BitVector };

    ghost view = { λ r. unpacked r.widths.items (number r.bytes.items) };

    ghost invariant = { λ r. Packs r.widths.items r.bytes.items };
}

impl Row {
    /// The row of these values.
    pub fn new(alloc: Global, values: Vec<Bits>) -> Result<Row, NoMemory>
        ensures { IfOk result (λ r. r ≡ map plain values.items) }
    {
        let widths = widths(alloc, values.as_slice())?;
        let Some(bits) = total(widths.as_slice()) else {
            return Err(NoMemory);
        };
        let mut bytes = vec![in alloc; 0; bits.div_ceil(8)]?;
        pack(&mut bytes, values.as_slice());
        Ok(Row { widths, bytes })
    }

    /// How many values it has.
    pub fn len(&self) -> usize
        ensures { result ≡ length self.now }
    {
        self.widths.len()
    }

    /// The value of data input `k`, from 0; none where the row has no such. It takes no memory.
    pub fn value(&self, k: u32) -> Option<Bits>
        ensures { option_map plain result ≡ slice_get self.now k }
    {
        let k = k as usize;
        if k >= self.widths.len() {
            return None;
        }
        let width = u32::from(self.widths[k]);
        let from = bits_of(&self.widths[..k]);
        Bits::new(width, read(self.bytes.as_slice(), from, width))
    }

    /// Puts another value of the same width in place `k`. It takes no memory.
    pub fn set(&mut self, k: u32, value: Bits)
        requires { IsSomeAnd (slice_get self.old k) (λ b. b.width ≡ value.width) }
        ensures { self.new ≡ slice_set self.old k (plain value) }
    {
        let from = bits_of(&self.widths[..k as usize]);
        write(&mut self.bytes, from, value);
    }
}

// The width of each value.
fn widths(alloc: Global, values: &[Bits]) -> Result<Vec<u8>, NoMemory>
    ensures { IfOk result (λ v. v.items ≡ widths_of values.now) }
{
    let mut widths = Vec::with_capacity(alloc, values.len())?;
    for value in values {
        if widths.push(value.width() as u8).is_err() {
            return Err(NoMemory);
        }
    }
    Ok(widths)
}

// The bits of all values together; none from 2^64 bits on, which no memory holds.
fn total(widths: &[u8]) -> Option<usize>
    ensures { SomeIff result (sum widths.now < 2 ^ 64) (sum widths.now) }
{
    let mut total: usize = 0;
    for width in widths {
        match total.checked_add(usize::from(*width)) {
            Some(more) => total = more,
            None => return None,
        }
    }
    Some(total)
}

// The bits of values of these widths together.
fn bits_of(widths: &[u8]) -> usize
    requires { sum widths.now < 2 ^ 64 }
    ensures { result ≡ sum widths.now }
{
    widths.iter().map(|width| usize::from(*width)).sum()
}

// Packs the values, the first at the lowest bits.
fn pack(bytes: &mut [u8], values: &[Bits])
    requires room { sum (widths_of values.now) ≤ 8 * length bytes.old }
    requires counted { sum (widths_of values.now) < 2 ^ 64 }
    ensures { unpacked (widths_of values.now) (number bytes.new) ≡ map plain values.now }
{
    let mut from: usize = 0;
    for value in values {
        write(bytes, from, *value);
        from += value.width() as usize;
    }
}
