//! The values of rare steps, by the operations of `bit_ops`.

ghost use Rattle.std.specs.Prelude.{◌≡◌, ◌-◌, ◌^◌, length, map, slice_index_or, [], IfSome, IfNone, pos, ◌-ℤ◌, if◌then◌else◌};
ghost use Rattle.bit_ops.specs.Operators as ops;
ghost use Rattle.step_program.specs.Fits as fits;
ghost use Rattle.step_program.specs.Values as values;
ghost use Rattle.step_program.specs.Running as running;

use crate::step::{Calculation, Number, Operand, Rare, Slot};
use crate::words::MemoryWords;
use bit_ops::laws::places_law;
use bit_ops::{binary, concat, cut_to, extend, insert, low, select, unary};
use dt_core::bits::Bits;
use dt_core::limits::MAX_WIDTH;

/// A whole number: from 0 up, or so many below -1.
#[derive(Clone, Copy)]
pub enum Whole {
    Up(u128),
    Below(u128),
}

// The number in a slot.
fn slot_value(slot: Slot, narrow: &[u64], wide: &[u128]) -> u128
    requires { fits.IsSlot (length narrow.now) (length wide.now) slot }
    ensures { result ≡ values.slot_value (running.slots narrow.now wide.now) slot }
{
    match slot {
        Slot::Narrow(number) => u128::from(narrow[number as usize]),
        Slot::Wide(number) => wide[number as usize],
    }
}

// The low bits of a number.
fn cut(value: u128, width: u32) -> Bits
    requires { fits.IsWidth width }
    ensures width { result.width ≡ width }
    ensures value { result.value ≡ ops.low width value }
{
    Bits::of(width, low(value, width))
}

// An operand's bits.
fn operand(of: Operand, narrow: &[u64], wide: &[u128]) -> Bits
    requires { fits.OperandFits (length narrow.now) (length wide.now) of }
    ensures width { result.width ≡ of.width }
    ensures value { result.value ≡ values.operand_value (running.slots narrow.now wide.now) of }
{
    cut(slot_value(of.slot, narrow, wide), of.width)
}

// 2^width - 1
fn ones(width: u32) -> u128
    requires { fits.IsWidth width }
    ensures { result ≡ 2 ^ width - 1 }
{
    u128::MAX >> (MAX_WIDTH - width)
}

/// The whole number that bits stand for.
pub fn read(bits: Bits, signed: bool) -> Whole
    ensures { running.whole_of result ≡ ops.integer signed bits.width bits.value }
{
    let value = bits.value();
    let before = ones(bits.width()) - value;
    if signed && before < value {
        Whole::Below(before)
    } else {
        Whole::Up(value)
    }
}

// The whole number that an operand stands for.
fn number(of: Number, narrow: &[u64], wide: &[u128]) -> Whole
    requires { fits.OperandFits (length narrow.now) (length wide.now) of.of }
    ensures { running.whole_of result ≡ values.number_value (running.slots narrow.now wide.now) of }
{
    read(operand(of.of, narrow, wide), of.signed)
}

// The number as a place; none where it is so far from 0 that no bits of a vector lie there.
fn near(place: Whole) -> Option<i64>
    ensures some { IfSome result (λ z. z ≡ running.whole_of place) }
    ensures none { IfNone result (running.IsFar (running.whole_of place)) }
{
    match place {
        Whole::Up(number) if number < u128::from(MAX_WIDTH) => Some(number as i64),
        Whole::Below(number) if number < u128::from(MAX_WIDTH) => Some(-1 - number as i64),
        Whole::Up(_) | Whole::Below(_) => None,
    }
}

// So many bits from a place upward.
fn selected(of: Bits, place: Whole, width: u32) -> Bits
    requires { fits.IsWidth width }
    ensures width { result.width ≡ width }
    ensures value { result.value ≡ ops.select (running.whole_of place) width of.value }
{
    match near(place) {
        Some(place) => select(of, place, width),
        None => Bits::of(width, 0),
    }
}

/// The bits with those of another from a place upward; what falls outside is lost.
pub fn inserted(of: Bits, place: Whole, part: Bits) -> Bits
    ensures width { result.width ≡ of.width }
    ensures value { result.value ≡ ops.insert of.width (running.whole_of place) part.width part.value of.value }
{
    places_law();
    match near(place) {
        Some(place) => insert(of, place, part),
        None => of,
    }
}

// The word at a place; 0 outside.
fn word_at(words: &MemoryWords, place: u128) -> u128
    ensures { result ≡ values.word_at (values.contents words.now) (pos place) }
{
    match words {
        MemoryWords::Narrow(words) if place < words.len() as u128 => u128::from(
            words[place as usize],
        ),
        MemoryWords::Wide(words) if place < words.len() as u128 => words[place as usize],
        MemoryWords::Narrow(_) | MemoryWords::Wide(_) => 0,
    }
}

// The word of a memory at a place; 0 where there is none.
fn memory_word(words: &[MemoryWords], memory: u32, place: u128) -> u128
    ensures { result ≡ values.word_at (slice_index_or (map values.contents words.now) memory []) (pos place) }
{
    match words.get(memory as usize) {
        Some(words) => word_at(words, place),
        None => 0,
    }
}

// The word of a memory at an index; 0 where it has none there.
fn word(words: &[MemoryWords], memory: u32, index: Whole, least: u32) -> u128
    ensures { result ≡ values.word_at (slice_index_or (map values.contents words.now) memory [])
        (running.whole_of index -ℤ pos least) }
{
    match index {
        Whole::Up(index) if index >= u128::from(least) => memory_word(
            words,
            memory,
            index - u128::from(least),
        ),
        Whole::Up(_) | Whole::Below(_) => 0,
    }
}

// One of two vectors of the same width.
fn chosen(condition: Bits, yes: Bits, no: Bits) -> Bits
    requires { yes.width ≡ no.width }
    ensures width { result.width ≡ yes.width }
    ensures value { result.value ≡ (if ops.holds condition.value then yes.value else no.value) }
{
    if condition.value() != 0 { yes } else { no }
}

/// The value of a rare step. It takes no memory.
pub(crate) fn rare_value(rare: &Rare, words: &[MemoryWords], narrow: &[u64], wide: &[u128]) -> Bits
    requires { fits.RareFits (length narrow.now) (length wide.now) rare.now }
    ensures width { result.width ≡ rare.now.width }
    ensures value { result.value
        ≡ values.rare_value (map values.contents words.now) (running.slots narrow.now wide.now) rare.now }
{
    let width = rare.width;
    match rare.calculation {
        Calculation::Constant { value } => Bits::of(width, value),
        Calculation::Unary { operator, of } => unary(operator, operand(of, narrow, wide)),
        Calculation::Binary {
            operator,
            signed,
            left,
            right,
        } => {
            binary(
                operator,
                operand(left, narrow, wide),
                operand(right, narrow, wide),
                signed,
            )
        }
        Calculation::Extend { signed, of } => extend(operand(of, narrow, wide), width, signed),
        Calculation::Cut { of } => cut_to(operand(of, narrow, wide), width),
        Calculation::Select { of, place } => {
            selected(
                operand(of, narrow, wide),
                number(place, narrow, wide),
                width,
            )
        }
        Calculation::Insert { of, place, part } => {
            inserted(
                operand(of, narrow, wide),
                number(place, narrow, wide),
                operand(part, narrow, wide),
            )
        }
        Calculation::Concat { left, right } => concat(
            operand(left, narrow, wide),
            operand(right, narrow, wide),
        ),
        Calculation::Choose { condition, yes, no } => {
            chosen(
                operand(condition, narrow, wide),
                operand(yes, narrow, wide),
                operand(no, narrow, wide),
            )
        }
        Calculation::Word {
            memory,
            least,
            index,
        } => {
            cut(
                word(words, memory, number(index, narrow, wide), least),
                width,
            )
        }
    }
}
