//! The elements of a format, byte by byte.

ghost use Rattle.std.specs.Prelude.{◌≡◌};
ghost use Rattle.message_format.specs.Formatted as spec;
ghost use Rattle.message_format.specs.declared.element.Progress.TheVariants as progress;

use netlist::design::Base;

/// How an item shows its argument: the base, and whether it has the fewest digits.
#[derive(Clone, Copy, Debug, PartialEq, Eq)]
pub struct Item {
    pub base: Base,
    pub fewest: bool,
}

/// An element: a byte of the text, the path of the scope (`%m`), or an item, which shows the next argument.
#[derive(Clone, Copy, Debug, PartialEq, Eq)]
pub enum Element {
    Byte(u8),
    Path,
    Value(Item),
}

// What was read last: nothing of an item, a percent sign, or a percent sign and a 0.
#[derive(Clone, Copy, Debug, PartialEq, Eq)]
pub(crate) enum Progress {
    Outside,
    Percent,
    Zero,
}

// What a byte does: it begins an item or goes on in one, ends an element, or stands in none.
#[derive(Clone, Copy, Debug, PartialEq, Eq)]
pub(crate) enum Step {
    Into(Progress),
    Ends(Element),
    Wrong,
}

pub(crate) fn next_step(progress: Progress, byte: u8) -> Step
    ensures { result ≡ spec.step progress byte }
{
    match progress {
        Progress::Outside => outside_step(byte),
        Progress::Percent => percent_step(byte),
        Progress::Zero => item_step(true, base_of(byte)),
    }
}

// What a byte does that stands in no item.
fn outside_step(byte: u8) -> Step
    ensures { result ≡ spec.step progress.Outside byte }
{
    if byte == b'%' {
        Step::Into(Progress::Percent)
    } else {
        Step::Ends(Element::Byte(byte))
    }
}

// What a byte does after a percent sign.
fn percent_step(byte: u8) -> Step
    ensures { result ≡ spec.step progress.Percent byte }
{
    match byte {
        b'%' => Step::Ends(Element::Byte(byte)),
        b'0' => Step::Into(Progress::Zero),
        b'm' | b'M' => Step::Ends(Element::Path),
        _ => item_step(false, base_of(byte)),
    }
}

// What the letter of an item does: with the fewest digits a number alone is shown.
fn item_step(fewest: bool, base: Option<Base>) -> Step
    ensures { result ≡ spec.item_step fewest base }
{
    match base {
        Some(Base::Character) if fewest => Step::Wrong,
        Some(base) => Step::Ends(Element::Value(Item { base, fewest })),
        None => Step::Wrong,
    }
}

// The base of a letter, of either case.
fn base_of(letter: u8) -> Option<Base>
    ensures { result ≡ spec.base_of letter }
{
    match letter {
        b'b' | b'B' => Some(Base::Binary),
        b'o' | b'O' => Some(Base::Octal),
        b'd' | b'D' => Some(Base::Decimal),
        b'h' | b'H' | b'x' | b'X' => Some(Base::Hexadecimal),
        b'c' | b'C' => Some(Base::Character),
        _ => None,
    }
}
