//! The text that a format and its argument give, and how many arguments it shows.

ghost use Rattle.std.specs.Prelude.{◌≡◌, ◌++◌, OnOk, option_to_list};
ghost use Rattle.flat_ir.specs.Format as spec;
ghost use Rattle.flat_ir.specs.FormatView as view;
ghost use Rattle.flat_ir.specs.Pieces.{CountsItems, JoinsTexts};

use dt_core::append::{push, push_number};
use dt_core::fault::NoMemory;

/// What was read last: nothing of an item, a percent sign, or a percent sign and a 0.
#[derive(Clone, Copy)]
pub enum Progress {
    Outside,
    Percent,
    PercentZero,
}

/// What a byte does: it stands for itself, begins an item or goes on in one, ends one that shows the argument, or stands in no item.
#[derive(Clone, Copy)]
pub enum Step {
    Itself,
    Into(Progress),
    Shows,
    Wrong,
}

pub fn next_step(progress: Progress, byte: u8) -> Step
    ensures { view.step_of result ≡ spec.step (view.progress_of progress) byte }
{
    match progress {
        Progress::Outside => {
            if byte == b'%' {
                Step::Into(Progress::Percent)
            } else {
                Step::Itself
            }
        }
        Progress::Percent => {
            if byte == b'%' {
                Step::Itself
            } else if byte == b'0' {
                Step::Into(Progress::PercentZero)
            } else {
                Step::Wrong
            }
        }
        Progress::PercentZero => {
            if byte == b'd' || byte == b'D' {
                Step::Shows
            } else {
                Step::Wrong
            }
        }
    }
}

/// How many arguments a format shows; None where something stands in it that is no item. It takes no memory.
pub fn items(format: &[u8]) -> Option<usize>
    ensures { result ≡ spec.items format.now }
{
    let mut progress = Progress::Outside;
    let mut count: usize = 0;
    for byte in format {
        match next_step(progress, *byte) {
            Step::Itself => progress = Progress::Outside,
            Step::Into(next) => progress = next,
            Step::Shows => {
                count += 1;
                progress = Progress::Outside;
            }
            Step::Wrong => return None,
        }
    }
    match progress {
        Progress::Outside => Some(count),
        Progress::Percent | Progress::PercentZero => None,
    }
}

/// Appends the text of a format, whose first item shows the argument if there is one; a later item shows nothing.
/// After a refusal a part of it may have been appended.
pub fn write_format(
    into: &mut Vec<u8>,
    format: &[u8],
    argument: Option<u128>,
) -> Result<(), NoMemory>
    ensures { OnOk result (into.new.items ≡ into.old.items ++ spec.format_text format.now (option_to_list argument)) }
{
    let mut progress = Progress::Outside;
    let mut left = argument;
    for byte in format {
        match next_step(progress, *byte) {
            Step::Itself => {
                push(into, &[*byte])?;
                progress = Progress::Outside;
            }
            Step::Into(next) => progress = next,
            Step::Shows => {
                write_argument(into, left)?;
                left = None;
                progress = Progress::Outside;
            }
            Step::Wrong => progress = Progress::Outside,
        }
    }
    Ok(())
}

// Appends the argument's decimal digits, if there is one.
fn write_argument(into: &mut Vec<u8>, argument: Option<u128>) -> Result<(), NoMemory>
    ensures { OnOk result (into.new.items ≡ into.old.items ++ view.digits argument) }
{
    match argument {
        Some(number) => push_number(into, number),
        None => Ok(()),
    }
}

/// A format is pieces, one after another: its items are counted exactly where it is spelled of some, and its text is theirs, joined.
pub fn format_law()
    ensures items { CountsItems }
    ensures text { JoinsTexts }
{}

#[cfg(test)]
mod tests {
    use super::{items, write_format};
    use std::test::Fail;

    #[test]
    fn writes_items(rt: HostRuntime) -> Result<(), Fail> {
        assert_eq!(rt; items(b"100%% of %0D"), Some(1));
        assert_eq!(rt; items(b"%5d"), None);
        let mut text = Vec::new(rt.alloc());
        write_format(&mut text, b"100%% of %0D;", Some(u128::MAX))?;
        write_format(&mut text, b" all", None)?;
        let whole = b"100% of 340282366920938463463374607431768211455; all".as_slice();
        assert_eq!(rt; text.as_slice(), whole);
        Ok(())
    }
}
