//! The tables of commands and options, and what the options of a line are set to.

ghost use Rattle.std.specs.Prelude.{◌≡◌, ◌+◌, ◌≤◌, MatchOption, nat_le, Some};
ghost use Rattle.std.specs.List.{list_all};
ghost use Rattle.std.specs.Char.{is_ascii_digit};
ghost use Rattle.talk.specs.Words as spec;
ghost use Rattle.talk.specs.Reading as reading;

use dt_core::limits::{MAX_LAG, MAX_NAME};

/// A command.
#[derive(Clone, Copy, PartialEq, Eq, Debug, Drop)]
pub enum Command {
    /// `sim`.
    Sim,
}

/// An option of a command.
#[derive(Clone, Copy, PartialEq, Eq, Debug, Drop)]
pub enum Key {
    /// `lag=N`.
    Lag,
    /// `top=NAME`.
    Top,
}

/// What the options of a line are set to, where they are set.
#[derive(Clone, Copy)]
pub(crate) struct Settings<'a> {
    pub(crate) lag: Option<u32>,
    pub(crate) top: Option<&'a [u8]>,
}

// The command of a word.
pub(crate) fn command_of(word: &str) -> Option<Command>
    ensures { result ≡ reading.command_of word.now }
{
    if word == "sim" {
        Some(Command::Sim)
    } else {
        None
    }
}

// Whether a command has an option.
fn has(command: Command, key: Key) -> bool
    ensures { result ≡ spec.has (spec.options_of command) key }
{
    match command {
        Command::Sim => matches!(key, Key::Lag | Key::Top),
    }
}

// The option that a word sets, and its value.
fn setting_of(word: &str) -> Option<(Key, &[u8])>
    ensures { MatchOption result (reading.setting_of word.now ≡ None)
        (λ s. reading.setting_of word.now ≡ Some (spec.set_to s.0 s.1.now)) }
{
    let bytes = word.as_bytes();
    if let Some(value) = bytes.strip_prefix(b"lag=") {
        return Some((Key::Lag, value));
    }
    let value = bytes.strip_prefix(b"top=")?;
    Some((Key::Top, value))
}

// With the option that a word sets, where the command has it, it is not set yet, and the value is one of its own.
pub(crate) fn set<'a>(
    command: Command,
    settings: Settings<'a>,
    word: &'a str,
) -> Option<Settings<'a>>
    ensures value { MatchOption result
        (reading.set command (reading.seen settings.entry) word.now ≡ None)
        (λ s. reading.set command (reading.seen settings.entry) word.now ≡ Some (reading.seen s)) }
    ensures more { MatchOption result (Unit {0})
        (λ s. reading.count_set (reading.seen s) ≡ reading.count_set (reading.seen settings.entry) + 1) }
{
    let (key, value) = setting_of(word)?;
    if !has(command, key) {
        return None;
    }
    match key {
        Key::Lag => set_lag(settings, value),
        Key::Top => set_top(settings, value),
    }
}

// With a lag, where none is set.
fn set_lag<'a>(settings: Settings<'a>, value: &'a [u8]) -> Option<Settings<'a>>
    ensures value { MatchOption result
        (reading.set_lag (reading.seen settings.entry) value.now ≡ None)
        (λ s. reading.set_lag (reading.seen settings.entry) value.now ≡ Some (reading.seen s)) }
    ensures more { MatchOption result (Unit {0})
        (λ s. reading.count_set (reading.seen s) ≡ reading.count_set (reading.seen settings.entry) + 1) }
{
    match settings.lag {
        Some(_) => None,
        None => {
            let lag = read_within(value, MAX_LAG)?;
            Some(Settings {
                lag: Some(lag),
                top: settings.top,
            })
        }
    }
}

// With the name of the top module, where none is set.
fn set_top<'a>(settings: Settings<'a>, value: &'a [u8]) -> Option<Settings<'a>>
    ensures value { MatchOption result
        (reading.set_top (reading.seen settings.entry) value.now ≡ None)
        (λ s. reading.set_top (reading.seen settings.entry) value.now ≡ Some (reading.seen s)) }
    ensures more { MatchOption result (Unit {0})
        (λ s. reading.count_set (reading.seen s) ≡ reading.count_set (reading.seen settings.entry) + 1) }
{
    match settings.top {
        Some(_) => None,
        None => {
            if !is_name(value) {
                return None;
            }
            Some(Settings {
                lag: settings.lag,
                top: Some(value),
            })
        }
    }
}

// The number of a decimal of at most `most`.
fn read_within(value: &[u8], most: u32) -> Option<u32>
    requires { most ≤ MAX_LAG }
    ensures value { result ≡ spec.number_within 0 most value.now }
    ensures most { MatchOption result (Unit {0}) (λ number. number ≤ most) }
{
    if !is_decimal(value) {
        return None;
    }
    read_number(value, most)
}

// Whether these are the digits of a number, without a leading zero, `0` aside.
fn is_decimal(digits: &[u8]) -> bool
    ensures { result ≡ spec.is_decimal digits.now }
{
    match digits {
        [] => false,
        [first, rest @ ..] => are_digits(digits) && (*first != b'0' || rest.is_empty()),
    }
}

// Whether each byte is a digit.
fn are_digits(bytes: &[u8]) -> bool
    ensures { result ≡ list_all is_ascii_digit bytes.now }
{
    for byte in bytes {
        if !byte.is_ascii_digit() {
            return false;
        }
    }
    true
}

// The number of these digits, where it is `most` at most.
fn read_number(digits: &[u8], most: u32) -> Option<u32>
    requires { most ≤ MAX_LAG }
    ensures value { result ≡ spec.some_when (nat_le (spec.decimal_of digits.now) most) (spec.decimal_of digits.now) }
    ensures most { MatchOption result (Unit {0}) (λ number. number ≤ most) }
{
    let mut number: u32 = 0;
    for digit in digits {
        number = 10 * number + u32::from(digit.saturating_sub(b'0'));
        if number > most {
            return None;
        }
    }
    Some(number)
}

// Whether a byte is a letter or `_`.
fn begins_name(byte: u8) -> bool
    ensures { result ≡ spec.begins_name byte }
{
    byte.is_ascii_alphabetic() || byte == b'_'
}

// Whether each byte is a letter, a digit, `_` or `$`.
fn are_in_name(bytes: &[u8]) -> bool
    ensures { result ≡ list_all spec.is_in_name bytes.now }
{
    for byte in bytes {
        if !(begins_name(*byte) || byte.is_ascii_digit() || *byte == b'$') {
            return false;
        }
    }
    true
}

// Whether these bytes are a simple name of the language; a keyword is one here.
fn is_name(bytes: &[u8]) -> bool
    ensures { result ≡ spec.is_name bytes.now }
{
    match bytes {
        [] => false,
        [first, rest @ ..] => {
            begins_name(*first) && bytes.len() <= MAX_NAME && are_in_name(rest)
        }
    }
}
