//! The words of a command line.

ghost use Rattle.std.specs.Prelude.{◌≡◌, ◌≤◌, MatchResult, length, map, drop};
ghost use Rattle.std.specs.List.{list_any};
ghost use Rattle.talk.specs.Words as spec;
ghost use Rattle.talk.specs.Reading as reading;
ghost use Rattle.talk.specs.Named.{job_seen, number_in};
ghost use Rattle.talk.specs.Plain.{named};

use crate::job::{Job, Usage};
use crate::options::{Command, Settings, command_of, set};
use dt_core::limits::{DEFAULT_LAG, MAX_FILES};

/// What the words ask for, or the number of the first bad word. It takes no memory.
pub fn read_words<'a>(words: &'a [&'a str]) -> Result<Job<'a>, Usage>
    ensures { MatchResult result
        (λ job. spec.Asks (named words.now) (job_seen job))
        (λ usage. spec.IsFirstBad (named words.now) (number_in usage)) }
{
    match read_line(words) {
        Ok(job) => Ok(job),
        Err(before) => Err(Usage::Word {
            number: before as u32 + 1,
        }),
    }
}

// What the words ask for, or how many words stand before the first bad one.
fn read_line<'a>(words: &'a [&'a str]) -> Result<Job<'a>, usize>
    ensures value { MatchResult result
        (λ job. reading.read (named words.now) ≡ reading.allowed (job_seen job))
        (λ before. reading.read (named words.now) ≡ reading.bad before) }
    ensures few { MatchResult result (λ _. Unit {0}) (λ before. before ≤ 32) }
{
    match words {
        [] => Err(0),
        [word, rest @ ..] => match command_of(word) {
            None => Err(0),
            Some(command) => read_rest(command, rest),
        },
    }
}

// The same of the words after the command.
fn read_rest<'a>(command: Command, words: &'a [&'a str]) -> Result<Job<'a>, usize>
    ensures value { MatchResult result
        (λ job. reading.read_rest command (named words.now) ≡ reading.allowed (job_seen job))
        (λ before. reading.read_rest command (named words.now) ≡ reading.bad before) }
    ensures few { MatchResult result (λ _. Unit {0}) (λ before. before ≤ 32) }
{
    match read_options(command, words) {
        Err(before) => Err(1 + before),
        Ok((settings, before)) => {
            read_files(command, settings, before, words.split_at(before).1)
        }
    }
}

// What the options at the head of the words are set to, and how many they are; or how many words stand before the
// first bad one.
fn read_options<'a>(command: Command, words: &'a [&'a str]) -> Result<(Settings<'a>, usize), usize>
    ensures value { MatchResult result
        (λ s. reading.options_from command reading.none_set 0 (named words.now)
        ≡ reading.to_files (reading.seen s.0) s.1)
        (λ before. reading.options_from command reading.none_set 0 (named words.now) ≡ reading.stopped before) }
    ensures few { MatchResult result (λ s. s.1 ≤ 2) (λ before. before ≤ 2) }
    ensures within { MatchResult result (λ s. s.1 ≤ length words.now) (λ _. Unit {0}) }
{
    let mut settings = Settings {
        lag: None,
        top: None,
    };
    for (place, word) in words.iter().enumerate() {
        if !has_equals(word.as_bytes()) {
            return Ok((settings, place));
        }
        match set(command, settings, word) {
            None => return Err(place),
            Some(more) => settings = more,
        }
    }
    Err(words.len())
}

// What the words after the options ask for, which stand after so many others behind the command.
fn read_files<'a>(
    command: Command,
    settings: Settings<'a>,
    before: usize,
    words: &'a [&'a str],
) -> Result<Job<'a>, usize>
    requires { before ≤ 2 }
    ensures value { MatchResult result
        (λ job. reading.files_of command (reading.seen settings.entry) before (named words.now)
        ≡ reading.allowed (job_seen job))
        (λ bad. reading.files_of command (reading.seen settings.entry) before (named words.now) ≡ reading.bad bad) }
    ensures few { MatchResult result (λ _. Unit {0}) (λ bad. bad ≤ 32) }
{
    let count = count_files(words);
    if count < words.len() {
        return Err(1 + before + count);
    }
    Ok(job_of(command, settings, words))
}

// The job of a command with settings and files.
fn job_of<'a>(command: Command, settings: Settings<'a>, files: &'a [&'a str]) -> Job<'a>
    ensures { job_seen result ≡ spec.job_by command (reading.seen settings.entry) (named files.now) }
{
    match command {
        Command::Sim => Job::Sim {
            lag: settings.lag.unwrap_or(DEFAULT_LAG),
            top: settings.top,
            files,
        },
    }
}

// How many words from the first on may be the files of one line.
fn count_files(words: &[&str]) -> usize
    ensures value { result ≡ reading.files_from 0 (named words.now) }
    ensures most { result ≤ MAX_FILES }
{
    for (place, word) in words.iter().enumerate() {
        if place >= MAX_FILES {
            return place;
        }
        if !is_file_word(word) {
            return place;
        }
    }
    words.len()
}

// Whether a word may be a file: it isn't empty and has no equals sign.
fn is_file_word(word: &str) -> bool
    ensures { result ≡ spec.is_file_word word.now }
{
    !word.is_empty() && !has_equals(word.as_bytes())
}

// Whether an equals sign is among the bytes.
fn has_equals(bytes: &[u8]) -> bool
    ensures { result ≡ spec.has_equals bytes.now }
{
    for byte in bytes {
        if *byte == b'=' {
            return true;
        }
    }
    false
}
