//! Command lines, and what they ask for or their first bad word.

use dt_core::limits::MAX_NAME;
use std::alloc::Global;
use std::test::*;
use talk::job::{Job, Usage};
use talk::words::read_words;
use talk::words_law;

const FILES: [&str; 17] = [
    "1", "2", "3", "4", "5", "6", "7", "8", "9", "10", "11", "12", "13", "14", "15", "16", "17",
];

// Words, and the lag, the top module and the files that they ask for.
#[derive(Clone, Copy)]
struct Line {
    words: &'static [&'static str],
    lag: u32,
    top: Option<&'static [u8]>,
    files: &'static [&'static str],
}

static LINES: [Line; 7] = [
    Line {
        words: &["sim", "a.v"],
        lag: 64,
        top: None,
        files: &["a.v"],
    },
    Line {
        words: &["sim", "lag=0", "a.v", "a.v"],
        lag: 0,
        top: None,
        files: &["a.v", "a.v"],
    },
    Line {
        words: &["sim", "top=module", "lag=16384", "sim"],
        lag: 16384,
        top: Some(b"module"),
        files: &["sim"],
    },
    Line {
        words: &["sim", "lag=4", "top=_a$1", "lag", "top"],
        lag: 4,
        top: Some(b"_a$1"),
        files: &["lag", "top"],
    },
    Line {
        words: &["sim", "top=a", " "],
        lag: 64,
        top: Some(b"a"),
        files: &[" "],
    },
    Line {
        words: &["sim", "top=Z", "--help"],
        lag: 64,
        top: Some(b"Z"),
        files: &["--help"],
    },
    Line {
        words: &[
            "sim", "lag=10", "1", "2", "3", "4", "5", "6", "7", "8", "9", "10", "11", "12", "13",
            "14", "15", "16",
        ],
        lag: 10,
        top: None,
        files: &[
            "1", "2", "3", "4", "5", "6", "7", "8", "9", "10", "11", "12", "13", "14", "15", "16",
        ],
    },
];

// Words, and the number of the first bad one.
static BAD: [(&[&str], u32); 34] = [
    (&[], 1),
    (&[""], 1),
    (&["run", "lag=16385", "a.v"], 1),
    (&["run", "depth=1", "a.v"], 1),
    (&["parts", "a.v"], 1),
    (&["replay", "a.v"], 1),
    (&["check", "a.v"], 1),
    (&["soak", "1"], 1),
    (&["Sim", "a.v"], 1),
    (&["sim ", "a.v"], 1),
    (&["a.v"], 1),
    (&["sim"], 2),
    (&["sim", "lag=16385", "a.v"], 2),
    (&["sim", "lag=4", "lag=4", "a.v"], 3),
    (&["sim", "lag=4"], 3),
    (&["sim", "lag=4", "top=a"], 4),
    (&["sim", "lag=4", "top=a", "lag=5", "a.v"], 4),
    (&["sim", "top=a", "top=b", "a.v"], 3),
    (&["sim", "=a"], 2),
    (&["sim", "a=b.v"], 2),
    (&["sim", "a.v", "lag=4"], 3),
    (&["sim", ""], 2),
    (&["sim", "a.v", ""], 3),
    (&["sim", "lag=01", "a.v"], 2),
    (&["sim", "lag=00", "a.v"], 2),
    (&["sim", "lag=", "a.v"], 2),
    (&["sim", "lag=-1", "a.v"], 2),
    (&["sim", "lag=4294967300", "a.v"], 2),
    (&["sim", "LAG=4", "a.v"], 2),
    (&["sim", "image=0", "a.v"], 2),
    (&["sim", "depth=4", "a.v"], 2),
    (&["sim", "top=", "a.v"], 2),
    (&["sim", "top=1a", "a.v"], 2),
    (&["sim", "top=a-b", "a.v"], 2),
];

// The number of the first bad word, if there is one.
fn bad_word(words: &[&str]) -> Option<u32> {
    match read_words(words) {
        Ok(_) => None,
        Err(Usage::Word { number }) => Some(number),
    }
}

#[test]
fn lines_ask_for_these_jobs(rt: HostRuntime) {
    words_law();
    for line in &LINES {
        match read_words(line.words) {
            Ok(Job::Sim { lag, top, files }) => {
                assert_eq!(rt; lag, line.lag);
                assert_eq!(rt; top, line.top);
                assert_eq!(rt; files, line.files);
            }
            Err(_) => assert!(rt; false),
        }
    }
}

#[test]
fn words_have_this_first_bad_one(rt: HostRuntime) {
    for (words, number) in &BAD {
        assert_eq!(rt; bad_word(words), Some(*number));
    }
}

// The number of the first bad word after `sim`, with 17 files or fewer.
fn bad_with_files(files: usize) -> Option<u32> {
    let mut words = ["sim"; 18];
    words[1..].copy_from_slice(&FILES);
    bad_word(&words[..=files.min(17)])
}

#[test]
fn a_line_has_1_to_16_files(rt: HostRuntime) {
    for (files, bad) in [(0, Some(2)), (1, None), (16, None), (17, Some(18))] {
        assert_eq!(rt; bad_with_files(files), bad);
    }
}

// `top=` and a name of so many bytes.
fn top_word(alloc: Global, length: usize) -> Result<String, Fail> {
    let mut word = String::new(alloc);
    word.push_str("top=")?;
    for _ in 0..length {
        word.push('a')?;
    }
    Ok(word)
}

#[test]
fn a_name_has_255_bytes_at_most(rt: HostRuntime) -> Result<(), Fail> {
    let longest = top_word(rt.alloc(), MAX_NAME)?;
    assert_eq!(rt; bad_word(&["sim", longest.as_str(), "a.v"]), None);
    let longer = top_word(rt.alloc(), MAX_NAME + 1)?;
    assert_eq!(rt; bad_word(&["sim", longer.as_str(), "a.v"]), Some(2));
    Ok(())
}
