//! The top call over objects in memory: tables of calls, and what comes of each.

ghost use Rattle.std.specs.Prelude.{◌≡◌, ◌<◌};

mod texts;

use dessert::quiet_main;
use dt_core::text::Text;
use dt_io::memory::{MemFiles, MemSink, MemSource};
use flat_sim::steps::Steps;
use std::alloc::Global;
use std::marker::Brand;
use std::sync::ledger::{Blank, Ledger};
use std::test::*;
use texts::{ALONE, COUNTER, DEFINED, GUARDED, HIT, LIMITED, WAVE_0, WAVE_4};

type Words = &'static [&'static str];

type Files = &'static [(&'static str, &'static [u8])];

type Bytes = &'static [u8];

// One call, and what comes of it.
#[derive(Clone, Copy)]
struct Case {
    words: Words,
    files: Files,
    // The stimulus: the header, so many rows `1 0`, so many rows `0 1`, and what follows.
    held: u32,
    counted: u32,
    tail: Bytes,
    // The load, the read, the write and the write of the report that fail, from 1, or 0 for none.
    fails: [u32; 4],
    status: u8,
    text: Bytes,
    // How the waveform begins and ends, and how many times stand in it.
    begins: Bytes,
    ends: Bytes,
    times: u32,
}

// The counter over 20 rows, with a window of five cycles.
fn hits() -> Case {
    Case {
        words: &["sim", "lag=4", "cnt.v"],
        files: &[("cnt.v", COUNTER), ("none.v", b"")],
        held: 0,
        counted: 20,
        tail: b"",
        fails: [0, 0, 0, 0],
        status: 1,
        text: HIT,
        begins: WAVE_4,
        ends: WAVE_4,
        times: 10,
    }
}

// The counter over so many rows, with no waveform.
fn plain(counted: u32, status: u8, text: Bytes) -> Case {
    Case {
        counted,
        status,
        text,
        begins: b"",
        ends: b"",
        times: 0,
        ..hits()
    }
}

// The counter over three rows, in which nothing fires.
fn quiet() -> Case {
    plain(3, 0, b"no failure in 3 cycles\n")
}

// Appends a line so many times.
fn push_lines(text: &mut Vec<u8>, line: &[u8], count: u32) -> Result<(), Fail> {
    for _ in 0..count {
        text.extend_from_slice(line)?;
    }
    Ok(())
}

// The stimulus of a case.
fn stimulus_of(alloc: Global, case: &Case) -> Result<Vec<u8>, Fail> {
    let mut text = Vec::new(alloc);
    text.extend_from_slice(b"stimulus 1\ninputs rst en\n")?;
    push_lines(&mut text, b"1 0\n", case.held)?;
    push_lines(&mut text, b"0 1\n", case.counted)?;
    text.extend_from_slice(case.tail)?;
    Ok(text)
}

// A text of these bytes.
fn text_of(alloc: Global, bytes: &[u8]) -> Result<Text, Fail> {
    let mut all = Vec::new(alloc);
    all.extend_from_slice(bytes)?;
    Ok(Text::of_bytes(all))
}

// The files of these names with these bytes.
fn files_of(alloc: Global, contents: &[(&str, &[u8])], load: u32) -> Result<MemFiles, Fail> {
    let mut files = Vec::new(alloc);
    for (name, content) in contents.iter() {
        files.push((text_of(alloc, name.as_bytes())?, text_of(alloc, content)?))?;
    }
    Ok(MemFiles::new(files, vec![in alloc; load]?))
}

// A sink with room for the texts, which takes 16 bytes at a time.
fn sink_of(alloc: Global, fails: u32) -> Result<MemSink, Fail> {
    match MemSink::new(alloc, 16384, 16, vec![in alloc; fails]?) {
        Ok(sink) => Ok(sink),
        Err(_) => Err("no memory".into()),
    }
}

// How many times stand in a waveform.
fn times(wave: &[u8]) -> u32 {
    let mut count: u32 = 0;
    let mut begins = true;
    for byte in wave {
        if begins && *byte == b'#' {
            count = count.saturating_add(1);
        }
        begins = *byte == b'\n';
    }
    count
}

// Whether the waveform is the one of a case.
fn is_wave(case: &Case, wave: &[u8]) -> bool {
    wave.starts_with(case.begins)
        && wave.ends_with(case.ends)
        && wave.is_empty() == case.begins.is_empty()
        && times(wave) == case.times
}

// Whether the top call answers as the case says.
fn holds(alloc: Global, case: &Case) -> Result<bool, Fail> {
    answers(alloc, case, case.words)
}

// The same with other words.
fn answers(alloc: Global, case: &Case, words: &[&str]) -> Result<bool, Fail> {
    answers_counted::<Brand>(alloc, case, words, Blank::new(1))
}

// The same; its steps count on a ledger of their own.
fn answers_counted<L: Ledger>(
    alloc: Global,
    case: &Case,
    words: &[&str],
    blank: Blank,
) -> Result<bool, Fail>
    requires name { blank.name ≡ L.name }
    requires parts { (blank.parts ≡ L.parts) × (0 < blank.parts) }
{
    let mut files = files_of(alloc, case.files, case.fails[0])?;
    let stimulus = stimulus_of(alloc, case)?;
    let mut source = MemSource::new(stimulus, 16, vec![in alloc; case.fails[1]]?);
    let mut out = sink_of(alloc, case.fails[2])?;
    let mut report = sink_of(alloc, case.fails[3])?;
    let mut steps = Steps::<L>::new(blank);
    let status = quiet_main(
        alloc,
        words,
        &mut files,
        &mut source,
        &mut out,
        &mut report,
        &mut steps,
    );
    Ok(status == case.status && report.bytes() == case.text && is_wave(case, out.bytes()))
}

const ALLOWED: [Words; 6] = [
    &["sim", "cnt.v"],
    &["sim", "lag=0", "cnt.v"],
    &["sim", "lag=16384", "cnt.v"],
    &["sim", "none.v", "cnt.v"],
    &["sim", "top=cnt", "cnt.v"],
    &["sim", "lag=4", "top=cnt", "cnt.v"],
];

// Words, and the report of their first bad one.
static REFUSED: [(Words, Bytes); 16] = [
    (&["sim", "lag=16385", "cnt.v"], b"usage: word 2\n"),
    (&["sim", "lag=04", "cnt.v"], b"usage: word 2\n"),
    (&["sim", "lag=", "cnt.v"], b"usage: word 2\n"),
    (&["sim", "lags=4", "cnt.v"], b"usage: word 2\n"),
    (&["sim", "top=2x", "cnt.v"], b"usage: word 2\n"),
    (&["sim", "depth=4", "cnt.v"], b"usage: word 2\n"),
    (&["sim", "lag=4"], b"usage: word 3\n"),
    (&["sim", "lag=4", "lag=4", "cnt.v"], b"usage: word 3\n"),
    (
        &["sim", "top=cnt", "lag=4", "top=cnt", "cnt.v"],
        b"usage: word 4\n",
    ),
    (&["sim", "cnt.v", "lag=4"], b"usage: word 3\n"),
    (&["sim", "cnt.v", ""], b"usage: word 3\n"),
    (&["sim"], b"usage: word 2\n"),
    (&[], b"usage: word 1\n"),
    (&["run", "cnt.v"], b"usage: word 1\n"),
    (&["soak", "7"], b"usage: word 1\n"),
    (&["replay", "cnt.v"], b"usage: word 1\n"),
];

// Whether each of these words is answered as the case says.
fn are_answered(alloc: Global, words: &[Words], case: Case) -> Result<bool, Fail> {
    for words in words {
        if !holds(alloc, &Case { words, ..case })? {
            return Ok(false);
        }
    }
    Ok(true)
}

#[test]
fn words_have_one_form(rt: HostRuntime) -> Result<(), Fail> {
    assert!(rt; are_answered(rt.alloc(), &ALLOWED, quiet())?);
    Ok(())
}

#[test]
fn the_first_bad_word_has_its_number(rt: HostRuntime) -> Result<(), Fail> {
    for (words, text) in REFUSED.iter() {
        let case = Case {
            words: *words,
            ..plain(3, 2, *text)
        };
        assert!(rt; holds(rt.alloc(), &case)?);
    }
    Ok(())
}

// Files of which one is refused, in order of the words, and the report.
const FAULTS: [(Words, Files, Bytes); 14] = [
    (&["sim", "m.v"], &[("m.v", b"")], b"design: m.v:1: NoTop\n"),
    (
        &["sim", "top=b", "a", "b"],
        &[("a", b"\n"), ("b", b"\nmodule a; endmodule\n")],
        b"design: b:2: NoTop\n",
    ),
    (
        &["sim", "lag=2", "top=b", "a"],
        &[("a", b"module a; endmodule module b; endmodule\n")],
        b"design: NotYetBuilt\n",
    ),
    (
        &["sim", "m.v"],
        &[("m.v", b"module m; endmodule\n")],
        b"design: NotYetBuilt\n",
    ),
    (
        &["sim", "m.v"],
        &[("m.v", b"`define A\n")],
        b"design: m.v:1: NoTop\n",
    ),
    (
        &["sim", "m.v"],
        &[("m.v", b"wire `FOO;\n")],
        b"design: m.v:1: UnknownMacro\n",
    ),
    (
        &["sim", "x.v"],
        &[("x.v", b"`ifdef A\n`else\n")],
        b"design: x.v:1: Unbalanced\n",
    ),
    (
        &["sim", "a", "b"],
        &[("a", b"\n`FOO"), ("b", b"`BAR\n")],
        b"design: a:2: UnknownMacro\n",
    ),
    (
        &["sim", "a", "b"],
        &[("a", b"module a"), ("b", b"(\n\n/*")],
        b"design: b:3: OpenComment\n",
    ),
    (
        &["sim", "a", "b"],
        &[("a", b"`ifdef A"), ("b", b"`FOO\n")],
        b"design: a:1: Unbalanced\n",
    ),
    (
        &["sim", "a", "b"],
        &[("a", b"`define W 4'd\n"), ("b", b"\n\n`W")],
        b"design: b:3: BadNumber\n",
    ),
    (
        &["sim", "a", "b"],
        &[("a", b"1\n2\n3\n"), ("b", b"\"open\n")],
        b"design: b:1: OpenString\n",
    ),
    (
        &["sim", "a", "b"],
        &[("a", b"1\n2\n3"), ("b", b"129'd1")],
        b"design: b:1: TooWide\n",
    ),
    (
        &["sim", "a", "b"],
        &[("a", b"1\n2\n4'q3\n"), ("b", b"")],
        b"design: a:3: BadToken\n",
    ),
];

#[test]
fn a_fault_has_its_file_and_line(rt: HostRuntime) -> Result<(), Fail> {
    for (words, files, text) in FAULTS.iter() {
        let case = Case {
            words: *words,
            files: *files,
            ..plain(3, 3, *text)
        };
        assert!(rt; holds(rt.alloc(), &case)?);
    }
    Ok(())
}

// The load and the write of the report that fail, of three files; the status, and the report.
const LOADS: [(u32, u32, u8, Bytes); 5] = [
    (1, 0, 5, b"file a.v: failed\n"),
    (2, 0, 5, b"file b.v: failed\n"),
    (3, 0, 5, b"file cnt.v: failed\n"),
    (4, 0, 0, b"no failure in 3 cycles\n"),
    (1, 1, 8, b""),
];

// Files are loaded in their order, each once.
#[test]
fn the_first_file_that_is_not_loaded_is_named(rt: HostRuntime) -> Result<(), Fail> {
    for (load, write, status, text) in LOADS.iter() {
        let case = Case {
            words: &["sim", "a.v", "b.v", "cnt.v"],
            files: &[("cnt.v", COUNTER), ("b.v", b""), ("a.v", b"// a\n")],
            fails: [*load, 0, 0, *write],
            ..plain(3, *status, *text)
        };
        assert!(rt; holds(rt.alloc(), &case)?);
    }
    Ok(())
}

// The rows, what follows them, and the read that fails; the status, and the report.
const READS: [(u32, Bytes, u32, u8, Bytes); 15] = [
    (0, b"", 0, 0, b"no failure in 0 cycles\n"),
    (9, b"", 0, 0, b"no failure in 9 cycles\n"),
    (3, b"00 01\r\n", 0, 0, b"no failure in 4 cycles\n"),
    (3, b"0 1", 0, 4, b"stimulus: line 6: Truncated\n"),
    (3, b"0 2\n", 0, 4, b"stimulus: line 6: TooLarge\n"),
    (3, b"0 g\n", 0, 4, b"stimulus: line 6: BadValue\n"),
    (3, b"0\n", 0, 4, b"stimulus: line 6: WrongCount\n"),
    (3, b"\n0 g\n", 0, 4, b"stimulus: line 6: WrongCount\n"),
    (20, b"0 x\n", 0, 4, b"stimulus: line 23: BadValue\n"),
    (20, b"0", 0, 4, b"stimulus: line 23: Truncated\n"),
    (3, b"", 1, 6, b"input: read failed\n"),
    (3, b"", 4, 6, b"input: read failed\n"),
    (3, b"", 5, 0, b"no failure in 3 cycles\n"),
    (
        3,
        b"2 0\n0 1\n0 1\n0 1\n0 1\n",
        5,
        4,
        b"stimulus: line 6: TooLarge\n",
    ),
    (20, b"", 8, 6, b"input: read failed\n"),
];

#[test]
fn the_stimulus_is_read_to_its_end(rt: HostRuntime) -> Result<(), Fail> {
    for (counted, tail, read, status, text) in READS.iter() {
        let case = Case {
            tail: *tail,
            fails: [0, *read, 0, 0],
            ..plain(*counted, *status, *text)
        };
        assert!(rt; holds(rt.alloc(), &case)?);
    }
    Ok(())
}

// The write and the write of the report that fail; the status, the report, and the waveform.
const WRITES: [(u32, u32, u8, Bytes, Bytes, u32); 6] = [
    (0, 0, 1, HIT, WAVE_4, 10),
    (1, 0, 7, b"output: write failed\n", b"", 0),
    (2, 0, 7, b"output: write failed\n", b"$version dessert", 0),
    (2, 2, 8, b"output: write fa", b"$version dessert", 0),
    (0, 1, 8, b"", WAVE_4, 10),
    (0, 2, 8, b"failure at cycle", WAVE_4, 10),
];

#[test]
fn a_write_that_fails_leaves_a_front(rt: HostRuntime) -> Result<(), Fail> {
    for (write, report, status, text, wave, times) in WRITES.iter() {
        let case = Case {
            fails: [0, 0, *write, *report],
            status: *status,
            text: *text,
            begins: *wave,
            ends: *wave,
            times: *times,
            ..hits()
        };
        assert!(rt; holds(rt.alloc(), &case)?);
    }
    Ok(())
}

#[test]
fn a_stop_has_its_file_and_line(rt: HostRuntime) -> Result<(), Fail> {
    let guarded = Case {
        files: &[("cnt.v", GUARDED)],
        text: b"failure at cycle 9\nstop in cnt at cnt.v:10\nr hit 9\nwindow 5 to 9\n",
        ..hits()
    };
    let limited = Case {
        words: &["sim", "lag=1", "limit.vh", "cnt.v"],
        files: &[("cnt.v", LIMITED), ("limit.vh", DEFINED)],
        text: b"failure at cycle 5\nstop in cnt at cnt.v:6\nwindow 4 to 5\n",
        begins: b"$version",
        ends: b"\n#11\n1!\n",
        times: 4,
        ..hits()
    };
    let alone = Case {
        words: &["sim", "lag=0", "cnt.v"],
        counted: 10,
        text: ALONE,
        begins: WAVE_0,
        ends: WAVE_0,
        times: 2,
        ..hits()
    };
    assert!(rt; holds(rt.alloc(), &guarded)?);
    assert!(rt; holds(rt.alloc(), &limited)?);
    assert!(rt; holds(rt.alloc(), &alone)?);
    Ok(())
}

// The words, how many times stand in the waveform, and how the report ends.
const WINDOWS: [(Words, u32, Bytes); 5] = [
    (
        &["sim", "lag=3", "cnt.v"],
        8,
        b"failure at cycle 300\nstop in cnt at cnt.v:9\nr hit 9\nwindow 297 to 300\n",
    ),
    (
        &["sim", "cnt.v"],
        130,
        b"failure at cycle 300\nstop in cnt at cnt.v:9\nr hit 9\nwindow 236 to 300\n",
    ),
    (
        &["sim", "lag=65", "cnt.v"],
        132,
        b"failure at cycle 300\nstop in cnt at cnt.v:9\nr hit 9\nwindow 235 to 300\n",
    ),
    (
        &["sim", "lag=150", "cnt.v"],
        302,
        b"failure at cycle 300\nstop in cnt at cnt.v:9\nr hit 9\nwindow 150 to 300\n",
    ),
    (
        &["sim", "lag=1000", "cnt.v"],
        602,
        b"failure at cycle 300\nstop in cnt at cnt.v:9\nr hit 9\nwindow 0 to 300\n",
    ),
];

// The counter is held at 0 so long that it fails in cycle 300, after many more rows than are kept.
#[test]
fn a_late_window_is_run_again(rt: HostRuntime) -> Result<(), Fail> {
    for (words, times, text) in WINDOWS.iter() {
        let case = Case {
            words: *words,
            held: 291,
            counted: 10,
            text: *text,
            begins: b"$version dessert 1 $end\n",
            ends: b"\n#601\n1!\n",
            times: *times,
            ..hits()
        };
        assert!(rt; holds(rt.alloc(), &case)?);
    }
    Ok(())
}

// Sixteen files, and one more.
#[test]
fn a_design_has_sixteen_files_at_most(rt: HostRuntime) -> Result<(), Fail> {
    let mut words = vec![in rt.alloc(); "none.v"; 17]?;
    words[0] = "sim";
    words[1] = "cnt.v";
    assert!(rt; answers(rt.alloc(), &quiet(), &words)?);
    words.push("none.v")?;
    assert!(rt; answers(rt.alloc(), &plain(3, 2, b"usage: word 18\n"), &words)?);
    Ok(())
}
