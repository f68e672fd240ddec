//! Texts of whole formats: which are bad, and what the events of the others say.

ghost use Rattle.std.specs.Prelude.{◌<◌};

use dt_core::append::push;
use message_format::events::{Argument, message_events};
use message_format::fault::FormatFault;
use message_text::value::append_value;
use netlist::design::{Effect, Event};
use std::alloc::Global;
use std::test::*;

// A format, its arguments, and what it says of them.
#[derive(Clone, Copy)]
struct Case {
    format: &'static str,
    arguments: &'static [Argument],
    text: &'static str,
}

// 200 of eight bits, its bits as a signed number, and 65.
const FULL: Argument = Argument {
    node: 0,
    signed: false,
};

const SIGNED: Argument = Argument {
    node: 0,
    signed: true,
};

const LETTER: Argument = Argument {
    node: 1,
    signed: false,
};

static SAID: [Case; 15] = [
    Case {
        format: "",
        arguments: &[],
        text: "",
    },
    Case {
        format: "no item",
        arguments: &[],
        text: "no item",
    },
    Case {
        format: "%%",
        arguments: &[],
        text: "%",
    },
    Case {
        format: "100%%%%",
        arguments: &[],
        text: "100%%",
    },
    Case {
        format: "%m:%M",
        arguments: &[],
        text: "top.u:top.u",
    },
    Case {
        format: "%d",
        arguments: &[FULL],
        text: "200",
    },
    Case {
        format: "<%d|%d|%d>",
        arguments: &[FULL, SIGNED, LETTER],
        text: "<200| -56| 65>",
    },
    Case {
        format: "%0d,%0D,%0d",
        arguments: &[FULL, SIGNED, LETTER],
        text: "200,-56,65",
    },
    Case {
        format: "%b%B%0b",
        arguments: &[FULL, SIGNED, LETTER],
        text: "11001000110010001000001",
    },
    Case {
        format: "%o %O %0o",
        arguments: &[FULL, SIGNED, LETTER],
        text: "310 310 101",
    },
    Case {
        format: "%h %H %0h",
        arguments: &[FULL, SIGNED, LETTER],
        text: "c8 c8 41",
    },
    Case {
        format: "%x %X %0X",
        arguments: &[FULL, SIGNED, LETTER],
        text: "c8 c8 41",
    },
    Case {
        format: "%0x%m%0d.",
        arguments: &[FULL, SIGNED],
        text: "c8top.u-56.",
    },
    Case {
        format: "%c%C",
        arguments: &[LETTER, LETTER],
        text: "AA",
    },
    Case {
        format: "%d%%%h",
        arguments: &[FULL, SIGNED],
        text: "200%c8",
    },
];

static BAD: [(&str, &[Argument]); 16] = [
    ("%", &[]),
    ("a%", &[]),
    ("%0", &[]),
    ("%0", &[FULL]),
    ("%0%", &[]),
    ("%0m", &[]),
    ("%0c", &[FULL]),
    ("%00d", &[FULL]),
    ("%1d", &[FULL]),
    ("%s", &[FULL]),
    ("%t", &[FULL]),
    ("% d", &[FULL]),
    ("%d", &[]),
    ("none", &[FULL]),
    ("%d %d", &[FULL]),
    ("%d", &[FULL, SIGNED]),
];

// The value of a node: 0 has 200, the others have 65.
fn value_of(node: u32) -> u128
    ensures { result < 256 }
{
    if node == 0 { 200 } else { 65 }
}

// Appends what an effect says.
fn say(text: &mut Vec<u8>, effect: &Effect) -> Result<(), Fail> {
    match effect {
        Effect::Said(more) => push(text, more.bytes())?,
        Effect::Showed(shown) => append_value(
            text,
            shown.base,
            shown.fewest,
            shown.signed,
            8,
            value_of(shown.node),
        )?,
        Effect::Stopped(..) => {}
    }
    Ok(())
}

// What events say that have this condition.
fn said(alloc: Global, condition: u32, events: &[Event]) -> Result<Vec<u8>, Fail> {
    let mut text = Vec::new(alloc);
    for event in events {
        if event.condition == condition {
            say(&mut text, &event.effect)?;
        }
    }
    Ok(text)
}

#[test]
fn events_say_the_text_of_a_format(rt: HostRuntime) -> Result<(), Fail> {
    let alloc: Global = rt.alloc();
    for case in &SAID {
        let events = message_events(alloc, 7, b"top.u", case.format.as_bytes(), case.arguments)?;
        let text = said(alloc, 7, &events)?;
        assert_eq!(rt; text.as_slice(), case.text.as_bytes());
    }
    Ok(())
}

#[test]
fn a_format_without_a_text_is_bad(rt: HostRuntime) -> Result<(), Fail> {
    let alloc: Global = rt.alloc();
    for (format, arguments) in &BAD {
        let answer = message_events(alloc, 7, b"top.u", format.as_bytes(), arguments);
        assert!(rt; matches!(answer, Err(FormatFault::Bad)), "{format}");
    }
    Ok(())
}
