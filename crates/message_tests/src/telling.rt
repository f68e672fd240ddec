//! What fires of two blocks: texts since the last stop of the block, numbers of stops, and what isn't done.

ghost use Rattle.std.specs.Prelude.{◌≡◌, ◌≤◌, ◌<◌, ◌+◌, OnOk};

use dt_core::place::Place;
use dt_core::text::Text;
use message_text::telling::{Given, Telling};
use netlist::design::{Base, Block, Effect, Event, Shown};
use std::alloc::Global;
use std::test::*;

// What an event is given: -56 of eight bits, if it shows a value.
fn given(done: bool) -> Given
    ensures { (result.width ≡ 8) × (result.value ≡ 200) }
{
    Given {
        done,
        width: 8,
        value: 200,
    }
}

// Says a text, where that is done.
fn say(alloc: Global, telling: &mut Telling, text: &[u8], done: bool) -> Result<(), Fail>
    requires { telling.old.stop < 10 }
    ensures { OnOk result (telling.new.stop ≤ telling.old.stop) }
{
    let event = Event {
        condition: 0,
        effect: Effect::Said(Text::copied(alloc, text)?),
    };
    telling.tell(alloc, &event, given(done))?;
    Ok(())
}

// Shows the value in decimal, with the fewest digits.
fn show(alloc: Global, telling: &mut Telling, done: bool) -> Result<(), Fail>
    requires { telling.old.stop < 10 }
    ensures { OnOk result (telling.new.stop ≤ telling.old.stop) }
{
    let event = Event {
        condition: 0,
        effect: Effect::Showed(Shown {
            node: 0,
            signed: true,
            base: Base::Decimal,
            fewest: true,
        }),
    };
    telling.tell(alloc, &event, given(done))?;
    Ok(())
}

// Passes a stop, which fires where that is done.
fn stop(alloc: Global, telling: &mut Telling, done: bool) -> Result<(), Fail>
    requires { telling.old.stop < 10 }
    ensures { OnOk result (telling.new.stop ≤ telling.old.stop + 1) }
{
    let place = Place { token: 0, line: 1 };
    let event = Event {
        condition: 0,
        effect: Effect::Stopped(place, false),
    };
    telling.tell(alloc, &event, given(done))?;
    Ok(())
}

#[test]
fn a_message_is_what_was_said_since_the_last_stop(rt: HostRuntime) -> Result<(), Fail> {
    let alloc: Global = rt.alloc();
    let mut telling = Telling::new(alloc);
    say(alloc, &mut telling, b"n is ", true)?;
    say(alloc, &mut telling, b"not ", false)?;
    show(alloc, &mut telling, true)?;
    stop(alloc, &mut telling, true)?;
    say(alloc, &mut telling, b"once", true)?;
    stop(alloc, &mut telling, false)?;
    show(alloc, &mut telling, false)?;
    say(alloc, &mut telling, b" more", true)?;
    stop(alloc, &mut telling, true)?;
    say(alloc, &mut telling, b"forgotten", true)?;
    telling.end_block();
    stop(alloc, &mut telling, true)?;
    let fired = telling.fired();
    assert_eq!(rt; fired.len(), 3);
    assert_eq!(rt; fired[0].stop, 0);
    assert_eq!(rt; fired[0].message.bytes(), b"n is -56".as_slice());
    assert_eq!(rt; fired[1].stop, 2);
    assert_eq!(rt; fired[1].message.bytes(), b"once more".as_slice());
    assert_eq!(rt; fired[2].stop, 3);
    assert_eq!(rt; fired[2].message.bytes(), b"".as_slice());
    Ok(())
}

#[test]
fn a_block_is_told_at_once(rt: HostRuntime) -> Result<(), Fail> {
    let alloc: Global = rt.alloc();
    let said = Event {
        condition: 0,
        effect: Effect::Said(Text::copied(alloc, b"n is ")?),
    };
    let shown = Event {
        condition: 0,
        effect: Effect::Showed(Shown {
            node: 0,
            signed: true,
            base: Base::Decimal,
            fewest: false,
        }),
    };
    let stopped = Event {
        condition: 0,
        effect: Effect::Stopped(Place { token: 0, line: 1 }, true),
    };
    let events = vec![in alloc; said, shown, stopped]?;
    let mut telling = Telling::new(alloc);
    telling.tell_block(alloc, &events, &[given(true), given(true), given(true)])?;
    let fired = telling.fired();
    assert_eq!(rt; fired.len(), 1);
    assert_eq!(rt; fired[0].stop, 0);
    assert_eq!(rt; fired[0].message.bytes(), b"n is  -56".as_slice());
    Ok(())
}

#[test]
fn blocks_are_told_in_order_and_cycle_after_cycle(rt: HostRuntime) -> Result<(), Fail> {
    let alloc: Global = rt.alloc();
    let said = Event {
        condition: 0,
        effect: Effect::Said(Text::copied(alloc, b"lost")?),
    };
    let first = Event {
        condition: 0,
        effect: Effect::Stopped(Place { token: 0, line: 1 }, false),
    };
    let more = Event {
        condition: 0,
        effect: Effect::Said(Text::copied(alloc, b"more")?),
    };
    let second = Event {
        condition: 0,
        effect: Effect::Stopped(Place { token: 0, line: 1 }, true),
    };
    let quiet = Block {
        scope: 0,
        events: vec![in alloc; first, said]?,
    };
    let loud = Block {
        scope: 0,
        events: vec![in alloc; more, second]?,
    };
    let blocks = vec![in alloc; quiet, loud]?;
    let mut telling = Telling::new(alloc);
    telling.tell_blocks(
        alloc,
        &blocks,
        &[given(false), given(true), given(true), given(true)],
    )?;
    assert_eq!(rt; telling.fired_so_far().len(), 1);
    telling.begin();
    telling.tell_blocks(
        alloc,
        &blocks,
        &[given(true), given(true), given(false), given(true)],
    )?;
    let fired = telling.fired();
    assert_eq!(rt; fired.len(), 2);
    assert_eq!(rt; fired[0].stop, 0);
    assert_eq!(rt; fired[0].message.bytes(), b"".as_slice());
    assert_eq!(rt; fired[1].stop, 1);
    assert_eq!(rt; fired[1].message.bytes(), b"".as_slice());
    Ok(())
}
