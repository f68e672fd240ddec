//! What the clocked blocks say in a cycle, event by event, and the assertions that fire.

ghost use Rattle.std.specs.Prelude.{◌≡◌, ◌≤◌, ◌<◌, ◌+◌, ◌^◌, true, [], OnOk, drop, length, if◌then◌else◌};
ghost use Rattle.netlist.specs.Message.{value_text};
ghost use Rattle.netlist.specs.Fits.{event_count};
ghost use Rattle.netlist.specs.Run.{is_stop, stop_count};
ghost use Rattle.message_text.specs.Told as told;

use crate::value::append_value;
use dt_core::append::push;
use dt_core::fault::NoMemory;
use dt_core::limits::MAX_WIDTH;
use dt_core::text::Text;
use netlist::design::{Block, Effect, Event, Shown};
use std::alloc::Global;
use std::marker::Model;
use std::mem;

/// An assertion that fired: its number among the stops of all blocks, from 0, and its message.
#[derive(Debug, Drop)]
pub struct Fired {
    pub stop: u32,
    pub message: Text,
}

impl Model for Fired {
    ghost use Rattle.netlist.specs.Run as run;

    ghost Value = { run.Fired };

    ghost view = { λ f. record { stop = f.stop; message = f.message } };
}

/// What an event is given in a cycle: whether its condition isn't 0, and where it is so and the event shows a node,
/// that node's width and value. Where the condition is 0 the width and the value aren't looked at.
#[derive(Clone, Copy)]
pub struct Given {
    pub done: bool,
    pub width: u32,
    pub value: u128,
}

/// The number of the next stop, the text since the last stop of the block, and the assertions that fired, in order.
#[derive(Drop)]
pub struct Telling {
    stop: u32,
    text: Vec<u8>,
    fired: Vec<Fired>,
}

impl Model for Telling {
    ghost use Rattle.message_text.specs.Told.{Told};

    ghost Value = { Told };

    ghost view = { λ t. record { stop = t.stop; text = t.text.items; fired = t.fired.items } };
}

impl Telling {
    /// Nothing is said yet. It takes no memory.
    pub fn new(alloc: Global) -> Telling
        ensures { result ≡ record { stop = 0; text = []; fired = [] } }
    {
        Telling {
            stop: 0,
            text: Vec::new(alloc),
            fired: Vec::new(alloc),
        }
    }

    /// Goes on by the next event of a block: what fired so far and what fires from the event on is what fired after
    /// it and what fires from there on.
    pub fn tell(&mut self, alloc: Global, event: &Event, given: Given) -> Result<(), NoMemory>
        requires fits { told.FitsShown event.now.effect given }
        requires room { self.old.stop < u32.MAX }
        ensures tells { OnOk result (told.Tells self.old self.new event.now given) }
        ensures stop { OnOk result
            (self.new.stop ≡ (if is_stop event.now.effect then self.old.stop + 1 else self.old.stop)) }
    {
        match &event.effect {
            Effect::Said(more) => self.say(more.bytes(), given.done),
            Effect::Showed(shown) => self.show(*shown, given),
            Effect::Stopped(_, _) => self.pass_stop(alloc, given.done),
        }
    }

    /// Goes through the events of a block, each with what it is given.
    pub fn tell_block(
        &mut self,
        alloc: Global,
        events: &[Event],
        given: &[Given],
    ) -> Result<(), NoMemory>
        requires fits { told.FitAll events.now given.now }
        requires room { self.old.stop + length events.now ≤ u32.MAX }
        requires empty { self.old.text ≡ [] }
        ensures tells { OnOk result (told.TellsBlock self.old self.new events.now given.now) }
        ensures stop { OnOk result (self.new.stop ≡ self.old.stop + stop_count events.now) }
        ensures empty { OnOk result (self.new.text ≡ []) }
    {
        for (k, event) in events.iter().enumerate() {
            self.tell(alloc, event, given[k])?;
        }
        self.end_block();
        Ok(())
    }

    /// Goes through the events of these blocks in order. Each event is given something; what the events of a block are
    /// given comes after what those of the blocks before it are given.
    pub fn tell_blocks(
        &mut self,
        alloc: Global,
        blocks: &[Block],
        given: &[Given],
    ) -> Result<(), NoMemory>
        requires fits { told.FitBlocks blocks.now given.now }
        requires room { self.old.stop + event_count blocks.now ≤ u32.MAX }
        requires empty { self.old.text ≡ [] }
        ensures tells { OnOk result (told.TellsBlocks self.old self.new blocks.now given.now) }
        ensures stop { OnOk result (self.new.stop ≡ self.old.stop + told.stops_of blocks.now) }
        ensures empty { OnOk result (self.new.text ≡ []) }
    {
        let mut rest = given;
        for block in blocks {
            self.tell_block(alloc, &block.events, rest)?;
            rest = given_after(rest, block.events.len());
        }
        Ok(())
    }

    // Says a text, where that is done.
    fn say(&mut self, more: &[u8], done: bool) -> Result<(), NoMemory>
        ensures { OnOk result (self.new ≡ told.after_said done more.now self.old) }
    {
        if done {
            push(&mut self.text, more)
        } else {
            Ok(())
        }
    }

    // Shows the value of a node, where that is done.
    fn show(&mut self, shown: Shown, given: Given) -> Result<(), NoMemory>
        requires fits { given.done ≡ true
            → (1 ≤ given.width) × (given.width ≤ MAX_WIDTH) × (given.value < 2 ^ given.width) }
        ensures { OnOk result (self.new ≡ told.after_said given.done
            (value_text shown.base shown.fewest shown.signed given.width given.value) self.old) }
    {
        if given.done {
            append_value(
                &mut self.text,
                shown.base,
                shown.fewest,
                shown.signed,
                given.width,
                given.value,
            )
        } else {
            Ok(())
        }
    }

    // Passes a stop, which fires where that is done.
    fn pass_stop(&mut self, alloc: Global, done: bool) -> Result<(), NoMemory>
        requires { self.old.stop < u32.MAX }
        ensures { OnOk result (self.new ≡ told.after_stop done self.old) }
    {
        let stop = self.stop;
        self.stop += 1;
        if !done {
            return Ok(());
        }
        let message = Text::of_bytes(mem::replace(&mut self.text, Vec::new(alloc)));
        match self.fired.push(Fired { stop, message }) {
            Ok(()) => Ok(()),
            Err(_) => Err(NoMemory),
        }
    }

    /// Ends a block: the text after its last stop is forgotten.
    pub fn end_block(&mut self)
        ensures { self.new ≡ record { stop = self.old.stop; text = []; fired = self.old.fired } }
    {
        self.text.clear();
    }

    /// Begins again for the next cycle: what was told is forgotten. It takes no memory, and the room of the text and of
    /// the list of what fired stays.
    pub fn begin(&mut self)
        ensures { self.new ≡ record { stop = 0; text = []; fired = [] } }
    {
        self.stop = 0;
        self.text.clear();
        self.fired.clear();
    }

    /// The assertions that fired so far, in order.
    pub fn fired_so_far(&self) -> &[Fired]
        ensures { result.now ≡ self.now.fired }
    {
        &self.fired
    }

    /// The assertions that fired, in order.
    pub fn fired(self) -> Vec<Fired>
        ensures { result.items ≡ self.fired }
    {
        self.fired
    }
}

// What is given after the first so many events.
fn given_after(given: &[Given], count: usize) -> &[Given]
    requires { count ≤ length given.now }
    ensures { result.now ≡ drop count given.now }
{
    &given[count..]
}
