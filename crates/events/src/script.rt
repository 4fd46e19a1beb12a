ghost use Rattle.std.specs.Prelude.{◌≡◌, ℕ, ◌<◌, ◌≤◌, [], length, true, ◌&&◌, IsTrue};
ghost use Rattle.levels.specs.Kept.{IsComplete};
ghost use Rattle.levels.specs.Rosters.{partition_of};
ghost use Rattle.file_calls.specs.Spelling.{is_call};
ghost use Rattle.events.specs.Scripts.{is_known, has_level, is_call_named, is_named, is_action_named, is_row_named, HasBlockNumber, HasNumbers, EventFits, AddsRow, AddsEvent, IsScript, line_of};
ghost use Rattle.events.specs.declared.script.ScriptStop.TheVariants.{OutOfMemory};

use crate::event::{Event, Stream};
use file_calls::Call;
use levels::{Party, Roster, Sealing};
use std::alloc::{AllocFailed, Global};
use std::marker::Model;
use untrusted_store::{PlanRow, StoreAction};

/// The most events of a script.
const EVENT_LIMIT: usize = 100_000;

/// The most rows of a script's plan.
const ROW_LIMIT: usize = 100_000;

/// Why a row or an event was not added.
#[derive(Clone, Copy, Debug, PartialEq, Eq)]
pub enum ScriptStop {
    /// It names a party or a level that the roster doesn't have.
    Name,
    /// There are as many as a script holds.
    Many,
    OutOfMemory,
}

impl<T: Drop> From<AllocFailed<T>> for ScriptStop {
    ghost from_gives = { λ _ stop. stop ≡ OutOfMemory };

    fn from(_failed: AllocFailed<T>) -> ScriptStop {
        ScriptStop::OutOfMemory
    }
}

/// A roster, what the store does, and the events that happen to the hosts and units, in order.
#[derive(Debug, Drop)]
pub struct Script {
    roster: Roster,
    rows: Vec<PlanRow>,
    events: Vec<Event>,
}

impl Model for Script {
    ghost use Rattle.events.specs.ScriptView.{ScriptView};

    ghost Value = { ScriptView };

    ghost use Rattle.events.specs.Scripts.{IsScript};
    ghost use Rattle.events.specs.inside.Scripts.{view_of};

    ghost view = { view_of };

    ghost invariant = { λ a. IsScript (view_of a) };
}

fn is_known(roster: &Roster, party: Party) -> bool
    ensures { result ≡ is_known roster.now party }
{
    roster.partition_of(party).is_some()
}

fn has_level(roster: &Roster, level: u8) -> bool
    ensures { result ≡ has_level roster.now level }
{
    level < roster.level_count()
}

/// Whether the roster has the level that a call names, where it names one.
fn is_call_named(roster: &Roster, call: &Call) -> bool
    ensures named { result ≡ is_call_named roster.now call.now }
    ensures fits { HasBlockNumber call.now → is_call call.now ≡ true }
{
    match call {
        Call::Put { name, content } | Call::Append { name, content } => {
            let (_name, _content) = (name.bytes(), content.bytes());
            true
        }
        Call::Get { level, name } | Call::GetBlock { level, name, .. } => {
            let _name = name.bytes();
            has_level(roster, *level)
        }
        Call::List { level } => has_level(roster, *level),
        Call::Remove { name } => {
            let _name = name.bytes();
            true
        }
    }
}

/// Whether the roster has both parties of a stream, and the unit at which something is handed over.
fn is_handed(roster: &Roster, stream: Stream, at: Party) -> bool
    ensures { result ≡
        (is_known roster.now stream.from && is_known roster.now stream.to
        && is_known roster.now at) }
{
    is_known(roster, stream.from) && is_known(roster, stream.to) && is_known(roster, at)
}

/// Whether the roster has all parties and levels that an event names.
fn is_named(roster: &Roster, event: &Event) -> bool
    ensures named { result ≡ is_named roster.now event.now }
    ensures fits { IsTrue result → HasNumbers event.now → EventFits event.now }
{
    match event {
        Event::Send { from, to, message } => {
            let _message = message.bytes();
            is_known(roster, Party::Host(*from)) && is_known(roster, *to)
        }
        Event::Ask { from, call } => {
            is_known(roster, Party::Host(*from)) && is_call_named(roster, call.call())
        }
        Event::Arrive {
            stream,
            message,
            at,
            ..
        } => {
            let _message = *message;
            is_handed(roster, *stream, *at)
        }
        Event::Carry {
            stream,
            message,
            at,
        } => {
            let _message = *message;
            is_handed(roster, *stream, *at)
        }
        Event::Forge { at, frame } => {
            let _bytes = frame.bytes();
            is_known(roster, *at)
        }
        Event::Tamper {
            stream,
            message,
            at,
            edits,
            ..
        } => {
            let (_message, _edits) = (*message, edits.pairs());
            is_handed(roster, *stream, *at)
        }
    }
}

/// Whether the roster has the reader of a row, and the level that its action names.
fn is_row_named(roster: &Roster, row: PlanRow) -> bool
    ensures { result ≡ is_row_named roster.now row }
{
    let is_action_named = match row.action {
        StoreAction::Of { level, .. } => has_level(roster, level),
        StoreAction::Honest | StoreAction::Flip { .. } | StoreAction::Gone => true,
    };
    has_level(roster, row.reader.0) && is_action_named
}

impl Script {
    /// A script with no row and no event.
    pub fn start(alloc: Global, roster: Roster) -> Script
        requires { IsComplete roster }
        ensures { result ≡ record { roster = roster; rows = []; events = [] } }
    {
        let _complete = roster.is_complete();
        Script {
            roster,
            rows: Vec::new(alloc),
            events: Vec::new(alloc),
        }
    }

    /// Adds a row of the store's plan behind the others.
    pub fn add_plan(&mut self, row: PlanRow) -> Result<(), ScriptStop>
        ensures { AddsRow self.old self.new row result }
    {
        if !is_row_named(&self.roster, row) {
            return Err(ScriptStop::Name);
        }
        if self.rows.len() >= ROW_LIMIT {
            return Err(ScriptStop::Many);
        }
        self.rows.push(row)?;
        Ok(())
    }

    /// Adds an event behind the others.
    pub fn add_event(&mut self, event: Event) -> Result<(), ScriptStop>
        requires { HasNumbers event }
        ensures { AddsEvent self.old self.new event result }
    {
        if !is_named(&self.roster, &event) {
            return Err(ScriptStop::Name);
        }
        if self.events.len() >= EVENT_LIMIT {
            return Err(ScriptStop::Many);
        }
        self.events.push(event)?;
        Ok(())
    }

    /// The line, from 1, on which an event stands in the script's text. Events are counted from 0.
    pub fn line_of(&self, event: u32) -> u32
        requires { event < length self.now.events }
        ensures { result ≡ line_of self.now event }
    {
        let roster = &self.roster;
        let keys = match roster.sealing() {
            Sealing::Clear => 0,
            Sealing::Des => u32::from(roster.key_count()) + 2,
        };
        let above = u32::from(roster.level_count()) + keys + u32::from(roster.host_count());
        above + self.rows.len() as u32 + event + 3
    }

    pub fn roster(&self) -> &Roster
        ensures roster { result.now ≡ self.now.roster }
        ensures kept { IsScript self.now }
    {
        &self.roster
    }

    /// What the store does, in the order of the lines.
    pub fn rows(&self) -> &[PlanRow]
        ensures { result.now ≡ self.now.rows }
    {
        &self.rows
    }

    pub fn events(&self) -> &[Event]
        ensures { result.now ≡ self.now.events }
    {
        &self.events
    }
}
