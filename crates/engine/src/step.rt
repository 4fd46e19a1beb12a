ghost use Rattle.std.specs.Prelude.{◌≡◌, ℕ, List, length, true};
ghost use Rattle.levels.specs.declared.level.Party.TheVariants.{Host};
ghost use Rattle.levels.specs.Kept.{IsRoster, IsComplete};
ghost use Rattle.file_calls.specs.Spelling.{is_call};
ghost use Rattle.events.specs.declared.event.Event.{Event};
ghost use Rattle.events.specs.declared.event.Event.TheVariants.{Ask, Arrive, Carry};
ghost use Rattle.events.specs.Scripts.{is_known, IsEvent};
ghost use Rattle.machine.specs.Setup.{Setup};
ghost use Rattle.machine.specs.Machine.{state};
ghost use Rattle.machine.specs.Laws.{HandsNothing};
ghost use Rattle.engine.specs.inside.Facts.{Fits};
ghost use Rattle.engine.specs.inside.Events.{IsSend, Joins};
ghost use Rattle.engine.specs.inside.Standing.{SetupOf, NetworkStands};
ghost use Rattle.engine.specs.inside.Ends.{EndsEvent, row_said};
ghost use Rattle.engine.specs.inside.Alone.{HasFiles};

use crate::halt::Halt;
use crate::machine_laws::machine_laws;
use crate::merging::SentRow;
use crate::network::Network;
use events::{Event, Stream};
use file_calls::{Call, write_call};
use frame::{MESSAGE_LIMIT, pieces};
use levels::{Party, Roster};
use ring_link::Gate;
use seal_core::Seal;
use std::thread::Threads;

/// The row of a message, if it is sent.
fn row_of(roster: &Roster, from: Party, to: Party, message: &[u8]) -> Option<SentRow>
    ensures { result ≡ row_said roster.now from to message.now }
{
    if from == to || !roster.same_partition(from, to) || message.len() > MESSAGE_LIMIT {
        return None;
    }
    Some(SentRow {
        stream: Stream { from, to },
        pieces: pieces(message.len()),
    })
}

impl<S: Seal + Send + Sync + Copy> Network<S> {
    /// A host sends a message.
    fn say<R: Threads, G: Gate + Sync>(
        &mut self,
        rt: &R,
        gate: &G,
        roster: &Roster,
        from: u8,
        to: Party,
        message: &[u8],
    ) -> Result<Option<SentRow>, Halt>
        ensures { (m : Setup) (past : List Event) (e : Event)
            → SetupOf m S.sealed_text roster.now → Fits m past
            → is_known roster.now (Host from) ≡ true → IsSend m e from to message.now
            → Joins m (state m past) e from to message.now
            → HandsNothing m (state m past) e (Host from)
            → NetworkStands m past self.old.desks self.old.files
            → EndsEvent m past e self.new.desks self.new.files result }
    {
        machine_laws();
        self.send(rt, gate, from, to, message)?;
        Ok(row_of(roster, Party::Host(from), to, message))
    }

    /// A host sends a call to the manager unit of its level.
    fn ask<R: Threads, G: Gate + Sync>(
        &mut self,
        rt: &R,
        gate: &G,
        roster: &Roster,
        from: u8,
        call: &Call,
    ) -> Result<Option<SentRow>, Halt>
        requires { is_call call.now ≡ true }
        ensures { (m : Setup) (past : List Event) → SetupOf m S.sealed_text roster.now
            → Fits m past → is_known roster.now (Host from) ≡ true
            → NetworkStands m past self.old.desks self.old.files
            → EndsEvent m past (Ask from call.now) self.new.desks self.new.files result }
    {
        machine_laws();
        let Some(partition) = roster.partition_of(Party::Host(from)) else {
            return Ok(None);
        };
        let text = write_call(self.alloc, call)?;
        self.say(rt, gate, roster, from, Party::Manager(partition), &text)
    }

    /// A piece of a message that was sent comes to a unit.
    fn hand_piece<R: Threads, G: Gate + Sync>(
        &mut self,
        rt: &R,
        gate: &G,
        stream: Stream,
        message: u32,
        piece: u8,
        at: Party,
    ) -> Result<Option<SentRow>, Halt>
        requires { HasFiles at self.old.files }
        ensures { (m : Setup) (past : List Event) → m.sealed ≡ S.sealed_text → Fits m past
            → is_known m.roster stream.to ≡ true → is_known m.roster at ≡ true
            → NetworkStands m past self.old.desks self.old.files
            → EndsEvent m past (Arrive stream message piece at)
            self.new.desks self.new.files result }
    {
        machine_laws();
        match at {
            Party::Host(address) => {
                self.arrive(rt, gate, stream, message, piece, address)?;
                Ok(None)
            }
            Party::Manager(partition) => {
                self.arrive_alone(rt, gate, stream, message, piece, partition)
            }
        }
    }

    /// A message that was sent comes to a unit.
    fn hand_message<R: Threads, G: Gate + Sync>(
        &mut self,
        rt: &R,
        gate: &G,
        stream: Stream,
        message: u32,
        at: Party,
    ) -> Result<Option<SentRow>, Halt>
        requires { HasFiles at self.old.files }
        ensures { (m : Setup) (past : List Event) → m.sealed ≡ S.sealed_text → Fits m past
            → is_known m.roster stream.to ≡ true → is_known m.roster at ≡ true
            → NetworkStands m past self.old.desks self.old.files
            → EndsEvent m past (Carry stream message at) self.new.desks self.new.files result }
    {
        machine_laws();
        match at {
            Party::Host(address) => {
                self.carry(rt, gate, stream, message, address)?;
                Ok(None)
            }
            Party::Manager(partition) => self.carry_alone(rt, gate, stream, message, partition),
        }
    }

    /// An event happens: what it made a party send, if it made one send.
    pub fn step<R: Threads, G: Gate + Sync>(
        &mut self,
        rt: &R,
        gate: &G,
        roster: &Roster,
        event: &Event,
    ) -> Result<Option<SentRow>, Halt>
        requires kept { IsRoster roster.now }
        requires complete { IsComplete roster.now }
        requires event { IsEvent roster.now event.now }
        requires levels { length self.old.files.manager.levels ≡ length roster.now.levels }
        ensures { (m : Setup) (past : List Event) → SetupOf m S.sealed_text roster.now
            → Fits m past → NetworkStands m past self.old.desks self.old.files
            → EndsEvent m past event.now self.new.desks self.new.files result }
    {
        machine_laws();
        match event {
            Event::Send { from, to, message } => {
                self.say(rt, gate, roster, *from, *to, message.bytes())
            }
            Event::Ask { from, call } => self.ask(rt, gate, roster, *from, call.call()),
            Event::Arrive {
                stream,
                message,
                piece,
                at,
            } => self.hand_piece(rt, gate, *stream, *message, *piece, *at),
            Event::Carry {
                stream,
                message,
                at,
            } => self.hand_message(rt, gate, *stream, *message, *at),
            Event::Forge { at, frame } => self.forge(rt, gate, roster, *at, frame.bytes()),
            Event::Tamper {
                stream,
                message,
                piece,
                at,
                edits,
            } => self.tamper(rt, gate, roster, *stream, *message, *piece, *at, edits),
        }
    }
}
