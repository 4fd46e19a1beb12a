ghost use Rattle.std.specs.Prelude.{◌≡◌, ◌≢◌, ℕ, ◌<◌, ◌≤◌, List, length, true, Some, IfSome, IfNone, IfOk, OnOk};
ghost use Rattle.levels.specs.declared.level.Party.TheVariants.{Manager};
ghost use Rattle.events.specs.declared.event.Event.{Event};
ghost use Rattle.events.specs.declared.event.Event.TheVariants.{Arrive, Carry};
ghost use Rattle.events.specs.Scripts.{is_known};
ghost use Rattle.machine.specs.Setup.{Setup};
ghost use Rattle.machine.specs.Low.{place_of};
ghost use Rattle.machine.specs.Sends.{sending_of};
ghost use Rattle.machine.specs.Files.{CallRow};
ghost use Rattle.machine.specs.Machine.{state};
ghost use Rattle.machine.specs.FalseBytes.{IsFalse};
ghost use Rattle.planned_files.specs.Standing as planned;
ghost use Rattle.engine.specs.Handed.{handed_frames};
ghost use Rattle.engine.specs.Slots.{slot_of, HasSlot};
ghost use Rattle.engine.specs.inside.Facts.{Fits};
ghost use Rattle.engine.specs.inside.Events.{IsAlone};
ghost use Rattle.engine.specs.inside.Standing.{desk_at, SlotOpen, Flushed, NetworkStands};
ghost use Rattle.engine.specs.inside.Ends.{EndsEvent};
ghost use Rattle.engine.specs.inside.Alone.{IsHarmless, HeardAlone, lines_in, first_given, HasFiles, Answers, IsShort, SlotPosts};

use crate::halt::Halt;
use crate::machine_laws::machine_laws;
use crate::merging::SentRow;
use crate::network::Network;
use crate::slots::slot_of;
use events::Stream;
use frame::pieces;
use levels::{Partition, Party};
use machine::OutLine;
use planned_files::Answer;
use ring_link::Gate;
use seal_core::Seal;
use std::alloc::AllocError;
use std::thread::Threads;

/// What a manager unit sends back.
#[derive(Drop)]
pub(crate) struct Reply {
    to: Party,
    text: Vec<u8>,
}

/// The message that the first line says was given, and who sent it.
fn first_given(lines: &[OutLine]) -> Option<(Party, &[u8])>
    ensures some { IfSome result (λ given. first_given lines.now
        ≡ Some (record { from = given.0; body = given.1.now })) }
    ensures none { IfNone result (first_given lines.now ≡ None) }
{
    match lines.first() {
        Some(OutLine::From { from, body }) => Some((*from, body.bytes())),
        _ => None,
    }
}

impl<S: Seal + Send + Sync + Copy> Network<S> {
    /// What is handed over is a turn of the unit of a party.
    fn hear_alone<R: Threads, G: Gate + Sync>(
        &mut self,
        rt: &R,
        gate: &G,
        at: Party,
    ) -> Result<(), AllocError>
        requires { length self.old.handed.items ≤ 64 }
        ensures heard { OnOk result ((m : Setup) (past : List Event) (e : Event)
            → m.sealed ≡ S.sealed_text → Fits m past → is_known m.roster at ≡ true
            → place_of e ≡ at → IsHarmless m past e
            → self.old.handed.items ≡ handed_frames m (state m past) e
            → Flushed m past self.old.desks → HeardAlone m past e self.new.desks) }
        ensures idle { OnOk result (SlotOpen (desk_at self.new.desks (slot_of at))) }
        ensures files { self.new.files ≡ self.old.files }
    {
        machine_laws();
        let slot = slot_of(at);
        self.desks
            .turn_alone(rt, gate, slot, &self.handed, &mut self.out)
    }

    /// What the unit of a manager was given, if anything, is answered.
    fn answer(&mut self, from: Partition) -> Result<Option<Reply>, Halt>
        requires { HasFiles (Manager from) self.old.files }
        ensures answers { (m : Setup) (calls : List CallRow) → m.sealed ≡ S.sealed_text
            → planned.StandsFor m self.old.files calls
            → Answers m calls from.0
            (first_given (lines_in (desk_at self.old.desks (slot_of (Manager from)))))
            self.new.files result }
        ensures short { IfOk result IsShort }
        ensures desks { self.new.desks ≡ self.old.desks }
    {
        let Some(desk) = self.desks.get(slot_of(Party::Manager(from))) else {
            return Ok(None);
        };
        let Some((to, message)) = first_given(desk.lines()) else {
            return Ok(None);
        };
        match self.files.answer(from, message)? {
            Answer::Reply(text) => Ok(Some(Reply { to, text })),
            Answer::FalseRecord => Err(Halt::Opened),
        }
    }

    /// A message is sent from a slot, and is a turn of its own.
    fn post<R: Threads, G: Gate + Sync>(
        &mut self,
        rt: &R,
        gate: &G,
        slot: usize,
        to: Party,
        text: &[u8],
    ) -> Result<(), AllocError>
        requires { slot < 512 }
        ensures here { OnOk result (SlotPosts S.sealed_text to text.now
            (desk_at self.old.desks slot) (desk_at self.new.desks slot)) }
        ensures idle { OnOk result (SlotOpen (desk_at self.new.desks slot)) }
        ensures others { (k : ℕ) → k ≢ slot
            → desk_at self.new.desks k ≡ desk_at self.old.desks k }
        ensures files { self.new.files ≡ self.old.files }
    {
        self.desks.send(rt, gate, slot, to, text, &mut self.out)?;
        self.desks.flush(rt, gate, slot, &mut self.out)
    }

    /// The unit of a manager replies to what it was given, if it was given anything.
    fn reply<R: Threads, G: Gate + Sync>(
        &mut self,
        rt: &R,
        gate: &G,
        from: Partition,
    ) -> Result<Option<SentRow>, Halt>
        requires files { HasFiles (Manager from) self.old.files }
        requires idle { SlotOpen (desk_at self.old.desks (slot_of (Manager from))) }
        ensures { (m : Setup) (past : List Event) (e : Event)
            → m.sealed ≡ S.sealed_text → Fits m past → is_known m.roster (Manager from) ≡ true
            → IsAlone m (state m past) e → place_of e ≡ Manager from
            → ¬ IsFalse m (state m past) e → HeardAlone m past e self.old.desks
            → planned.StandsFor m self.old.files (state m past).calls
            → EndsEvent m past e self.new.desks self.new.files result }
    {
        machine_laws();
        let slot = slot_of(Party::Manager(from));
        let Some(reply) = self.answer(from)? else {
            self.desks.forget_lines(slot);
            return Ok(None);
        };
        self.post(rt, gate, slot, reply.to, &reply.text)?;
        self.desks.forget_lines(slot);
        Ok(Some(SentRow {
            stream: Stream {
                from: Party::Manager(from),
                to: reply.to,
            },
            pieces: pieces(reply.text.len()),
        }))
    }

    /// What is handed over is a turn of the unit of a party, and so is its reply.
    pub fn end_alone<R: Threads, G: Gate + Sync>(
        &mut self,
        rt: &R,
        gate: &G,
        at: Party,
    ) -> Result<Option<SentRow>, Halt>
        requires few { length self.old.handed.items ≤ 64 }
        requires files { HasFiles at self.old.files }
        ensures { (m : Setup) (past : List Event) (e : Event)
            → m.sealed ≡ S.sealed_text → Fits m past → is_known m.roster at ≡ true
            → IsAlone m (state m past) e → place_of e ≡ at → IsHarmless m past e
            → ¬ IsFalse m (state m past) e
            → self.old.handed.items ≡ handed_frames m (state m past) e
            → Flushed m past self.old.desks
            → planned.StandsFor m self.old.files (state m past).calls
            → EndsEvent m past e self.new.desks self.new.files result }
    {
        machine_laws();
        self.hear_alone(rt, gate, at)?;
        match at {
            Party::Host(_) => Ok(None),
            Party::Manager(partition) => self.reply(rt, gate, partition),
        }
    }

    /// A piece of a message that was sent comes to the unit of a manager.
    pub fn arrive_alone<R: Threads, G: Gate + Sync>(
        &mut self,
        rt: &R,
        gate: &G,
        stream: Stream,
        message: u32,
        piece: u8,
        at: Partition,
    ) -> Result<Option<SentRow>, Halt>
        requires files { HasFiles (Manager at) self.old.files }
        ensures { (m : Setup) (past : List Event) → m.sealed ≡ S.sealed_text
            → Fits m past → is_known m.roster stream.to ≡ true
            → is_known m.roster (Manager at) ≡ true
            → NetworkStands m past self.old.desks self.old.files
            → EndsEvent m past (Arrive stream message piece (Manager at))
            self.new.desks self.new.files result }
    {
        machine_laws();
        self.flush_all(rt, gate)?;
        self.find(stream, message)?;
        self.keep_piece(piece)?;
        self.end_alone(rt, gate, Party::Manager(at))
    }

    /// A message that was sent comes to the unit of a manager.
    pub fn carry_alone<R: Threads, G: Gate + Sync>(
        &mut self,
        rt: &R,
        gate: &G,
        stream: Stream,
        message: u32,
        at: Partition,
    ) -> Result<Option<SentRow>, Halt>
        requires files { HasFiles (Manager at) self.old.files }
        ensures { (m : Setup) (past : List Event) → m.sealed ≡ S.sealed_text
            → Fits m past → is_known m.roster stream.to ≡ true
            → is_known m.roster (Manager at) ≡ true
            → NetworkStands m past self.old.desks self.old.files
            → EndsEvent m past (Carry stream message (Manager at))
            self.new.desks self.new.files result }
    {
        machine_laws();
        self.flush_all(rt, gate)?;
        self.find(stream, message)?;
        self.end_alone(rt, gate, Party::Manager(at))
    }
}
