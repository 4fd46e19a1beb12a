ghost use Rattle.std.specs.Prelude.{◌≡◌, ◌≤◌, [], ◌∷◌, List, length, true, slice_get, option_to_list, IfOk, OnOk};
ghost use Rattle.levels.specs.declared.level.Party.TheVariants.{Host};
ghost use Rattle.events.specs.declared.event.Event.{Event};
ghost use Rattle.events.specs.declared.event.Event.TheVariants.{Arrive, Carry};
ghost use Rattle.events.specs.Scripts.{is_known};
ghost use Rattle.machine.specs.Setup.{Setup, setup_of, sealer};
ghost use Rattle.machine.specs.Machine.{state};
ghost use Rattle.machine.specs.Laws.{HandsNothing};
ghost use Rattle.desk.specs.Batches.{Batches};
ghost use Rattle.engine.specs.Handed.{message_sent, handed_frames};
ghost use Rattle.engine.specs.Slots.{slot_of};
ghost use Rattle.engine.specs.States.{Stands};
ghost use Rattle.engine.specs.inside.Facts.{Fits};
ghost use Rattle.engine.specs.inside.Events.{IsSend, Joins, IsJoin, AreSomething};
ghost use Rattle.engine.specs.inside.Standing.{desk_at, SlotAt, SlotSilent, DesksStand, Readied, Flushed, NetworkStands};
ghost use Rattle.planned_files.specs.Standing as planned;

use crate::desks::Desks;
use crate::machine_laws::machine_laws;
use crate::script_laws::script_laws;
use crate::slots::slot_of;
use events::{Script, Stream};
use guarantor::Guarantor;
use levels::Party;
use planned_files::PlannedFiles;
use ring_link::Gate;
use seal_core::Seal;
use std::alloc::{AllocError, Global};
use std::thread::Threads;
use unit_core::TurnOut;

/// The desks of all parties, the files of each level, and what the last turn filled.
#[derive(Drop)]
pub(crate) struct Network<S: Seal> {
    pub alloc: Global,
    pub seal: S,
    pub desks: Desks<S>,
    pub files: PlannedFiles<S>,
    pub out: TurnOut,
    /// The frames that an event hands over.
    pub handed: Vec<[u8; 128]>,
}

impl<S: Seal + Send + Sync + Copy> Network<S> {
    /// The network of a script, before its first event.
    pub fn open(alloc: Global, seal: S, script: &Script) -> Result<Network<S>, AllocError>
        ensures { IfOk result (λ network. sealer script.now.roster.sealing ≡ S.sealed_text
            → NetworkStands (setup_of script.now) [] network.desks network.files) }
    {
        script_laws();
        let roster = script.roster();
        let guarantor = Guarantor::open(alloc, seal, roster.guard_keys());
        let desks = Desks::open(alloc, seal, roster)?;
        let files = PlannedFiles::open(alloc, roster, script.rows(), guarantor)?;
        let out = TurnOut::open(alloc)?;
        Ok(Network {
            alloc,
            seal,
            desks,
            files,
            out,
            handed: Vec::new(alloc),
        })
    }

    /// A host sends a message.
    pub fn send<R: Threads, G: Gate + Sync>(
        &mut self,
        rt: &R,
        gate: &G,
        from: u8,
        to: Party,
        message: &[u8],
    ) -> Result<(), AllocError>
        ensures { OnOk result ((m : Setup) (past : List Event) (e : Event)
            → m.sealed ≡ S.sealed_text → Fits m past → IsSend m e from to message.now
            → Joins m (state m past) e from to message.now
            → HandsNothing m (state m past) e (Host from)
            → NetworkStands m past self.old.desks self.old.files
            → NetworkStands m (e ∷ past) self.new.desks self.new.files) }
    {
        machine_laws();
        let slot = usize::from(from);
        self.desks.send(rt, gate, slot, to, message, &mut self.out)
    }

    /// What a party has sent is sealed.
    fn ready<R: Threads, G: Gate + Sync>(
        &mut self,
        rt: &R,
        gate: &G,
        from: Party,
    ) -> Result<(), AllocError>
        ensures ready { OnOk result ((m : Setup) (past : List Event) → m.sealed ≡ S.sealed_text
            → DesksStand m past self.old.desks → Readied m past from self.new.desks) }
        ensures files { self.new.files ≡ self.old.files }
    {
        match from {
            Party::Host(address) => {
                self.desks
                    .flush_sends(rt, gate, usize::from(address), &mut self.out)
            }
            Party::Manager(_) => Ok(()),
        }
    }

    /// All batches are flushed.
    pub fn flush_all<R: Threads, G: Gate + Sync>(
        &mut self,
        rt: &R,
        gate: &G,
    ) -> Result<(), AllocError>
        ensures flushed { OnOk result ((m : Setup) (past : List Event)
            → m.sealed ≡ S.sealed_text → DesksStand m past self.old.desks
            → Flushed m past self.new.desks) }
        ensures files { self.new.files ≡ self.old.files }
    {
        self.desks.flush_all(rt, gate, &mut self.out)
    }

    /// The frames of a message of a stream become what is handed over: none where it wasn't sent.
    pub fn find(&mut self, stream: Stream, message: u32) -> Result<(), AllocError>
        ensures found { OnOk result ((m : Setup) (past : List Event) (b : Batches)
            → m.sealed ≡ S.sealed_text → Fits m past
            → is_known m.roster stream.to ≡ true
            → SlotAt m stream.from b (Stands m past (state m past) stream.from)
            (desk_at self.old.desks (slot_of stream.from))
            → SlotSilent (desk_at self.old.desks (slot_of stream.from))
            → self.new.handed.items ≡ message_sent m (state m past) stream message) }
        ensures few { OnOk result (length self.new.handed.items ≤ 64) }
        ensures desks { self.new.desks ≡ self.old.desks }
        ensures files { self.new.files ≡ self.old.files }
    {
        machine_laws();
        self.handed.clear();
        let Some(desk) = self.desks.get(slot_of(stream.from)) else {
            return Ok(());
        };
        let frames = desk.sent_to(stream.to, message);
        let count = if frames.len() > 64 { 64 } else { frames.len() };
        self.handed.extend_from_slice(&frames[..count])
    }

    /// Of the frames that are handed over, that of a piece alone stays.
    pub fn keep_piece(&mut self, piece: u8) -> Result<(), AllocError>
        ensures kept { OnOk result (self.new.handed.items
            ≡ option_to_list (slice_get self.old.handed.items piece)) }
        ensures few { OnOk result (length self.new.handed.items ≤ 64) }
        ensures desks { self.new.desks ≡ self.old.desks }
        ensures files { self.new.files ≡ self.old.files }
    {
        let kept = self.handed.get(usize::from(piece)).copied();
        self.handed.clear();
        if let Some(frame) = kept {
            self.handed.push(frame)?;
        }
        Ok(())
    }

    /// The frames that are handed over join the batch of a host.
    fn join<R: Threads, G: Gate + Sync>(
        &mut self,
        rt: &R,
        gate: &G,
        at: u8,
    ) -> Result<(), AllocError>
        requires { length self.old.handed.items ≤ 64 }
        ensures { OnOk result ((m : Setup) (past : List Event) (e : Event) (from : Party)
            → m.sealed ≡ S.sealed_text → Fits m past → IsJoin m (state m past) e from at
            → AreSomething m past e
            → self.old.handed.items ≡ handed_frames m (state m past) e
            → Readied m past from self.old.desks
            → planned.StandsFor m self.old.files (state m past).calls
            → NetworkStands m (e ∷ past) self.new.desks self.new.files) }
    {
        machine_laws();
        let slot = usize::from(at);
        self.desks.take(rt, gate, slot, &self.handed, &mut self.out)
    }

    /// A piece of a message that was sent comes to a host.
    pub fn arrive<R: Threads, G: Gate + Sync>(
        &mut self,
        rt: &R,
        gate: &G,
        stream: Stream,
        message: u32,
        piece: u8,
        at: u8,
    ) -> Result<(), AllocError>
        ensures { OnOk result ((m : Setup) (past : List Event) → m.sealed ≡ S.sealed_text
            → Fits m past → is_known m.roster stream.to ≡ true
            → NetworkStands m past self.old.desks self.old.files
            → NetworkStands m (Arrive stream message piece (Host at) ∷ past)
            self.new.desks self.new.files) }
    {
        machine_laws();
        self.ready(rt, gate, stream.from)?;
        self.find(stream, message)?;
        self.keep_piece(piece)?;
        self.join(rt, gate, at)
    }

    /// A message that was sent comes to a host.
    pub fn carry<R: Threads, G: Gate + Sync>(
        &mut self,
        rt: &R,
        gate: &G,
        stream: Stream,
        message: u32,
        at: u8,
    ) -> Result<(), AllocError>
        ensures { OnOk result ((m : Setup) (past : List Event) → m.sealed ≡ S.sealed_text
            → Fits m past → is_known m.roster stream.to ≡ true
            → NetworkStands m past self.old.desks self.old.files
            → NetworkStands m (Carry stream message (Host at) ∷ past)
            self.new.desks self.new.files) }
    {
        machine_laws();
        self.ready(rt, gate, stream.from)?;
        self.find(stream, message)?;
        self.join(rt, gate, at)
    }
}
