ghost use Rattle.std.specs.Prelude.{◌≡◌, ◌<◌, ◌≤◌, ◌↔◌, List, length, map, true, Some, IsTrue, All, IfOk, slice_get};
ghost use Rattle.levels.specs.Kept.{IsRoster, IsComplete};
ghost use Rattle.frame.specs.Pieces.{PieceView};
ghost use Rattle.events.specs.declared.event.Event.{Event};
ghost use Rattle.events.specs.declared.event.Event.TheVariants.{Forge, Tamper};
ghost use Rattle.events.specs.Scripts.{is_known};
ghost use Rattle.machine.specs.Setup.{Setup};
ghost use Rattle.machine.specs.FalseBytes.{edited};
ghost use Rattle.desk.specs.Deeds.{party_at};
ghost use Rattle.engine.specs.inside.Facts.{Fits};
ghost use Rattle.engine.specs.inside.Standing.{SetupOf, Flushed, NetworkStands};
ghost use Rattle.engine.specs.inside.Ends.{EndsEvent};
ghost use Rattle.engine.specs.inside.Alone.{HasFiles};
ghost use Rattle.engine.specs.inside.Judging.{IsFrameAt, OpensAs, OpensWhere, FirstOpens, WasSentThere, IsJudged};

use crate::halt::Halt;
use crate::machine_laws::machine_laws;
use crate::merging::SentRow;
use crate::network::Network;
use events::{Edits, Stream};
use frame::{Opening, Piece, open_frame};
use levels::{Partition, Party, Roster};
use ring_link::Gate;
use seal_core::Seal;
use std::alloc::AllocError;
use std::thread::Threads;

/// Who has an address in a partition.
fn party_at(partition: Partition, address: u8) -> Party
    ensures { result ≡ party_at partition.0 address }
{
    if address == 0 {
        Party::Manager(partition)
    } else {
        Party::Host(address)
    }
}

/// Changes the bytes of a frame.
fn edit(frame: &mut [u8; 128], edits: &[(u8, u8)])
    requires { All (λ edit. edit.0 < 128) edits.now }
    ensures { frame.new ≡ edited edits.now frame.old }
{
    for (offset, xor) in edits {
        frame[usize::from(*offset)] ^= *xor;
    }
}

fn is_same(a: &[u8], b: &[u8]) -> bool
    ensures { IsTrue result ↔ (a.now ≡ b.now) }
{
    a == b
}

impl<S: Seal + Send + Sync + Copy> Network<S> {
    /// What bytes open to in the partition of a party.
    fn opening(&self, roster: &Roster, at: Party, bytes: &[u8; 128]) -> Opening
        requires kept { IsRoster roster.now }
        requires complete { IsComplete roster.now }
        ensures { (m : Setup) → SetupOf m S.sealed_text roster.now
            → is_known roster.now at ≡ true → OpensAs m at bytes.now result }
    {
        let Some(partition) = roster.partition_of(at) else {
            return Opening::Foreign;
        };
        let keys = roster.keys_at(partition);
        open_frame(&self.seal, &keys, partition.0, bytes)
    }

    /// Whether bytes open at a party.
    fn opens_at(&self, roster: &Roster, at: Party, bytes: &[u8; 128]) -> bool
        requires kept { IsRoster roster.now }
        requires complete { IsComplete roster.now }
        ensures { (m : Setup) → SetupOf m S.sealed_text roster.now
            → is_known roster.now at ≡ true → OpensWhere m at bytes.now result }
    {
        machine_laws();
        match self.opening(roster, at, bytes) {
            Opening::Foreign | Opening::Closed => false,
            Opening::Malformed | Opening::Opened(_) => true,
        }
    }

    /// Whether these bytes stand at a place of what is handed over.
    fn has_frame(&self, place: u8, bytes: &[u8; 128]) -> bool
        ensures { IsTrue result
            ↔ (slice_get self.now.handed.items place ≡ Some bytes.now) }
    {
        match self.handed.get(usize::from(place)) {
            Some(frame) => is_same(frame, bytes),
            None => false,
        }
    }

    /// Whether bytes, which are the frame of a piece in the partition of a party, were sent there.
    fn was_sent(
        &mut self,
        roster: &Roster,
        at: Party,
        piece: &Piece,
        bytes: &[u8; 128],
    ) -> Result<bool, AllocError>
        requires kept { IsRoster roster.now }
        ensures sent { IfOk result (λ sent. (m : Setup) (past : List Event)
            → SetupOf m S.sealed_text roster.now → Fits m past
            → is_known roster.now at ≡ true
            → IsFrameAt m at bytes.now piece.now
            → ((y : PieceView) → IsFrameAt m at bytes.now y → y ≡ piece.now)
            → Flushed m past self.old.desks
            → WasSentThere m past at bytes.now sent) }
        ensures desks { self.new.desks ≡ self.old.desks }
        ensures files { self.new.files ≡ self.old.files }
    {
        machine_laws();
        let Some(partition) = roster.partition_of(at) else {
            return Ok(false);
        };
        let stream = Stream {
            from: party_at(partition, piece.from()),
            to: party_at(partition, piece.to()),
        };
        if !roster.same_partition(stream.from, at) || !roster.same_partition(stream.to, at) {
            return Ok(false);
        }
        self.find(stream, piece.message())?;
        Ok(self.has_frame(piece.piece(), bytes))
    }

    /// Whether bytes that are forged at a party are a false frame.
    fn judge(&mut self, roster: &Roster, at: Party, bytes: &[u8; 128]) -> Result<bool, AllocError>
        requires kept { IsRoster roster.now }
        requires complete { IsComplete roster.now }
        ensures judged { IfOk result (λ is_false. (m : Setup) (past : List Event)
            → SetupOf m S.sealed_text roster.now → Fits m past
            → is_known roster.now at ≡ true → Flushed m past self.old.desks
            → IsJudged m past at bytes.now is_false) }
        ensures desks { self.new.desks ≡ self.old.desks }
        ensures files { self.new.files ≡ self.old.files }
    {
        machine_laws();
        match self.opening(roster, at, bytes) {
            Opening::Foreign | Opening::Closed => Ok(false),
            Opening::Malformed => Ok(true),
            Opening::Opened(piece) => Ok(!self.was_sent(roster, at, &piece, bytes)?),
        }
    }

    /// The network hands bytes of its own to a unit.
    pub fn forge<R: Threads, G: Gate + Sync>(
        &mut self,
        rt: &R,
        gate: &G,
        roster: &Roster,
        at: Party,
        bytes: &[u8; 128],
    ) -> Result<Option<SentRow>, Halt>
        requires kept { IsRoster roster.now }
        requires complete { IsComplete roster.now }
        requires files { HasFiles at self.old.files }
        ensures { (m : Setup) (past : List Event) → SetupOf m S.sealed_text roster.now
            → Fits m past → is_known roster.now at ≡ true
            → NetworkStands m past self.old.desks self.old.files
            → EndsEvent m past (Forge at bytes.now) self.new.desks self.new.files result }
    {
        machine_laws();
        self.flush_all(rt, gate)?;
        if self.judge(roster, at, bytes)? {
            return Err(Halt::Opened);
        }
        self.handed.clear();
        self.handed.push(*bytes)?;
        self.end_alone(rt, gate, at)
    }

    /// The frame that is handed over, if there is one, is changed.
    fn change(&mut self, edits: &[(u8, u8)])
        requires one { length self.old.handed.items ≤ 1 }
        requires edits { All (λ edit. edit.0 < 128) edits.now }
        ensures changed { self.new.handed.items
            ≡ map (edited edits.now) self.old.handed.items }
        ensures desks { self.new.desks ≡ self.old.desks }
        ensures files { self.new.files ≡ self.old.files }
    {
        if let Some(frame) = self.handed.first_mut() {
            edit(frame, edits);
        }
    }

    /// Whether the frame that is handed over, if there is one, opens at a party.
    fn opens(&self, roster: &Roster, at: Party) -> bool
        requires kept { IsRoster roster.now }
        requires complete { IsComplete roster.now }
        ensures { (m : Setup) → SetupOf m S.sealed_text roster.now
            → is_known roster.now at ≡ true
            → FirstOpens m at self.now.handed.items result }
    {
        match self.handed.first() {
            Some(frame) => self.opens_at(roster, at, frame),
            None => false,
        }
    }

    /// The network hands a unit the frame of a piece with some bytes changed.
    pub fn tamper<R: Threads, G: Gate + Sync>(
        &mut self,
        rt: &R,
        gate: &G,
        roster: &Roster,
        stream: Stream,
        message: u32,
        piece: u8,
        at: Party,
        edits: &Edits,
    ) -> Result<Option<SentRow>, Halt>
        requires kept { IsRoster roster.now }
        requires complete { IsComplete roster.now }
        requires files { HasFiles at self.old.files }
        ensures { (m : Setup) (past : List Event) → SetupOf m S.sealed_text roster.now
            → Fits m past → is_known roster.now stream.to ≡ true
            → is_known roster.now at ≡ true
            → NetworkStands m past self.old.desks self.old.files
            → EndsEvent m past (Tamper stream message piece at edits.now)
            self.new.desks self.new.files result }
    {
        machine_laws();
        self.flush_all(rt, gate)?;
        self.find(stream, message)?;
        self.keep_piece(piece)?;
        self.change(edits.pairs());
        if self.opens(roster, at) {
            return Err(Halt::Opened);
        }
        self.end_alone(rt, gate, at)
    }
}
