ghost use Rattle.std.specs.Prelude.{◌≡◌, ◌≢◌, ℕ, ◌+◌, ◌<◌, ◌≤◌, ◌==◌, [], ◌∷◌, ◌++◌, length, IfOk, OnOk};
ghost use Rattle.window.specs.Windows.{AreDifferent};
ghost use Rattle.host_side.specs.Hosts.{next_of};
ghost use Rattle.host_side.specs.Sending.{first_number};
ghost use Rattle.net_side.specs.Nets.{is_among, is_partner};
ghost use Rattle.unit_core.specs.Turns.{Turned};
ghost use Rattle.desk.specs.Batches.{Batches, no_batches, flush, flush_where, has_send, is_full_for, join_frames, join_or_flush, join_or_flush_send, join_send};
ghost use Rattle.desk.specs.Views.{no_batch};
ghost use Rattle.desk.specs.Wires.{message_frames};
ghost use Rattle.desk.specs.Deeds.{DeskState, address_in, fresh, did, does, hearings, outgoing, says};
ghost use Rattle.desk.specs.Desks.{At, HaveKinds, Hears, HearsAlone, Moves, same, tally_at, told_nothing};
ghost use Rattle.desk.specs.inside.Merging.{merged, wire_merged};

use crate::batch::Batch;
use crate::laws::frames_hold_one_thing;
use crate::merging::{address_in, keep, tell};
use crate::wire::Wire;
use levels::Party;
use machine::OutLine;
use ring_link::Gate;
use seal_core::{KeyPair, Seal};
use std::alloc::{AllocError, Global};
use std::marker::Model;
use std::thread::Threads;
use unit_core::{Tally, TurnOut, Unit};

/// A unit, what its party was told, what it sealed, and its open batch. After an Err it isn't used
/// again.
#[derive(Drop)]
pub struct Desk<S: Seal> {
    alloc: Global,
    partition: u8,
    unit: Unit<S>,
    lines: Vec<OutLine>,
    wire: Wire,
    batch: Batch,
}

impl<S: Seal> Model for Desk<S> {
    ghost use Rattle.std.specs.Prelude.{◌≡◌};
    ghost use Rattle.desk.specs.Views.{DeskView};

    ghost Value = { DeskView };

    ghost view = { λ a. record {
      unit = a.unit;
      lines = a.lines.items;
      wire = a.wire;
      batch = a.batch;
    } };

    ghost invariant = { λ a. a.unit.host.partition ≡ a.partition };
}

/// What is left of a desk.
#[derive(Drop)]
pub struct ClosedDesk {
    pub lines: Vec<OutLine>,
    pub wire: Wire,
    pub tally: Tally,
}

/// One turn on the open batch.
fn turn_batch<S: Seal + Send + Sync, R: Threads, G: Gate + Sync>(
    alloc: Global,
    rt: &R,
    gate: &G,
    partition: u8,
    batch: &Batch,
    unit: &mut Unit<S>,
    lines: &mut Vec<OutLine>,
    wire: &mut Wire,
    out: &mut TurnOut,
) -> Result<(), AllocError>
    ensures turned { OnOk result
        (Turned S.sealed_text unit.old batch.now.sends batch.now.frames unit.new out.new) }
    ensures lines { OnOk result (lines.new.items ≡ lines.old.items
        ++ merged partition out.new.bodies batch.now.order out.new.answers 0 out.new.given) }
    ensures wire { OnOk result (wire.new
        ≡ wire_merged partition wire.old batch.now.order out.new.answers out.new.sealed) }
    ensures partition { unit.new.host.partition ≡ unit.old.host.partition }
{
    unit.turn(rt, gate, batch.sends(), batch.frames(), out);
    tell(
        alloc,
        partition,
        batch.order(),
        out.answers(),
        out.given(),
        out.bodies(),
        lines,
    )?;
    keep(partition, batch.order(), out.answers(), out.sealed(), wire)
}

impl<S: Seal + Send + Sync> Desk<S> {
    /// The desk of a party that was told nothing yet.
    pub fn open(
        alloc: Global,
        seal: S,
        keys: KeyPair,
        address: u8,
        partition: u8,
        partners: &[u8],
    ) -> Result<Desk<S>, AllocError>
        requires few { length partners.now ≤ 64 }
        requires different { AreDifferent partners.now }
        ensures address { IfOk result (λ desk.
            (desk.unit.host.address ≡ address) × (desk.unit.net.address ≡ address)) }
        ensures partition { IfOk result (λ desk.
            (desk.unit.host.partition ≡ partition) × (desk.unit.net.partition ≡ partition)) }
        ensures keys { IfOk result (λ desk. desk.unit.net.keys ≡ keys) }
        ensures partners { IfOk result (λ desk. (a : ℕ) → a < 256 →
            is_partner desk.unit.net a ≡ is_among partners.now a) }
        ensures numbers { IfOk result (λ desk. (a : ℕ) → a < 256 →
            next_of desk.unit.host a ≡ first_number partners.now 0 a) }
        ensures idle { IfOk result (λ desk. desk.batch ≡ no_batch) }
        ensures starts { IfOk result (λ desk. At S.sealed_text desk
            (fresh S.sealed_text keys address partition desk.unit.host.streams) no_batches) }
    {
        let unit = Unit::open(alloc, seal, keys, address, partition, partners)?;
        let wire = Wire::new(alloc)?;
        Ok(Desk {
            alloc,
            partition,
            unit,
            lines: Vec::new(alloc),
            wire,
            batch: Batch::new(alloc),
        })
    }

    /// The turn of the open batch, unless it is empty.
    pub fn flush<R: Threads, G: Gate + Sync>(
        &mut self,
        rt: &R,
        gate: &G,
        out: &mut TurnOut,
    ) -> Result<(), AllocError>
        ensures moves { OnOk result (Moves S.sealed_text same flush self.old self.new) }
        ensures idle { OnOk result (self.new.batch ≡ no_batch) }
        ensures kinds { OnOk result (self.old.batch ≢ no_batch →
            HaveKinds S.sealed_text self.old.unit.net self.old.batch.frames out.new.kinds) }
    {
        frames_hold_one_thing::<S>();
        if self.batch.is_idle() {
            return Ok(());
        }
        turn_batch(
            self.alloc,
            rt,
            gate,
            self.partition,
            &self.batch,
            &mut self.unit,
            &mut self.lines,
            &mut self.wire,
            out,
        )?;
        self.batch.clear();
        Ok(())
    }

    /// Room for one more send.
    fn make_room_for_send<R: Threads, G: Gate + Sync>(
        &mut self,
        rt: &R,
        gate: &G,
        out: &mut TurnOut,
    ) -> Result<(), AllocError>
        ensures moves { OnOk result (Moves S.sealed_text same
            (λ b. flush_where (length b.batch.sends == 4) b) self.old self.new) }
        ensures room { OnOk result (length self.new.batch.sends < 4) }
    {
        if self.batch.sends().len() == 4 {
            return self.flush(rt, gate, out);
        }
        Ok(())
    }

    fn join_send(&mut self, to: Party, message: &[u8]) -> Result<(), AllocError>
        requires { length self.old.batch.sends < 4 }
        ensures { OnOk result (Moves S.sealed_text (λ st. did st (says to message.now))
            (join_send (outgoing self.old.unit.host.partition to message.now)) self.old self.new) }
    {
        let address = address_in(self.partition, to);
        self.batch.push_send(address, to, message)
    }

    /// Its party sends a message.
    pub fn send<R: Threads, G: Gate + Sync>(
        &mut self,
        rt: &R,
        gate: &G,
        to: Party,
        message: &[u8],
        out: &mut TurnOut,
    ) -> Result<(), AllocError>
        ensures { OnOk result (Moves S.sealed_text (λ st. did st (says to message.now))
            (join_or_flush_send (outgoing self.old.unit.host.partition to message.now))
            self.old self.new) }
    {
        self.make_room_for_send(rt, gate, out)?;
        self.join_send(to, message)
    }

    /// The turn of the open batch, if it has a send. Then all that its party has sent is sealed.
    pub fn flush_sends<R: Threads, G: Gate + Sync>(
        &mut self,
        rt: &R,
        gate: &G,
        out: &mut TurnOut,
    ) -> Result<(), AllocError>
        ensures moves { OnOk result
            (Moves S.sealed_text same (λ b. flush_where (has_send b) b) self.old self.new) }
        ensures none { OnOk result (self.new.batch.sends ≡ []) }
    {
        if self.batch.sends().len() != 0 {
            return self.flush(rt, gate, out);
        }
        Ok(())
    }

    /// Room for some more frames.
    fn make_room<R: Threads, G: Gate + Sync>(
        &mut self,
        rt: &R,
        gate: &G,
        more: usize,
        out: &mut TurnOut,
    ) -> Result<(), AllocError>
        requires { more ≤ 64 }
        ensures moves { OnOk result (Moves S.sealed_text same
            (λ b. flush_where (is_full_for more b) b) self.old self.new) }
        ensures room { OnOk result (length self.new.batch.frames + more ≤ 256) }
        ensures sends { OnOk result (self.old.batch.sends ≡ [] → self.new.batch.sends ≡ []) }
        ensures frames { OnOk result (self.old.batch ≡ no_batch → self.new.batch ≡ no_batch) }
    {
        if self.batch.frames().len() + more > 256 {
            return self.flush(rt, gate, out);
        }
        Ok(())
    }

    /// Frames that an event hands over come to the unit.
    pub fn take<R: Threads, G: Gate + Sync>(
        &mut self,
        rt: &R,
        gate: &G,
        frames: &[[u8; 128]],
        out: &mut TurnOut,
    ) -> Result<(), AllocError>
        requires { length frames.now ≤ 64 }
        ensures hears { OnOk result
            (Hears S.sealed_text frames.now (join_or_flush frames.now) self.old self.new) }
        ensures sends { OnOk result (self.old.batch.sends ≡ [] → self.new.batch.sends ≡ []) }
        ensures frames { OnOk result (self.old.batch ≡ no_batch →
            self.new.batch.frames ≡ frames.now) }
        ensures net { OnOk result (self.new.unit.net ≡ self.old.unit.net) }
    {
        if frames.is_empty() {
            return Ok(());
        }
        self.make_room(rt, gate, frames.len(), out)?;
        self.batch.push_frames(frames)
    }

    /// Frames are a turn of their own, whatever they hold. `out` has their kinds.
    pub fn turn_alone<R: Threads, G: Gate + Sync>(
        &mut self,
        rt: &R,
        gate: &G,
        frames: &[[u8; 128]],
        out: &mut TurnOut,
    ) -> Result<(), AllocError>
        requires { length frames.now ≤ 64 }
        ensures hears { OnOk result
            (HearsAlone S.sealed_text frames.now out.new.kinds self.old self.new) }
        ensures idle { OnOk result (self.new.batch ≡ no_batch) }
    {
        self.flush(rt, gate, out)?;
        self.take(rt, gate, frames, out)?;
        self.flush(rt, gate, out)
    }

    /// What it sealed.
    pub fn wire(&self) -> &Wire
        ensures same { result.now ≡ self.now.wire }
        ensures sealed { (st : DeskState) (b : Batches) → self.now.batch.sends ≡ [] →
            At S.sealed_text self.now st b → result.now ≡ st.wire }
    {
        &self.wire
    }

    /// The frames of a message that its party has sent to another, in constant time: none where it
    /// wasn't sent.
    pub fn sent_to(&self, to: Party, number: u32) -> &[[u8; 128]]
        ensures { (st : DeskState) (b : Batches) → self.now.batch.sends ≡ [] →
            At S.sealed_text self.now st b →
            result.now ≡ message_frames st.wire (address_in st.partition to) number }
    {
        self.wire.message(address_in(self.partition, to), number)
    }

    /// What its party was told.
    pub fn lines(&self) -> &[OutLine]
        ensures same { result.now ≡ self.now.lines }
        ensures told { (st : DeskState) (b : Batches) → self.now.batch ≡ no_batch →
            At S.sealed_text self.now st b → result.now ≡ st.lines }
    {
        &self.lines
    }

    /// Keeps no more of what its party was told.
    pub fn forget_lines(&mut self)
        requires { self.old.batch ≡ no_batch }
        ensures moves { Moves S.sealed_text told_nothing (λ b. b) self.old self.new }
        ensures idle { self.new.batch ≡ no_batch }
    {
        self.lines.clear();
    }

    /// Closes the unit.
    pub fn close(self) -> ClosedDesk
        ensures lines { result.lines.items ≡ self.lines }
        ensures wire { result.wire ≡ self.wire }
        ensures tally { result.tally ≡ self.unit.tally }
        ensures told { (st : DeskState) (b : Batches) → self.batch ≡ no_batch →
            At S.sealed_text self st b → result.lines.items ≡ st.lines }
        ensures sealed { (st : DeskState) (b : Batches) → self.batch ≡ no_batch →
            At S.sealed_text self st b → result.wire ≡ st.wire }
        ensures counted { (st : DeskState) (b : Batches) → self.batch ≡ no_batch →
            At S.sealed_text self st b → result.tally ≡ tally_at st (length b.made) }
    {
        ClosedDesk {
            lines: self.lines,
            wire: self.wire,
            tally: self.unit.close(),
        }
    }
}
