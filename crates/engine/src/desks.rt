ghost use Rattle.std.specs.Prelude.{◌≡◌, ◌≢◌, ℕ, ◌<◌, ◌≤◌, [], length, Some, None, IfSome, IfNone, IfOk, OnOk};
ghost use Rattle.levels.specs.Kept.{IsRoster, IsComplete};
ghost use Rattle.machine.specs.Setup.{Setup};
ghost use Rattle.desk.specs.Batches.{flush, flush_where, has_send, join_or_flush};
ghost use Rattle.desk.specs.Desks.{same, told_nothing};
ghost use Rattle.engine.specs.inside.Standing.{DesksStand, SetupOf, desk_at, SlotMoves, SlotSays, SlotHears, SlotHearsAlone, SlotSilent, SlotOpen};

use crate::opening::open_desk;
use crate::slots::{SLOTS, party_of};
use desk::Desk;
use levels::{Party, Roster};
use ring_link::Gate;
use seal_core::Seal;
use std::alloc::{AllocError, Global};
use std::marker::Model;
use std::thread::Threads;
use unit_core::TurnOut;

/// The desk of each party of a roster, at its slot.
#[derive(Drop)]
pub(crate) struct Desks<S: Seal> {
    slots: Vec<Option<Desk<S>>>,
}

impl<S: Seal> Model for Desks<S> {
    ghost use Rattle.std.specs.Prelude.{◌≡◌, List, Option, length};
    ghost use Rattle.desk.specs.Views.{DeskView};

    ghost Value = { List (Option DeskView) };

    ghost view = { λ a. a.slots.items };

    ghost invariant = { λ a. length a.slots.items ≡ 512 };
}

impl<S: Seal + Send + Sync + Copy> Desks<S> {
    /// The desks of a roster's parties, before anything was sent.
    pub fn open(alloc: Global, seal: S, roster: &Roster) -> Result<Desks<S>, AllocError>
        requires kept { IsRoster roster.now }
        requires complete { IsComplete roster.now }
        ensures { IfOk result (λ desks. (m : Setup) → SetupOf m S.sealed_text roster.now
            → DesksStand m [] desks) }
    {
        let mut slots = Vec::with_capacity(alloc, SLOTS)?;
        for slot in 0..512u16 {
            let desk = open_desk(alloc, seal, roster, party_of(slot))?;
            slots.push(desk)?;
        }
        Ok(Desks { slots })
    }

    /// The party of a slot sends a message.
    pub fn send<R: Threads, G: Gate + Sync>(
        &mut self,
        rt: &R,
        gate: &G,
        slot: usize,
        to: Party,
        message: &[u8],
        out: &mut TurnOut,
    ) -> Result<(), AllocError>
        requires { slot < 512 }
        ensures here { OnOk result (SlotSays S.sealed_text to message.now
            (desk_at self.old slot) (desk_at self.new slot)) }
        ensures others { (k : ℕ) → k ≢ slot → desk_at self.new k ≡ desk_at self.old k }
    {
        match &mut self.slots[slot] {
            Some(desk) => desk.send(rt, gate, to, message, out),
            None => Ok(()),
        }
    }

    /// The turn of an open batch, if it has a send.
    pub fn flush_sends<R: Threads, G: Gate + Sync>(
        &mut self,
        rt: &R,
        gate: &G,
        slot: usize,
        out: &mut TurnOut,
    ) -> Result<(), AllocError>
        requires { slot < 512 }
        ensures here { OnOk result (SlotMoves S.sealed_text same (λ b. flush_where (has_send b) b)
            (desk_at self.old slot) (desk_at self.new slot)) }
        ensures silent { OnOk result (SlotSilent (desk_at self.new slot)) }
        ensures others { (k : ℕ) → k ≢ slot → desk_at self.new k ≡ desk_at self.old k }
    {
        match &mut self.slots[slot] {
            Some(desk) => desk.flush_sends(rt, gate, out),
            None => Ok(()),
        }
    }

    /// The turn of an open batch.
    pub fn flush<R: Threads, G: Gate + Sync>(
        &mut self,
        rt: &R,
        gate: &G,
        slot: usize,
        out: &mut TurnOut,
    ) -> Result<(), AllocError>
        requires { slot < 512 }
        ensures here { OnOk result (SlotMoves S.sealed_text same flush
            (desk_at self.old slot) (desk_at self.new slot)) }
        ensures open { OnOk result (SlotOpen (desk_at self.new slot)) }
        ensures others { (k : ℕ) → k ≢ slot → desk_at self.new k ≡ desk_at self.old k }
    {
        match &mut self.slots[slot] {
            Some(desk) => desk.flush(rt, gate, out),
            None => Ok(()),
        }
    }

    /// The turns of all hosts' open batches.
    pub fn flush_all<R: Threads, G: Gate + Sync>(
        &mut self,
        rt: &R,
        gate: &G,
        out: &mut TurnOut,
    ) -> Result<(), AllocError>
        ensures moves { OnOk result ((k : ℕ) → k < 256 → SlotMoves S.sealed_text same flush
            (desk_at self.old k) (desk_at self.new k)) }
        ensures open { OnOk result ((k : ℕ) → k < 256 → SlotOpen (desk_at self.new k)) }
        ensures others { (k : ℕ) → 256 ≤ k → desk_at self.new k ≡ desk_at self.old k }
    {
        for slot in 0..256usize {
            self.flush(rt, gate, slot, out)?;
        }
        Ok(())
    }

    /// Frames come to the unit of a slot.
    pub fn take<R: Threads, G: Gate + Sync>(
        &mut self,
        rt: &R,
        gate: &G,
        slot: usize,
        frames: &[[u8; 128]],
        out: &mut TurnOut,
    ) -> Result<(), AllocError>
        requires room { length frames.now ≤ 64 }
        requires slot { slot < 512 }
        ensures here { OnOk result (SlotHears S.sealed_text frames.now (join_or_flush frames.now)
            (desk_at self.old slot) (desk_at self.new slot)) }
        ensures others { (k : ℕ) → k ≢ slot → desk_at self.new k ≡ desk_at self.old k }
    {
        match &mut self.slots[slot] {
            Some(desk) => desk.take(rt, gate, frames, out),
            None => Ok(()),
        }
    }

    /// Frames are a turn of the unit of a slot. `out` has their kinds.
    pub fn turn_alone<R: Threads, G: Gate + Sync>(
        &mut self,
        rt: &R,
        gate: &G,
        slot: usize,
        frames: &[[u8; 128]],
        out: &mut TurnOut,
    ) -> Result<(), AllocError>
        requires room { length frames.now ≤ 64 }
        requires slot { slot < 512 }
        ensures here { OnOk result (SlotHearsAlone S.sealed_text frames.now out.new.kinds
            (desk_at self.old slot) (desk_at self.new slot)) }
        ensures idle { OnOk result (SlotOpen (desk_at self.new slot)) }
        ensures others { (k : ℕ) → k ≢ slot → desk_at self.new k ≡ desk_at self.old k }
    {
        match &mut self.slots[slot] {
            Some(desk) => desk.turn_alone(rt, gate, frames, out),
            None => Ok(()),
        }
    }

    /// No more is kept of what the party of a slot was told.
    pub fn forget_lines(&mut self, slot: usize)
        requires idle { SlotOpen (desk_at self.old slot) }
        requires slot { slot < 512 }
        ensures here { SlotMoves S.sealed_text told_nothing (λ b. b)
            (desk_at self.old slot) (desk_at self.new slot) }
        ensures idle { SlotOpen (desk_at self.new slot) }
        ensures others { (k : ℕ) → k ≢ slot → desk_at self.new k ≡ desk_at self.old k }
    {
        if let Some(desk) = &mut self.slots[slot] {
            desk.forget_lines();
        }
    }

    /// The desks, slot by slot.
    pub fn into_slots(self) -> Vec<Option<Desk<S>>>
        ensures same { result.items ≡ self }
        ensures slots { length self ≡ 512 }
    {
        self.slots
    }

    /// The desk of a slot.
    pub fn get(&self, slot: usize) -> Option<&Desk<S>>
        requires { slot < 512 }
        ensures some { IfSome result (λ desk. Some desk.now ≡ desk_at self.now slot) }
        ensures none { IfNone result (desk_at self.now slot ≡ None) }
    {
        self.slots[slot].as_ref()
    }
}
