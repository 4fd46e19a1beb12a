ghost use Rattle.std.specs.Prelude.{◌≡◌, ◌<◌, ◌⊎◌, [], ◌++◌, take, IfOk, IfNone, option_to_list};
ghost use Rattle.ring_link.specs.Ends.{sent_by, received_by, spare, known_slots, known_pieces, IsOffer, SameEnd, Feeds, ring_between, pending_between, backlog_left, first};

use crate::gate::{Gate, Side};
use frame::Piece;
use rtrb::{Consumer, Producer, PushError};
use std::alloc::{AllocError, Global};
use std::collections::VecDeque;
use std::marker::Model;

/// The end of one side: it pushes to one ring and pops from the other. What the ring doesn't take
/// stays in the backlog.
#[derive(Drop)]
pub(crate) struct End {
    pub(crate) producer: Producer<Piece>,
    pub(crate) consumer: Consumer<Piece>,
    pub(crate) backlog: VecDeque<Piece>,
    pub(crate) room: u16,
}

impl Model for End {
    ghost use Rattle.ring_link.specs.EndView.{EndView};

    ghost Value = { EndView };

    ghost use Rattle.ring_link.specs.inside.Kept.{view_of, IsEnd};

    ghost view = { view_of };

    ghost invariant = { λ a. IsEnd (view_of a) };
}

impl End {
    /// An end with an empty backlog.
    pub(crate) fn open(
        alloc: Global,
        producer: Producer<Piece>,
        consumer: Consumer<Piece>,
        room: u16,
    ) -> Result<End, AllocError>
        ensures producer { IfOk result (λ end. end.producer ≡ producer) }
        ensures consumer { IfOk result (λ end. end.consumer ≡ consumer) }
        ensures backlog { IfOk result (λ end. end.backlog ≡ []) }
        ensures room { IfOk result (λ end. end.room ≡ room) }
    {
        Ok(End {
            producer,
            consumer,
            backlog: VecDeque::with_capacity(alloc, usize::from(room))?,
            room,
        })
    }

    /// Offers a piece to the other side. Never refused: what the ring doesn't take waits.
    pub(crate) fn offer<G: Gate>(&mut self, gate: &G, side: Side, piece: Piece)
        requires { 0 < spare self.old }
        ensures same { SameEnd self.old self.new }
        ensures memory { self.new.capacity ≡ self.old.capacity }
        ensures received { received_by self.new ≡ received_by self.old }
        ensures moved { IsOffer self.old self.new piece }
        ensures flushed { (self.new.backlog ≡ []) ⊎ (known_slots self.new ≡ 0) }
    {
        if self.backlog.is_empty() {
            self.offer_first(gate, side, piece);
        } else {
            self.offer_behind(gate, side, piece);
        }
    }

    /// Offers a piece that no other waits before.
    fn offer_first<G: Gate>(&mut self, gate: &G, side: Side, piece: Piece)
        requires spare { 0 < spare self.old }
        requires empty { self.old.backlog ≡ [] }
        ensures same { SameEnd self.old self.new }
        ensures memory { self.new.capacity ≡ self.old.capacity }
        ensures received { received_by self.new ≡ received_by self.old }
        ensures moved { IsOffer self.old self.new piece }
        ensures flushed { (self.new.backlog ≡ []) ⊎ (known_slots self.new ≡ 0) }
    {
        match self.producer.push(piece) {
            Ok(()) => gate.pushed(side),
            Err(PushError::Full(piece)) => self.backlog.push_back_reserved(piece),
        }
    }

    /// Offers a piece behind those that wait.
    fn offer_behind<G: Gate>(&mut self, gate: &G, side: Side, piece: Piece)
        requires { 0 < spare self.old }
        ensures same { SameEnd self.old self.new }
        ensures memory { self.new.capacity ≡ self.old.capacity }
        ensures received { received_by self.new ≡ received_by self.old }
        ensures moved { IsOffer self.old self.new piece }
        ensures flushed { (self.new.backlog ≡ []) ⊎ (known_slots self.new ≡ 0) }
    {
        self.backlog.push_back_reserved(piece);
        for moved in 0..self.backlog.len() {
            let Some(first) = self.backlog.front().copied() else {
                return;
            };
            if self.producer.push(first).is_err() {
                return;
            }
            self.backlog.pop_front();
            gate.pushed(side);
        }
    }

    /// The next piece of the other side, if one has come.
    pub(crate) fn poll<G: Gate>(&mut self, gate: &G, side: Side) -> Option<Piece>
        ensures same { SameEnd self.old self.new }
        ensures memory { self.new.capacity ≡ self.old.capacity }
        ensures sent { sent_by self.new ≡ sent_by self.old }
        ensures backlog { self.new.backlog ≡ self.old.backlog }
        ensures received { received_by self.new ≡ received_by self.old ++ option_to_list result }
        ensures none { IfNone result (known_pieces self.new ≡ []) }
    {
        let piece = self.consumer.pop().ok()?;
        gate.popped(side);
        Some(piece)
    }

    /// The next piece that is on its way from this end, where both ends are in one thread.
    pub(crate) fn hand_over(&mut self, to: &mut End) -> Option<Piece>
        requires { Feeds self.old to.old }
        ensures from_same { SameEnd self.old self.new }
        ensures from_memory { self.new.capacity ≡ self.old.capacity }
        ensures from_received { received_by self.new ≡ received_by self.old }
        ensures from_sent { sent_by self.new ≡ sent_by self.old }
        ensures from_backlog { self.new.backlog
            ≡ backlog_left (ring_between self.old to.old) self.old.backlog }
        ensures to_same { SameEnd to.old to.new }
        ensures to_memory { to.new.capacity ≡ to.old.capacity }
        ensures to_sent { sent_by to.new ≡ sent_by to.old }
        ensures to_backlog { to.new.backlog ≡ to.old.backlog }
        ensures to_received { received_by to.new
            ≡ received_by to.old ++ take 1 (ring_between self.old to.old) }
        ensures order { received_by to.old ++ ring_between self.old to.old ≡ sent_by self.old }
        ensures answer { result ≡ first (pending_between self.old to.old) }
        ensures next { pending_between self.old to.old
            ≡ option_to_list result ++ pending_between self.new to.new }
    {
        if to.consumer.slots_beside(&mut self.producer) == 0 {
            self.backlog.pop_front()
        } else {
            Some(to.consumer.pop_known())
        }
    }
}
