ghost use Rattle.std.specs.Prelude.{◌≡◌, ◌+◌, ◌<◌, ◌≤◌, ◌⊎◌, ◌↔◌, None, [], ◌∷◌, ◌++◌, take, IfOk, IfNone, option_to_list};
ghost use Rattle.ring_link.specs.Ends.{sent_by, received_by, taken_by, spare, known_slots, known_pieces, IsOffer, SameEnd, backlog_left, first};

use crate::end::End;
use crate::gate::{Gate, Side};
use frame::Piece;
use rtrb::RingBuffer;
use std::alloc::{AllocError, Global};
use std::marker::Model;

/// How many pieces a ring has room for.
const SLOTS: usize = 16;

/// The end of the side that speaks to the host.
#[derive(Drop)]
pub struct HostEnd {
    end: End,
}

impl Model for HostEnd {
    ghost use Rattle.ring_link.specs.EndView.{EndView};

    ghost Value = { EndView };

    ghost view = { λ a. a.end };
}

impl HostEnd {
    /// Offers a piece to the network's side. What the ring doesn't take waits in the backlog, which
    /// goes first.
    pub fn offer<G: Gate>(&mut self, gate: &G, piece: Piece)
        requires { 0 < spare self.old }
        ensures same { SameEnd self.old self.new }
        ensures memory { self.new.capacity ≡ self.old.capacity }
        ensures spare { spare self.old ≤ spare self.new + 1 }
        ensures received { received_by self.new ≡ received_by self.old }
        ensures taken { taken_by self.new ≡ taken_by self.old ++ piece ∷ [] }
        ensures moved { IsOffer self.old self.new piece }
        ensures flushed { (self.new.backlog ≡ []) ⊎ (known_slots self.new ≡ 0) }
    {
        self.end.offer(gate, Side::Host, piece);
    }

    /// The next piece of the network's side, if one is there.
    pub fn poll<G: Gate>(&mut self, gate: &G) -> Option<Piece>
        ensures same { SameEnd self.old self.new }
        ensures memory { self.new.capacity ≡ self.old.capacity }
        ensures sent { sent_by self.new ≡ sent_by self.old }
        ensures backlog { self.new.backlog ≡ self.old.backlog }
        ensures received { received_by self.new ≡ received_by self.old ++ option_to_list result }
        ensures none { IfNone result (known_pieces self.new ≡ []) }
    {
        self.end.poll(gate, Side::Host)
    }
}

/// The end of the side that speaks to the network.
#[derive(Drop)]
pub struct NetEnd {
    end: End,
}

impl Model for NetEnd {
    ghost use Rattle.ring_link.specs.EndView.{EndView};

    ghost Value = { EndView };

    ghost view = { λ a. a.end };
}

impl NetEnd {
    /// Offers a piece to the host's side. What the ring doesn't take waits in the backlog, which
    /// goes first.
    pub fn offer<G: Gate>(&mut self, gate: &G, piece: Piece)
        requires { 0 < spare self.old }
        ensures same { SameEnd self.old self.new }
        ensures memory { self.new.capacity ≡ self.old.capacity }
        ensures spare { spare self.old ≤ spare self.new + 1 }
        ensures received { received_by self.new ≡ received_by self.old }
        ensures taken { taken_by self.new ≡ taken_by self.old ++ piece ∷ [] }
        ensures moved { IsOffer self.old self.new piece }
        ensures flushed { (self.new.backlog ≡ []) ⊎ (known_slots self.new ≡ 0) }
    {
        self.end.offer(gate, Side::Net, piece);
    }

    /// The next piece of the host's side, if one is there.
    pub fn poll<G: Gate>(&mut self, gate: &G) -> Option<Piece>
        ensures same { SameEnd self.old self.new }
        ensures memory { self.new.capacity ≡ self.old.capacity }
        ensures sent { sent_by self.new ≡ sent_by self.old }
        ensures backlog { self.new.backlog ≡ self.old.backlog }
        ensures received { received_by self.new ≡ received_by self.old ++ option_to_list result }
        ensures none { IfNone result (known_pieces self.new ≡ []) }
    {
        self.end.poll(gate, Side::Net)
    }
}

/// Two rings, with an end for each side, which are lent to the sides as they are.
#[derive(Drop)]
pub struct Link {
    pub host: HostEnd,
    pub net: NetEnd,
}

impl Link {
    ghost use Rattle.ring_link.specs.declared.gate.Side.{Side};
    ghost use Rattle.ring_link.specs.Sides.{other_side};
    ghost use Rattle.ring_link.specs.Links.{end_at, end_towards, received_at, sent_towards, backlog_towards, taken_towards, ring_towards, pending_towards, IsLinked, IsSettled, SameLink, SameTowards};

    /// A link with nothing in it, whose ends have backlogs of `room` pieces. It takes all the
    /// memory that its calls will need.
    pub fn open(alloc: Global, room: u16) -> Result<Link, AllocError>
        ensures linked { IfOk result IsLinked }
        ensures to_host { IfOk result (IsSettled Side.Host) }
        ensures to_net { IfOk result (IsSettled Side.Net) }
        ensures host_spare { IfOk result (λ link. spare link.host ≡ room) }
        ensures net_spare { IfOk result (λ link. spare link.net ≡ room) }
        ensures host_room { IfOk result (λ link. link.host.room ≡ room) }
        ensures net_room { IfOk result (λ link. link.net.room ≡ room) }
    {
        let (to_net, from_host) = RingBuffer::new(alloc, SLOTS)?;
        let (to_host, from_net) = RingBuffer::new(alloc, SLOTS)?;
        let host = End::open(alloc, to_net, from_net, room)?;
        let net = End::open(alloc, to_host, from_host, room)?;
        Ok(Link {
            host: HostEnd { end: host },
            net: NetEnd { end: net },
        })
    }

    /// The next piece towards that side, where both ends are in one thread again.
    pub fn settle(&mut self, side: Side) -> Option<Piece>
        requires { IsLinked self.old }
        ensures same { SameLink self.old self.new }
        ensures host_memory { self.new.host.capacity ≡ self.old.host.capacity }
        ensures net_memory { self.new.net.capacity ≡ self.old.net.capacity }
        ensures order { received_at side self.old ++ pending_towards side self.old
            ≡ taken_towards side self.old }
        ensures none { (result ≡ None)
            ↔ (received_at side self.old ≡ taken_towards side self.old) }
        ensures next { pending_towards side self.old
            ≡ option_to_list result ++ pending_towards side self.new }
        ensures settled { IfNone result (IsSettled side self.new) }
        ensures spare { IfNone result
            (spare (end_towards side self.new) ≡ (end_towards side self.new).room) }
        ensures sent { sent_towards side self.new ≡ sent_towards side self.old }
        ensures received { received_at side self.new
            ≡ received_at side self.old ++ take 1 (ring_towards side self.old) }
        ensures backlog { backlog_towards side self.new
            ≡ backlog_left (ring_towards side self.old) (backlog_towards side self.old) }
        ensures other { SameTowards (other_side side) self.old self.new }
    {
        match side {
            Side::Host => self.net.end.hand_over(&mut self.host.end),
            Side::Net => self.host.end.hand_over(&mut self.net.end),
        }
    }
}
