ghost use Rattle.std.specs.Prelude.{◌≡◌, ℕ, ◌<◌, ◌≤◌, true, [], length, IfOk};
ghost use Rattle.window.specs.Windows.{AreDifferent};
ghost use Rattle.host_side.specs.Sending.{first_number};
ghost use Rattle.host_side.specs.Hosts.{has_stream, next_of, StandsFor};
ghost use Rattle.net_side.specs.Nets.{is_among, is_partner};
ghost use Rattle.ring_link.specs.Ends.{spare};
ghost use Rattle.unit_core.specs.Tallies.{nothing_counted};
ghost use Rattle.unit_core.specs.Turns.{Turned};
ghost use Rattle.unit_core.specs.inside.Units.{SameUnit, IsAtRest};
ghost use Rattle.unit_core.specs.inside.Both.{BothTurned};

use crate::host_turn::host_turn;
use crate::net_turn::net_turn;
use crate::out::TurnOut;
use crate::parts::{HostOut, NetOut};
use crate::sends::{Outgoing, Sends};
use crate::settling::{hear_rest, seal_rest};
use crate::tally::Tally;
use host_side::HostSide;
use net_side::NetSide;
use ring_link::{Gate, Link};
use seal_core::{KeyPair, Seal};
use std::alloc::{AllocError, Global};
use std::marker::Model;
use std::thread::{Threads, join_mut};

/// How many pieces the backlog of each end has room for: those of 4 sends, and of 256 frames.
const BACKLOG: u16 = 256;

/// A unit of one host or manager.
#[derive(Drop)]
pub struct Unit<S: Seal> {
    host: HostSide,
    net: NetSide<S>,
    link: Link,
    tally: Tally,
}

impl<S: Seal> Model for Unit<S> {
    ghost use Rattle.unit_core.specs.Views.{UnitView};

    ghost Value = { UnitView };

    ghost use Rattle.unit_core.specs.inside.Units.{unit_of, SameUnit, IsAtRest};

    ghost view = { λ a. unit_of a.host a.net a.link a.tally };

    ghost invariant = { λ a. SameUnit a.host a.net × IsAtRest a.link };
}

/// Runs both sides, in a thread each where threads can be made. Says how many pieces the host's
/// side heard.
fn both_sides<R: Threads, S: Seal + Sync, G: Gate + Sync>(
    rt: &R,
    gate: &G,
    host: &mut HostSide,
    net: &NetSide<S>,
    link: &mut Link,
    sends: &[Outgoing],
    frames: &[[u8; 128]],
    host_out: &mut HostOut,
    net_out: &mut NetOut,
) -> u16
    requires sends { length sends.now ≤ 4 }
    requires frames { length frames.now ≤ 256 }
    requires unit { SameUnit host.old net.now }
    requires rest { IsAtRest link.old }
    requires host_room { 256 ≤ spare link.old.host }
    requires net_room { 256 ≤ spare link.old.net }
    requires answers { host_out.old.answers.items ≡ [] }
    requires messages { host_out.old.messages.list ≡ [] }
    requires kinds { net_out.old.kinds.items ≡ [] }
    requires places { net_out.old.places.items ≡ [] }
    requires sealed { net_out.old.sealed.items ≡ [] }
    ensures { BothTurned S.sealed_text sends.now frames.now host.old host.new net.now link.old
        link.new host_out.old host_out.new net_out.old net_out.new result }
{
    let polls = frames.len() as u16;
    let (heard, _) = join_mut(
        rt,
        &mut || host_turn(host, &mut link.host, gate, sends, polls, host_out),
        &mut || net_turn(net, &mut link.net, gate, frames, net_out),
    );
    heard
}

impl<S: Seal + Send + Sync> Unit<S> {
    /// The unit with this address. It takes all the memory that its turns will need.
    pub fn open(
        alloc: Global,
        seal: S,
        keys: KeyPair,
        address: u8,
        partition: u8,
        partners: &[u8],
    ) -> Result<Unit<S>, AllocError>
        requires few { length partners.now ≤ 64 }
        requires different { AreDifferent partners.now }
        ensures address { IfOk result (λ unit.
            (unit.host.address ≡ address) × (unit.net.address ≡ address)) }
        ensures partition { IfOk result (λ unit.
            (unit.host.partition ≡ partition) × (unit.net.partition ≡ partition)) }
        ensures keys { IfOk result (λ unit. unit.net.keys ≡ keys) }
        ensures partners { IfOk result (λ unit. (a : ℕ) → a < 256 →
            is_partner unit.net a ≡ is_among partners.now a) }
        ensures numbers { IfOk result (λ unit. (a : ℕ) → a < 256 →
            next_of unit.host a ≡ first_number partners.now 0 a) }
        ensures stands { IfOk result (λ unit. (a : ℕ) → a < 256 →
            has_stream unit.host a ≡ true → StandsFor unit.host a []) }
        ensures tally { IfOk result (λ unit. unit.tally ≡ nothing_counted) }
    {
        let host = HostSide::open(alloc, address, partition, partners)?;
        let link = Link::open(alloc, BACKLOG)?;
        Ok(Unit {
            host,
            net: NetSide::open(seal, keys, address, partition, partners),
            link,
            tally: Tally::new(),
        })
    }

    /// One turn on these sends and frames. The two sides run in a thread each, where threads can
    /// be made.
    pub fn turn<R: Threads, G: Gate + Sync>(
        &mut self,
        rt: &R,
        gate: &G,
        sends: &Sends,
        frames: &[[u8; 128]],
        out: &mut TurnOut,
    )
        requires sends { length sends.now ≤ 4 }
        requires frames { length frames.now ≤ 256 }
        ensures turned { Turned S.sealed_text self.old sends.now frames.now self.new out.new }
        ensures room { out.new.room ≡ out.old.room }
    {
        out.host.clear();
        out.net.clear();
        let heard = both_sides(
            rt,
            gate,
            &mut self.host,
            &self.net,
            &mut self.link,
            &sends.list,
            frames,
            &mut out.host,
            &mut out.net,
        );
        hear_rest(
            &mut self.host,
            &mut self.link,
            heard,
            &mut out.host.messages,
            &mut out.host.body,
        );
        seal_rest(&self.net, &mut self.link, &mut out.net);
        out.host.renumber(&out.net.places);
        self.tally.count(
            out.net.sealed.len() as u64,
            out.net.places.len() as u64,
            out.host.messages.len() as u64,
        );
    }

    /// Ends the unit, and gives what it counted.
    pub fn close(self) -> Tally
        ensures { result ≡ self.tally }
    {
        self.tally
    }
}
