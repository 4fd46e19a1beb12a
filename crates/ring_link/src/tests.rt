ghost use Rattle.std.specs.Prelude.{◌≤◌};
ghost use Rattle.ring_link.specs.Ends.{spare, SameEnd};

use crate::{Gate, HostEnd, Link, NetEnd, NoGate, Side};
use frame::{Piece, cut, pieces};
use std::sync::atomic::{AtomicU64, Ordering};
use std::test::Fail;
use std::thread::join_mut;

/// The last piece of a message with this number.
fn piece(message: u32) -> Piece {
    cut(1, 2, 0, message, b"hi", pieces(2) - 1)
}

#[test]
fn what_waits_settles_in_order(rt: HostRuntime) -> Result<(), Fail> {
    let mut link = Link::open(rt.alloc(), 256)?;
    for message in 0..40u32 {
        link.host.offer(&NoGate, piece(message));
    }
    for message in 0..40u32 {
        assert!(rt;
            link.settle(Side::Net) == Some(piece(message)),
            "at {message}"
        );
    }
    assert!(rt; link.settle(Side::Net) == None);
    assert!(rt; link.settle(Side::Host) == None);
    Ok(())
}

/// Counts the pushes and pops of each side.
#[derive(Drop)]
struct Counts {
    host: [AtomicU64; 2],
    net: [AtomicU64; 2],
}

impl Counts {
    fn of(&self, side: Side) -> &[AtomicU64; 2] {
        match side {
            Side::Host => &self.host,
            Side::Net => &self.net,
        }
    }

    /// How often each side has pushed and popped, the host's side first.
    fn all(&self) -> [u64; 4] {
        [
            self.host[0].load(Ordering::SeqCst),
            self.host[1].load(Ordering::SeqCst),
            self.net[0].load(Ordering::SeqCst),
            self.net[1].load(Ordering::SeqCst),
        ]
    }
}

impl Gate for Counts {
    fn pushed(&self, side: Side) {
        self.of(side)[0].fetch_add(1, Ordering::SeqCst);
    }

    fn popped(&self, side: Side) {
        self.of(side)[1].fetch_add(1, Ordering::SeqCst);
    }
}

#[test]
fn a_gate_is_told_of_each_push_and_pop(rt: HostRuntime) -> Result<(), Fail> {
    let gate = Counts {
        host: [AtomicU64::new(0), AtomicU64::new(0)],
        net: [AtomicU64::new(0), AtomicU64::new(0)],
    };
    let mut link = Link::open(rt.alloc(), 2)?;
    link.host.offer(&gate, piece(0));
    assert!(rt; gate.all() == [1, 0, 0, 0]);
    assert!(rt; link.net.poll(&gate) == Some(piece(0)));
    assert!(rt; link.net.poll(&gate) == None);
    assert!(rt; gate.all() == [1, 0, 0, 1]);
    link.net.offer(&gate, piece(1));
    assert!(rt; link.host.poll(&gate) == Some(piece(1)));
    assert!(rt; gate.all() == [1, 1, 1, 1]);
    Ok(())
}

/// Offers twenty pieces, and answers how many of the other side's come meanwhile, in their order.
fn host_works(end: &mut HostEnd) -> u32
    requires { 20 ≤ spare end.old }
    ensures { SameEnd end.old end.new }
{
    let mut came = 0;
    for message in 0..20u32 {
        end.offer(&NoGate, piece(message));
        if end.poll(&NoGate) == Some(piece(came)) {
            came += 1;
        }
    }
    came
}

fn net_works(end: &mut NetEnd) -> u32
    requires { 20 ≤ spare end.old }
    ensures { SameEnd end.old end.new }
{
    let mut came = 0;
    for message in 0..20u32 {
        end.offer(&NoGate, piece(message));
        if end.poll(&NoGate) == Some(piece(came)) {
            came += 1;
        }
    }
    came
}

#[test]
fn two_threads_lose_nothing(rt: HostRuntime) -> Result<(), Fail> {
    let mut link = Link::open(rt.alloc(), 20)?;
    let (at_host, at_net) = join_mut(
        &rt,
        &mut || host_works(&mut link.host),
        &mut || net_works(&mut link.net),
    );
    for message in at_host..20 {
        assert!(rt;
            link.settle(Side::Host) == Some(piece(message)),
            "at {message}"
        );
    }
    assert!(rt; link.settle(Side::Host) == None);
    for message in at_net..20 {
        assert!(rt;
            link.settle(Side::Net) == Some(piece(message)),
            "at {message}"
        );
    }
    assert!(rt; link.settle(Side::Net) == None);
    Ok(())
}

fn is_sent<T: Send>(_value: &T) {}

#[test]
fn ends_may_go_to_other_threads(rt: HostRuntime) -> Result<(), Fail> {
    let link = Link::open(rt.alloc(), 1)?;
    is_sent(&link.host);
    is_sent(&link.net);
    Ok(())
}
