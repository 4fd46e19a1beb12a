ghost use Rattle.std.specs.Prelude.{◌≡◌, ℕ, ◌≤◌, ◌<◌, ◌+◌, true, None, List, [], ◌∷◌, length, drop, IfOk, OnErr, IfSome, IfNone};
ghost use Rattle.frame.specs.Pieces.{PieceView};
ghost use Rattle.window.specs.Windows.{AreDifferent, SameElsewhere};
ghost use Rattle.host_side.specs.Sending.{send_answer, first_number};
ghost use Rattle.host_side.specs.Hosts.{has_stream, next_of, with_next, is_for, StandsFor, given_at, out_after, SameNames};
ghost use Rattle.std.proofs.Math.ListN.{get_or};

use frame::{MESSAGE_LIMIT, Piece, SendRefused};
use std::alloc::{AllocError, Global};
use std::marker::Model;
use window::{Taken, Window};

/// A message that was given: its sender's address, its number in the stream, and how many bytes it
/// has.
#[derive(Clone, Copy, Debug, PartialEq, Eq)]
pub struct Given {
    pub from: u8,
    pub message: u32,
    pub length: u16,
}

/// The host's side of one unit.
#[derive(Drop)]
pub struct HostSide {
    address: u8,
    partition: u8,
    /// The next number of the stream to each partner, at the partner's address.
    streams: Vec<Option<u32>>,
    window: Window,
}

impl Model for HostSide {
    ghost use Rattle.host_side.specs.HostView.{HostView};

    ghost Value = { HostView };

    ghost use Rattle.host_side.specs.inside.Kept.{view_of, IsHostSide};

    ghost view = { view_of };

    ghost invariant = { λ a. IsHostSide (view_of a) };
}

/// The first number of the stream to each partner.
fn first_numbers(alloc: Global, partners: &[u8], first: u32) -> Result<Vec<Option<u32>>, AllocError>
    ensures count { IfOk result (λ streams. length streams.items ≡ 256) }
    ensures numbers { IfOk result (λ streams. (a : ℕ) → a < 256 →
        get_or streams.items a None ≡ first_number partners.now first a) }
{
    let mut streams = Vec::with_capacity(alloc, 256)?;
    for address in 0..256u16 {
        let is_partner = partners.contains(&(address as u8));
        streams.push(if is_partner { Some(first) } else { None })?;
    }
    Ok(streams)
}

impl HostSide {
    /// The side of the host with this address. It takes all the memory that its calls will need.
    pub fn open(
        alloc: Global,
        address: u8,
        partition: u8,
        partners: &[u8],
    ) -> Result<HostSide, AllocError>
        requires few { length partners.now ≤ 64 }
        requires different { AreDifferent partners.now }
        ensures address { IfOk result (λ host. host.address ≡ address) }
        ensures partition { IfOk result (λ host. host.partition ≡ partition) }
        ensures numbers { IfOk result
            (λ host. (a : ℕ) → a < 256 → next_of host a ≡ first_number partners.now 0 a) }
        ensures stands { IfOk result
            (λ host. (a : ℕ) → a < 256 → has_stream host a ≡ true → StandsFor host a []) }
    {
        HostSide::open_at(alloc, address, partition, partners, 0)
    }

    /// The same, with streams that begin at the message number `first`.
    pub fn open_at(
        alloc: Global,
        address: u8,
        partition: u8,
        partners: &[u8],
        first: u32,
    ) -> Result<HostSide, AllocError>
        requires few { length partners.now ≤ 64 }
        requires different { AreDifferent partners.now }
        ensures address { IfOk result (λ host. host.address ≡ address) }
        ensures partition { IfOk result (λ host. host.partition ≡ partition) }
        ensures numbers { IfOk result
            (λ host. (a : ℕ) → a < 256 → next_of host a ≡ first_number partners.now first a) }
        ensures stands { IfOk result
            (λ host. (a : ℕ) → a < 256 → has_stream host a ≡ true → StandsFor host a []) }
    {
        let streams = first_numbers(alloc, partners, first)?;
        let window = Window::open(alloc, partners)?;
        Ok(HostSide {
            address,
            partition,
            streams,
            window,
        })
    }

    pub fn address(&self) -> u8
        ensures { result ≡ self.now.address }
    {
        self.address
    }

    pub fn partition(&self) -> u8
        ensures { result ≡ self.now.partition }
    {
        self.partition
    }

    /// Numbers a message to a partner. Ok has its number.
    pub fn send(&mut self, to: u8, message: &[u8]) -> Result<u32, SendRefused>
        ensures answer { result ≡ send_answer (next_of self.old to) (length message.now) }
        ensures sent { IfOk result (λ number. self.new ≡ with_next self.old to (number + 1)) }
        ensures refused { OnErr result (self.new ≡ self.old) }
        ensures room { self.new.room ≡ self.old.room }
    {
        let stream = self.streams[usize::from(to)];
        let Some(next) = stream else {
            return Err(SendRefused::NoPartner);
        };
        if message.len() > MESSAGE_LIMIT {
            return Err(SendRefused::TooLong);
        }
        if next == u32::MAX {
            return Err(SendRefused::Spent);
        }
        self.streams[usize::from(to)] = Some(next + 1);
        Ok(next)
    }

    /// Whether a piece is to this host, from one of its partners.
    pub fn takes(&self, piece: &Piece) -> bool
        ensures { result ≡ is_for self.now piece.now }
    {
        piece.to() == self.address
            && piece.partition() == self.partition
            && self.streams[usize::from(piece.from())].is_some()
    }

    /// Takes a piece. Where it completes its message, writes the message to the front of `out`.
    pub fn receive(&mut self, piece: &Piece, out: &mut [u8; 5632]) -> Option<Given>
        requires { is_for self.old piece.now ≡ true }
        ensures stands { (h : List PieceView) → StandsFor self.old piece.now.from h →
            StandsFor self.new piece.now.from (piece.now ∷ h) }
        ensures answer { (h : List PieceView) → StandsFor self.old piece.now.from h →
            result ≡ given_at h piece.now }
        ensures written { (h : List PieceView) → StandsFor self.old piece.now.from h →
            out.new ≡ out_after out.old h piece.now }
        ensures none { IfNone result (out.new ≡ out.old) }
        ensures rest { IfSome result
            (λ given. drop given.length out.new ≡ drop given.length out.old) }
        ensures short { IfSome result (λ given. given.length ≤ 5632) }
        ensures names { SameNames self.old self.new }
        ensures numbers { self.new.streams ≡ self.old.streams }
        ensures others { SameElsewhere self.old.window self.new.window piece.now.from }
        ensures room { self.new.room ≡ self.old.room }
    {
        let from = piece.from();
        match self.window.take(from, piece) {
            Taken::Nothing => None,
            Taken::Complete(length) => {
                self.window.hand_out(from, &mut out[..usize::from(length)]);
                Some(Given {
                    from,
                    message: piece.message(),
                    length,
                })
            }
        }
    }
}
