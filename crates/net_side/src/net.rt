ghost use Rattle.std.specs.Prelude.{◌≡◌, ℕ, ◌<◌, ◌≤◌, length, false};
ghost use Rattle.std.proofs.Math.ListN.{get_or};
ghost use Rattle.frame.specs.Pieces.{PieceView};
ghost use Rattle.frame.specs.Frames.{frame_of};
ghost use Rattle.net_side.specs.Nets.{is_among, is_partner, is_for, IsInbound};

use crate::inbound::Inbound;
use frame::{Opening, Piece, open_frame, seal_frame};
use seal_core::{KeyPair, Seal};
use std::marker::Model;

/// The network's side of one unit.
#[derive(Drop)]
pub struct NetSide<S: Seal> {
    seal: S,
    keys: KeyPair,
    address: u8,
    partition: u8,
    /// Of each address whether it is a partner's.
    partners: [bool; 256],
}

impl<S: Seal> Model for NetSide<S> {
    ghost use Rattle.net_side.specs.NetView.{NetView};

    ghost Value = { NetView };

    ghost view = { λ a. record {
      address = a.address;
      partition = a.partition;
      keys = a.keys;
      partners = a.partners;
    } };
}

/// Of each address whether it is among these.
fn marked(partners: &[u8]) -> [bool; 256]
    ensures { (a : ℕ) → a < 256 → get_or result a false ≡ is_among partners.now a }
{
    let mut marks = [false; 256];
    for address in 0..256u16 {
        marks[usize::from(address)] = partners.contains(&(address as u8));
    }
    marks
}

impl<S: Seal> NetSide<S> {
    /// The side of the unit with this address.
    pub fn open(seal: S, keys: KeyPair, address: u8, partition: u8, partners: &[u8]) -> NetSide<S>
        requires few { length partners.now ≤ 64 }
        ensures address { result.address ≡ address }
        ensures partition { result.partition ≡ partition }
        ensures keys { result.keys ≡ keys }
        ensures partners { (a : ℕ) → a < 256 → is_partner result a ≡ is_among partners.now a }
    {
        NetSide {
            seal,
            keys,
            address,
            partition,
            partners: marked(partners),
        }
    }

    /// Whether a piece is to this unit, from one of its partners.
    fn takes(&self, piece: &Piece) -> bool
        ensures { result ≡ is_for self.now piece.now }
    {
        piece.to() == self.address
            && piece.partition() == self.partition
            && self.partners[usize::from(piece.from())]
    }

    /// What the bytes of a frame are to this unit.
    pub fn inbound(&self, bytes: &[u8; 128]) -> Inbound
        ensures { IsInbound S.sealed_text self.now bytes.now result }
    {
        match open_frame(&self.seal, &self.keys, self.partition, bytes) {
            Opening::Foreign => Inbound::Foreign,
            Opening::Closed => Inbound::Closed,
            Opening::Malformed => Inbound::Malformed,
            Opening::Opened(piece) => {
                if self.takes(&piece) {
                    Inbound::Ours(piece)
                } else {
                    Inbound::NotMine
                }
            }
        }
    }

    /// Writes the frame of a piece.
    pub fn outbound(&self, piece: &Piece, out: &mut [u8; 128])
        ensures { out.new ≡ frame_of S.sealed_text self.now.keys piece.now }
    {
        seal_frame(&self.seal, &self.keys, piece, out);
    }
}
