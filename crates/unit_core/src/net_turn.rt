ghost use Rattle.std.specs.Prelude.{◌≡◌, ℕ, ◌+◌, ◌<◌, ◌≤◌, [], ◌∷◌, length};
ghost use Rattle.ring_link.specs.Ends.{spare};
ghost use Rattle.unit_core.specs.Hearing.{kind_of};
ghost use Rattle.unit_core.specs.inside.Sides.{Opens, Seals, SealsSome, NetTurned};

use crate::parts::NetOut;
use crate::rows::FrameKind;
use frame::Piece;
use net_side::{Inbound, NetSide};
use ring_link::{Gate, NetEnd};
use seal_core::Seal;

/// How many pieces the network's side takes at most while the other side works.
const POLLS: u16 = 256;

fn kind_of(inbound: &Inbound) -> FrameKind
    ensures { result ≡ kind_of inbound.now }
{
    match inbound {
        Inbound::Foreign => FrameKind::Foreign,
        Inbound::Closed => FrameKind::Closed,
        Inbound::Malformed => FrameKind::Malformed,
        Inbound::NotMine => FrameKind::NotMine,
        Inbound::Ours(_) => FrameKind::Ours,
    }
}

/// Opens the frame with this index, and offers its piece if it is the unit's.
fn open_one<S: Seal, G: Gate>(
    net: &NetSide<S>,
    end: &mut NetEnd,
    gate: &G,
    index: u16,
    frame: &[u8; 128],
    out: &mut NetOut,
)
    requires spare { 0 < spare end.old }
    requires kinds { length out.old.kinds.items < 256 }
    requires places { length out.old.places.items < 256 }
    ensures { Opens S.sealed_text net.now index (frame.now ∷ []) end.old end.new out.old
        out.new }
{
    let inbound = net.inbound(frame);
    out.kinds.push_reserved(kind_of(&inbound));
    if let Inbound::Ours(piece) = inbound {
        out.places.push_reserved(index);
        end.offer(gate, piece);
    }
}

/// Opens the frames, and offers the pieces that are the unit's.
fn open_all<S: Seal, G: Gate>(
    net: &NetSide<S>,
    end: &mut NetEnd,
    gate: &G,
    frames: &[[u8; 128]],
    out: &mut NetOut,
)
    requires few { length frames.now ≤ 256 }
    requires room { length frames.now ≤ spare end.old }
    requires kinds { out.old.kinds.items ≡ [] }
    requires places { out.old.places.items ≡ [] }
    ensures { Opens S.sealed_text net.now 0 frames.now end.old end.new out.old out.new }
{
    for (index, frame) in frames.iter().enumerate() {
        open_one(net, end, gate, index as u16, frame, out);
    }
}

/// Seals a piece. It takes no memory.
pub(crate) fn seal<S: Seal>(net: &NetSide<S>, piece: &Piece, out: &mut NetOut)
    requires { length out.old.sealed.items < 256 }
    ensures { Seals S.sealed_text net.now.keys (piece.now ∷ []) out.old out.new }
{
    let mut frame = [0; 128];
    net.outbound(piece, &mut frame);
    out.sealed.push_reserved(frame);
}

/// Seals what comes while the other side works.
fn seal_some<S: Seal, G: Gate>(net: &NetSide<S>, end: &mut NetEnd, gate: &G, out: &mut NetOut)
    requires { out.old.sealed.items ≡ [] }
    ensures { SealsSome S.sealed_text net.now.keys 256 end.old end.new out.old out.new }
{
    for _ in 0..POLLS {
        let Some(piece) = end.poll(gate) else {
            return;
        };
        seal(net, &piece, out);
    }
}

/// Opens the frames, and then seals what comes.
pub(crate) fn net_turn<S: Seal, G: Gate>(
    net: &NetSide<S>,
    end: &mut NetEnd,
    gate: &G,
    frames: &[[u8; 128]],
    out: &mut NetOut,
)
    requires few { length frames.now ≤ 256 }
    requires room { 256 ≤ spare end.old }
    requires kinds { out.old.kinds.items ≡ [] }
    requires places { out.old.places.items ≡ [] }
    requires sealed { out.old.sealed.items ≡ [] }
    ensures { NetTurned S.sealed_text net.now frames.now 256 end.old end.new out.old out.new }
{
    open_all(net, end, gate, frames, out);
    seal_some(net, end, gate, out);
}
