ghost use Rattle.std.specs.Prelude.{◌≡◌, [], IfOk};

use crate::parts::{HostOut, NetOut};
use crate::rows::{FrameKind, GivenRow, SendAnswer};
use std::alloc::{AllocError, Global};
use std::marker::Model;

/// What a turn fills. The room for the greatest turn is taken once.
#[derive(Drop)]
pub struct TurnOut {
    pub(crate) host: HostOut,
    pub(crate) net: NetOut,
}

impl Model for TurnOut {
    ghost use Rattle.unit_core.specs.Views.{OutView};

    ghost Value = { OutView };

    ghost use Rattle.unit_core.specs.inside.Outs.{view_of};

    ghost view = { view_of };
}

impl TurnOut {
    /// Nothing yet, with room for 4 sends and 256 frames.
    pub fn open(alloc: Global) -> Result<TurnOut, AllocError>
        ensures answers { IfOk result (λ out. out.answers ≡ []) }
        ensures kinds { IfOk result (λ out. out.kinds ≡ []) }
        ensures sealed { IfOk result (λ out. out.sealed ≡ []) }
        ensures given { IfOk result (λ out. out.given ≡ []) }
        ensures bodies { IfOk result (λ out. out.bodies ≡ []) }
    {
        let host = HostOut::open(alloc)?;
        Ok(TurnOut {
            host,
            net: NetOut::open(alloc)?,
        })
    }

    /// One answer for each send, in order.
    pub fn answers(&self) -> &[SendAnswer]
        ensures { result.now ≡ self.now.answers }
    {
        &self.host.answers
    }

    /// One kind for each frame, in order.
    pub fn kinds(&self) -> &[FrameKind]
        ensures { result.now ≡ self.now.kinds }
    {
        &self.net.kinds
    }

    /// The frames of the accepted sends, in order of send and piece.
    pub fn sealed(&self) -> &[[u8; 128]]
        ensures { result.now ≡ self.now.sealed }
    {
        &self.net.sealed
    }

    /// The messages that were given, in order of frame.
    pub fn given(&self) -> &[GivenRow]
        ensures { result.now ≡ self.now.given }
    {
        self.host.messages.rows()
    }

    /// The bytes of the messages that were given, one message after the other.
    pub fn bodies(&self) -> &[u8]
        ensures { result.now ≡ self.now.bodies }
    {
        self.host.messages.bodies()
    }
}
