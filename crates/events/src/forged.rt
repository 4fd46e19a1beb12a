ghost use Rattle.std.specs.Prelude.{◌≡◌, length, IfOk};
ghost use Rattle.seal_core.specs.Blocks.{AreBytes};

use std::alloc::{AllocError, Global};
use std::marker::Model;

/// The bytes of a frame that the network makes up. They are kept apart, so that no event is as wide
/// as a frame.
#[derive(Debug, Drop)]
pub struct ForgedFrame {
    bytes: Box<[u8; 128]>,
}

impl Model for ForgedFrame {
    ghost use Rattle.std.specs.Prelude.{List, ℕ};

    ghost Value = { List ℕ };

    ghost use Rattle.events.specs.inside.Forged.{bytes_of, IsKept};

    ghost view = { bytes_of };

    ghost invariant = { IsKept };
}

fn bytes_of(bytes: &[u8]) -> &[u8]
    ensures { AreBytes bytes.now }
{
    bytes
}

/// The bytes of a frame.
fn frame_bytes(bytes: &[u8; 128]) -> &[u8]
    ensures len { length bytes.now ≡ 128 }
    ensures bytes { AreBytes bytes.now }
{
    bytes_of(bytes)
}

impl ForgedFrame {
    /// A copy of the bytes.
    pub fn new(alloc: Global, bytes: &[u8; 128]) -> Result<ForgedFrame, AllocError>
        ensures { IfOk result (λ frame. frame ≡ bytes.now) }
    {
        let _bytes = frame_bytes(bytes);
        let bytes = Box::new(alloc, *bytes)?;
        Ok(ForgedFrame { bytes })
    }

    pub fn bytes(&self) -> &[u8; 128]
        ensures same { result.now ≡ self.now }
        ensures len { length self.now ≡ 128 }
        ensures bytes { AreBytes self.now }
    {
        &self.bytes
    }
}
