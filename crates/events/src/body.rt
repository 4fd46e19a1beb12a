ghost use Rattle.std.specs.Prelude.{◌≡◌, IfOk};
ghost use Rattle.seal_core.specs.Blocks.{AreBytes};

use std::alloc::{AllocError, Global};
use std::marker::Model;

/// The bytes of a message.
#[derive(Debug, Drop)]
pub struct Body {
    bytes: Vec<u8>,
}

impl Model for Body {
    ghost use Rattle.std.specs.Prelude.{List, ℕ};
    ghost use Rattle.seal_core.specs.Blocks.{AreBytes};

    ghost Value = { List ℕ };

    ghost view = { λ a. a.bytes.items };

    ghost invariant = { λ a. AreBytes a.bytes.items };
}

impl Body {
    /// A copy of the bytes.
    pub fn new(alloc: Global, bytes: &[u8]) -> Result<Body, AllocError>
        ensures { IfOk result (λ body. body ≡ bytes.now) }
    {
        let bytes = Vec::from_slice(alloc, bytes)?;
        Ok(Body { bytes })
    }

    pub fn bytes(&self) -> &[u8]
        ensures same { result.now ≡ self.now }
        ensures bytes { AreBytes self.now }
    {
        &self.bytes
    }
}

impl From<Vec<u8>> for Body {
    ghost from_gives = { λ bytes body. body ≡ bytes.items };

    fn from(bytes: Vec<u8>) -> Body {
        Body { bytes }
    }
}
