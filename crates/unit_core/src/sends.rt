ghost use Rattle.std.specs.Prelude.{◌≡◌, [], ◌∷◌, ◌++◌, length, OnOk, OnErr};

use std::alloc::{AllocError, Global};
use std::marker::Model;

/// A message, and the address that it is sent to.
#[derive(Drop)]
pub(crate) struct Outgoing {
    pub(crate) to: u8,
    pub(crate) message: Vec<u8>,
}

impl Model for Outgoing {
    ghost use Rattle.unit_core.specs.Views.{OutgoingView};

    ghost Value = { OutgoingView };

    ghost view = { λ a. record { to = a.to; message = a.message.items } };
}

/// What a host sends in one turn, in order.
#[derive(Drop)]
pub struct Sends {
    alloc: Global,
    pub(crate) list: Vec<Outgoing>,
}

impl Model for Sends {
    ghost use Rattle.std.specs.Prelude.{List};
    ghost use Rattle.unit_core.specs.Views.{OutgoingView};

    ghost Value = { List OutgoingView };

    ghost view = { λ a. a.list.items };
}

impl Sends {
    pub fn new(alloc: Global) -> Sends
        ensures { result ≡ [] }
    {
        Sends {
            alloc,
            list: Vec::new(alloc),
        }
    }

    /// Adds a message to an address. A party that has no address in the sender's partition is
    /// handed down as 255, which is nobody's.
    pub fn add(&mut self, to: u8, message: &[u8]) -> Result<(), AllocError>
        ensures added { OnOk result
            (self.new ≡ self.old ++ record { to = to; message = message.now } ∷ []) }
        ensures unchanged { OnErr result (self.new ≡ self.old) }
    {
        let message = message.to_vec(self.alloc)?;
        self.list.push(Outgoing { to, message })?;
        Ok(())
    }

    pub fn len(&self) -> usize
        ensures { result ≡ length self.now }
    {
        self.list.len()
    }

    pub fn clear(&mut self)
        ensures { self.new ≡ [] }
    {
        self.list.clear();
    }
}
