ghost use Rattle.std.specs.Prelude.{◌≡◌, ◌<◌, length, replicate, None, Some};
ghost use Rattle.std.proofs.Math.ListN.{get_or, set};
ghost use Rattle.frame_pool.specs.Pools.{held_count};

use crate::pool::PLACES;
use std::marker::Model;

/// What stands at a place where no slot is held.
const NO_SLOT: u16 = 65_535;

/// The places of one owner, each with a slot or none.
#[derive(Drop)]
pub struct Chain {
    slots: [u16; PLACES],
    /// At how many places a slot is held.
    held: u16,
}

impl Model for Chain {
    ghost use Rattle.std.specs.Prelude.{ℕ, List, Option};

    ghost Value = { List (Option ℕ) };

    ghost use Rattle.frame_pool.specs.inside.Chains.{places_of, IsCounted};

    ghost view = { places_of };

    ghost invariant = { IsCounted };
}

impl Chain {
    pub(crate) fn empty() -> Chain
        ensures { result ≡ replicate 256 None }
    {
        Chain {
            slots: [NO_SLOT; PLACES],
            held: 0,
        }
    }

    /// At how many places a slot is held.
    pub(crate) fn held(&self) -> u16
        ensures { result ≡ held_count self.now }
    {
        self.held
    }

    /// The slot at a place.
    pub(crate) fn at(&self, place: usize) -> Option<u16>
        requires { place < 256 }
        ensures { result ≡ get_or self.now place None }
    {
        let slot = self.slots[place];
        if slot == NO_SLOT { None } else { Some(slot) }
    }

    /// Puts a slot at an empty place.
    pub(crate) fn hold(&mut self, place: usize, slot: u16)
        requires place { place < 256 }
        requires empty { get_or self.old place None ≡ None }
        requires slot { slot < 65535 }
        ensures { self.new ≡ set self.old place (Some slot) }
    {
        self.slots[place] = slot;
        self.held += 1;
    }

    /// Empties a place, and gives the slot that was held there.
    pub(crate) fn let_go(&mut self, place: usize) -> Option<u16>
        requires { place < 256 }
        ensures slot { result ≡ get_or self.old place None }
        ensures chain { self.new ≡ set self.old place None }
    {
        let slot = self.at(place)?;
        self.slots[place] = NO_SLOT;
        self.held -= 1;
        Some(slot)
    }
}
