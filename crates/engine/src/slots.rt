ghost use Rattle.std.specs.Prelude.{◌≡◌, ◌<◌};
ghost use Rattle.engine.specs.Slots.{slot_of, party_at_slot, HasSlot};

use levels::{Partition, Party};

/// How many slots there are: one for each address, and one for each partition.
pub(crate) const SLOTS: usize = 512;

/// The slot of a party.
pub(crate) fn slot_of(party: Party) -> usize
    ensures slot { result ≡ slot_of party }
    ensures room { result < 512 }
    ensures fits { HasSlot party }
{
    match party {
        Party::Host(address) => usize::from(address),
        Party::Manager(partition) => 256 + usize::from(partition.0),
    }
}

/// The party of a slot.
pub(crate) fn party_of(slot: u16) -> Party
    requires { slot < 512 }
    ensures { result ≡ party_at_slot slot }
{
    if slot < 256 {
        Party::Host(slot as u8)
    } else {
        Party::Manager(Partition((slot - 256) as u8))
    }
}
