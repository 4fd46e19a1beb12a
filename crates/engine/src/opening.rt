ghost use Rattle.std.specs.Prelude.{◌≡◌, IfOk};
ghost use Rattle.levels.specs.Kept.{IsRoster, IsComplete};
ghost use Rattle.machine.specs.Setup.{Setup};
ghost use Rattle.machine.specs.Machine.{address_of};
ghost use Rattle.engine.specs.Slots.{HasSlot};
ghost use Rattle.engine.specs.inside.Standing.{SetupOf, StartsAt};

use crate::machine_laws::machine_laws;
use desk::Desk;
use levels::{Party, Roster};
use seal_core::Seal;
use std::alloc::{AllocError, Global};

/// The address of a party in its partition.
fn address_of(party: Party) -> u8
    ensures { result ≡ address_of party }
{
    match party {
        Party::Host(address) => address,
        Party::Manager(_) => 0,
    }
}

/// The desk of a party, if the roster has it.
pub(crate) fn open_desk<S: Seal + Send + Sync + Copy>(
    alloc: Global,
    seal: S,
    roster: &Roster,
    party: Party,
) -> Result<Option<Desk<S>>, AllocError>
    requires kept { IsRoster roster.now }
    requires complete { IsComplete roster.now }
    requires slot { HasSlot party }
    ensures { IfOk result (λ slot. (m : Setup) → SetupOf m S.sealed_text roster.now
        → StartsAt m party slot) }
{
    machine_laws();
    let Some(partition) = roster.partition_of(party) else {
        return Ok(None);
    };
    let keys = roster.keys_at(partition);
    let partners = roster.partners_of(alloc, party)?;
    let desk = Desk::open(alloc, seal, keys, address_of(party), partition.0, &partners)?;
    Ok(Some(desk))
}
