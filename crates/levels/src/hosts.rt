ghost use Rattle.std.specs.Prelude.{◌≡◌, ℕ, ◌<◌, [], ◌∷◌, ◌++◌, length, find, ◌==◌, slice_index_or, OnOk, OnErr};
ghost use Rattle.std.specs.Option.{option_map};

use crate::level::Partition;
use crate::rows::HostRow;
use std::alloc::{AllocError, Global};
use std::marker::Model;

/// The hosts of a roster in script order, with the partition of each address at hand.
#[derive(Debug, Drop)]
pub struct Hosts {
    rows: Vec<HostRow>,
    /// By address, as far as the greatest one of a host.
    partitions: Vec<Option<Partition>>,
}

impl Model for Hosts {
    ghost use Rattle.std.specs.Prelude.{List};
    ghost use Rattle.levels.specs.declared.rows.HostRow.{HostRow};
    ghost use Rattle.levels.specs.inside.Hosts.{IsIndexed};

    ghost Value = { List HostRow };

    ghost view = { λ a. a.rows.items };

    ghost invariant = { λ a. IsIndexed a.rows.items a.partitions.items };
}

/// Makes room for the partition of an address.
fn make_room(partitions: &mut Vec<Option<Partition>>, place: usize) -> Result<(), AllocError>
    requires { place < 256 }
    ensures room { OnOk result (place < length partitions.new.items) }
    ensures same { (i : ℕ) → slice_index_or partitions.new.items i None
        ≡ slice_index_or partitions.old.items i None }
{
    if partitions.len() > place {
        return Ok(());
    }
    partitions.resize(place + 1, None)
}

impl Hosts {
    pub fn new(alloc: Global) -> Hosts
        ensures { result ≡ [] }
    {
        Hosts {
            rows: Vec::new(alloc),
            partitions: Vec::new(alloc),
        }
    }

    /// Adds the host of an address that has none.
    pub fn push(&mut self, row: HostRow) -> Result<(), AllocError>
        requires { find (λ host. host.address == row.address) self.old ≡ None }
        ensures ok { OnOk result (self.new ≡ self.old ++ row ∷ []) }
        ensures err { OnErr result (self.new ≡ self.old) }
    {
        let place = usize::from(row.address);
        make_room(&mut self.partitions, place)?;
        self.rows.push(row)?;
        self.partitions[place] = Some(row.partition);
        Ok(())
    }

    /// The partition of the host of an address, in constant time.
    pub fn partition_of(&self, address: u8) -> Option<Partition>
        ensures { result ≡ option_map (λ host. host.partition)
            (find (λ host. host.address == address) self.now) }
    {
        match self.partitions.get(usize::from(address)) {
            Some(partition) => *partition,
            None => None,
        }
    }

    pub fn rows(&self) -> &[HostRow]
        ensures { result.now ≡ self.now }
    {
        &self.rows
    }
}
