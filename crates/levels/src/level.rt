ghost use Rattle.std.specs.Prelude.{◌≡◌, ℕ, ◌<◌, ◌≤◌, ◌↔◌, IsTrue, IsNone, IfSome, IsBitSet};
ghost use Rattle.levels.specs.Order.{is_at_most, IsAtMost};

/// A rank and a set of categories.
#[derive(Clone, Copy, Debug, PartialEq, Eq)]
pub struct Level {
    /// 0 to 7.
    pub rank: u8,
    /// Category `a` is bit 0, category `p` is bit 15.
    pub cats: u16,
}

/// One level of a roster, by its number in roster order, from 0.
#[derive(Clone, Copy, Debug, PartialEq, Eq)]
pub struct Partition(pub u8);

/// Who sends and who is sent to: a host by its address, or the manager unit of a partition.
#[derive(Clone, Copy, Debug, PartialEq, Eq)]
pub enum Party {
    Host(u8),
    Manager(Partition),
}

/// How frames and records are sealed.
#[derive(Clone, Copy, Debug, PartialEq, Eq)]
pub enum Sealing {
    Clear,
    Des,
}

impl Level {
    /// The level of a rank from 0 to 7 and a set of categories.
    pub fn new(rank: u8, cats: u16) -> Option<Level>
        ensures level { IfSome result (λ level. level ≡ record { rank = rank; cats = cats }) }
        ensures none { IsNone result ↔ (7 < rank) }
    {
        if rank > 7 {
            None
        } else {
            Some(Level { rank, cats })
        }
    }

    /// Whether this level is at or below the other.
    pub fn at_most(&self, other: &Level) -> bool
        ensures test { result ≡ is_at_most self.now other.now }
        ensures order { IsTrue result ↔ IsAtMost self.now other.now }
    {
        self.rank <= other.rank && self.cats & other.cats == self.cats
    }
}
