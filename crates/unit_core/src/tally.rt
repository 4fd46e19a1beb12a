ghost use Rattle.std.specs.Prelude.{◌≡◌};
ghost use Rattle.unit_core.specs.Tallies.{counted, nothing_counted};

use std::marker::Model;

/// What a unit counted of its turns. A number stays at its greatest value.
#[derive(Debug, Drop)]
pub struct Tally {
    turns: u64,
    sealed: u64,
    ours: u64,
    given: u64,
}

impl Model for Tally {
    ghost use Rattle.unit_core.specs.Views.{TallyView};

    ghost Value = { TallyView };

    ghost view = { λ a. record {
      turns = a.turns;
      sealed = a.sealed;
      ours = a.ours;
      given = a.given;
    } };
}

impl Tally {
    pub(crate) fn new() -> Tally
        ensures { result ≡ nothing_counted }
    {
        Tally {
            turns: 0,
            sealed: 0,
            ours: 0,
            given: 0,
        }
    }

    /// Counts one more turn, with these numbers.
    #[tactic(auto, unfolding(crate::specs::Tallies::capped))]
    pub(crate) fn count(&mut self, sealed: u64, ours: u64, given: u64)
        ensures { self.new ≡ counted self.old sealed ours given }
    {
        self.turns = self.turns.saturating_add(1);
        self.sealed = self.sealed.saturating_add(sealed);
        self.ours = self.ours.saturating_add(ours);
        self.given = self.given.saturating_add(given);
    }

    pub fn turns(&self) -> u64
        ensures { result ≡ self.now.turns }
    {
        self.turns
    }

    /// The frames that it sealed.
    pub fn sealed(&self) -> u64
        ensures { result ≡ self.now.sealed }
    {
        self.sealed
    }

    /// The frames that it was handed whose pieces were for it.
    pub fn ours(&self) -> u64
        ensures { result ≡ self.now.ours }
    {
        self.ours
    }

    /// The messages that it gave.
    pub fn given(&self) -> u64
        ensures { result ≡ self.now.given }
    {
        self.given
    }
}
