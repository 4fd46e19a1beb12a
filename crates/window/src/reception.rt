ghost use Rattle.std.specs.Prelude.{◌≡◌, ◌<◌, ◌&&◌, true, false, None, Some, ℕ, List, [], ◌∷◌, length, IfSome, IsSomeAnd, replicate, if◌then◌else◌};
ghost use Rattle.frame.specs.Pieces.{PieceView};
ghost use Rattle.window.specs.ListRule.{body};
ghost use Rattle.window.specs.Windows.{taken, waiting_after, IsShort, is_recent, is_above};
ghost use Rattle.window.specs.inside.Quarters.{held, Keeps, Turns};
ghost use Rattle.window.specs.inside.Standing.{later_of, whole_of, answer_of, given_with, waiting_with, is_let_go, KeepsAll, Stood};

use crate::heads::Heads;
use frame::Piece;
use frame_pool::Pool;

/// How far a message may be behind the newest one.
const AHEAD: u32 = 3;

/// What a piece that was taken did.
#[derive(Clone, Copy, Debug, PartialEq, Eq)]
pub enum Taken {
    Nothing,
    /// It completed its message, which has so many bytes.
    Complete(u16),
}

/// A message that waits to be handed out.
#[derive(Clone, Copy)]
pub struct Waiting {
    pub message: u32,
    pub length: u16,
}

/// What came from one partner.
#[derive(Drop)]
pub struct Reception {
    /// The greatest number of a message of which a piece came.
    pub newest: Option<u32>,
    /// The greatest number of a message that was given.
    pub given: Option<u32>,
    pub waiting: Option<Waiting>,
    pub heads: Heads,
}

fn later_of(newest: Option<u32>, message: u32) -> u32
    ensures { result ≡ later_of newest message }
{
    match newest {
        None => message,
        Some(newest) if newest < message => message,
        Some(newest) => newest,
    }
}

impl Reception {
    /// Nothing has come yet.
    pub fn open(owner: u16) -> Reception
        ensures owner { result.heads.owner ≡ owner }
        ensures heads { result.heads.heads ≡ replicate 4 None }
        ensures newest { result.newest ≡ None }
        ensures given { result.given ≡ None }
        ensures waiting { result.waiting ≡ None }
    {
        Reception {
            newest: None,
            given: None,
            waiting: None,
            heads: Heads {
                owner,
                heads: [None; 4],
            },
        }
    }

    /// Notes that a piece of a message came, and lets go what is too old after it.
    fn advance(&mut self, pool: &mut Pool, message: u32)
        requires { Keeps self.old.heads pool.old }
        ensures newest { self.new.newest ≡ Some (later_of self.old.newest message) }
        ensures given { self.new.given ≡ self.old.given }
        ensures waiting { self.new.waiting ≡ self.old.waiting }
        ensures keeps { Keeps self.new.heads pool.new }
        ensures turns { Turns self.old.heads self.new.heads pool.old pool.new }
        ensures held { (j : ℕ) → held self.new.heads pool.new j
            ≡ (if is_recent self.new.newest j then held self.old.heads pool.old j else []) }
    {
        let newest = later_of(self.newest, message);
        self.newest = Some(newest);
        self.heads.drop_before(pool, newest.saturating_sub(AHEAD));
    }

    /// Whether a message may still be given: it is not too old, and no later one was given.
    fn may_give(&self, message: u32) -> bool
        ensures { result ≡ (is_recent self.now.newest message && is_above self.now.given message) }
    {
        let is_recent = match self.newest {
            None => false,
            Some(newest) => newest.saturating_sub(AHEAD) <= message,
        };
        let is_above = match self.given {
            None => true,
            Some(given) => given < message,
        };
        is_recent && is_above
    }

    /// Gives a message if all its pieces are held, and lets go what was to come before it.
    fn finish(&mut self, pool: &mut Pool, message: u32) -> Taken
        requires { Keeps self.old.heads pool.old }
        ensures answer { result ≡ answer_of (held self.old.heads pool.old message) }
        ensures newest { self.new.newest ≡ self.old.newest }
        ensures given { self.new.given ≡ given_with self.old.given message result }
        ensures waiting { whole_of self.new.waiting
            ≡ waiting_with (whole_of self.old.waiting) message result }
        ensures keeps { Keeps self.new.heads pool.new }
        ensures turns { Turns self.old.heads self.new.heads pool.old pool.new }
        ensures held { (j : ℕ) → held self.new.heads pool.new j
            ≡ (if is_let_go message result j then [] else held self.old.heads pool.old j) }
    {
        match self.heads.full_length(message) {
            None => Taken::Nothing,
            Some(length) => {
                self.given = Some(message);
                self.waiting = Some(Waiting { message, length });
                self.heads.drop_before(pool, message);
                Taken::Complete(length)
            }
        }
    }

    pub fn take(&mut self, pool: &mut Pool, piece: &Piece) -> Taken
        requires keeps { KeepsAll self.old pool.old }
        requires free { self.old.waiting ≡ None }
        ensures keeps { KeepsAll self.new pool.new }
        ensures turns { Turns self.old.heads self.new.heads pool.old pool.new }
        ensures stands { (h : List PieceView) → Stood self.old pool.old h →
            Stood self.new pool.new (piece.now ∷ h) }
        ensures answer { (h : List PieceView) → Stood self.old pool.old h →
            result ≡ taken h piece.now }
        ensures waiting { whole_of self.new.waiting ≡ waiting_after piece.now result }
        ensures short { IsShort result }
    {
        self.advance(pool, piece.message());
        if !self.may_give(piece.message()) {
            return Taken::Nothing;
        }
        self.heads.join(pool, piece);
        self.finish(pool, piece.message())
    }

    pub fn hand_out(&mut self, pool: &mut Pool, out: &mut [u8])
        requires keeps { KeepsAll self.old pool.old }
        requires length { IsSomeAnd (whole_of self.old.waiting)
            (λ whole. length out.old ≡ whole.length) }
        ensures keeps { KeepsAll self.new pool.new }
        ensures turns { Turns self.old.heads self.new.heads pool.old pool.new }
        ensures body { (h : List PieceView) → Stood self.old pool.old h →
            IfSome (whole_of self.old.waiting) (λ whole. out.new ≡ body h whole.message) }
        ensures stands { (h : List PieceView) → Stood self.old pool.old h →
            Stood self.new pool.new h }
        ensures waiting { self.new.waiting ≡ None }
    {
        if let Some(whole) = self.waiting {
            self.heads.hand_out(pool, whole.message, out);
            self.waiting = None;
        }
    }
}
