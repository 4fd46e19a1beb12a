ghost use Rattle.std.specs.Prelude.{◌≡◌, ℕ, ◌≤◌, ◌<◌, true, None, List, [], ◌∷◌, length, replicate, IfOk, IfSome, IsSomeAnd};
ghost use Rattle.frame.specs.Pieces.{PieceView};
ghost use Rattle.frame_pool.specs.Pools.{chain_of};
ghost use Rattle.window.specs.ListRule.{body};
ghost use Rattle.window.specs.Windows.{is_among, AreDifferent, is_sender, waiting, StandsFor, SameElsewhere, taken, waiting_after, IsShort};
ghost use Rattle.window.specs.inside.Receptions.{Opened};

use crate::reception::{Reception, Taken};
use frame::Piece;
use frame_pool::Pool;
use std::alloc::{AllocError, Global};
use std::marker::Model;

/// The most partners.
const PARTNERS: usize = 64;

/// How many slots each partner may hold: as many as it has places.
const QUOTA: u16 = 256;

/// What came from each partner, at the partner's address, and the pool with its bytes.
#[derive(Drop)]
pub struct Window {
    pool: Pool,
    receptions: Vec<Option<Reception>>,
}

impl Model for Window {
    ghost use Rattle.window.specs.WindowView.{WindowView};

    ghost Value = { WindowView };

    ghost use Rattle.window.specs.inside.Receptions.{view_of, Kept};

    ghost view = { view_of };

    ghost invariant = { Kept };
}

/// A pool with an owner for each of so many partners.
fn open_pool(alloc: Global, count: usize) -> Result<Pool, AllocError>
    requires { count ≤ PARTNERS }
    ensures quotas { IfOk result (λ pool. pool.quotas ≡ replicate count 256) }
    ensures chains { IfOk result (λ pool. (owner : ℕ) → owner < count →
        chain_of pool owner ≡ replicate 256 None) }
{
    let quotas = [QUOTA; PARTNERS];
    Pool::open(alloc, &quotas[..count])
}

/// What came from an address: nothing yet if it is a partner's, whose owner is its place among the
/// partners.
fn open_at(partners: &[u8], address: u8) -> Option<Reception>
    requires { length partners.now ≤ 64 }
    ensures { Opened partners.now address result }
{
    match partners.iter().position(|partner| *partner == address) {
        None => None,
        Some(owner) => Some(Reception::open(owner as u16)),
    }
}

impl Window {
    /// A window in which nothing has come from any partner. It takes all the memory that its calls
    /// will need.
    pub fn open(alloc: Global, partners: &[u8]) -> Result<Window, AllocError>
        requires few { length partners.now ≤ 64 }
        requires different { AreDifferent partners.now }
        ensures partners { IfOk result
            (λ window. (a : ℕ) → a < 256 → is_sender window a ≡ is_among partners.now a) }
        ensures stands { IfOk result
            (λ window. (a : ℕ) → is_sender window a ≡ true → StandsFor window a []) }
        ensures waiting { IfOk result (λ window. (a : ℕ) → waiting window a ≡ None) }
    {
        let pool = open_pool(alloc, partners.len())?;
        let mut receptions = Vec::with_capacity(alloc, 256)?;
        for address in 0..256u16 {
            receptions.push(open_at(partners, address as u8))?;
        }
        Ok(Window { pool, receptions })
    }

    /// Takes a piece from its sender.
    pub fn take(&mut self, from: u8, piece: &Piece) -> Taken
        requires partner { is_sender self.old from ≡ true }
        requires sender { piece.now.from ≡ from }
        requires free { waiting self.old from ≡ None }
        ensures stands { (h : List PieceView) → StandsFor self.old from h →
            StandsFor self.new from (piece.now ∷ h) }
        ensures answer { (h : List PieceView) → StandsFor self.old from h →
            result ≡ taken h piece.now }
        ensures waiting { waiting self.new from ≡ waiting_after piece.now result }
        ensures partner { is_sender self.new from ≡ true }
        ensures others { SameElsewhere self.old self.new from }
        ensures short { IsShort result }
        ensures room { self.new.room ≡ self.old.room }
    {
        match &mut self.receptions[usize::from(from)] {
            Some(reception) => reception.take(&mut self.pool, piece),
            None => unreachable!(),
        }
    }

    /// Writes the message of a partner that waits, and gives its room back.
    pub fn hand_out(&mut self, from: u8, out: &mut [u8])
        requires { IsSomeAnd (waiting self.old from) (λ whole. length out.old ≡ whole.length) }
        ensures body { (h : List PieceView) → StandsFor self.old from h →
            IfSome (waiting self.old from) (λ whole. out.new ≡ body h whole.message) }
        ensures stands { (h : List PieceView) → StandsFor self.old from h →
            StandsFor self.new from h }
        ensures waiting { waiting self.new from ≡ None }
        ensures partner { is_sender self.new from ≡ true }
        ensures others { SameElsewhere self.old self.new from }
        ensures room { self.new.room ≡ self.old.room }
    {
        match &mut self.receptions[usize::from(from)] {
            Some(reception) => reception.hand_out(&mut self.pool, out),
            None => unreachable!(),
        }
    }
}
