ghost use Rattle.std.specs.Prelude.{◌≡◌, ℕ, ◌<◌, ◌≤◌, ◌%◌, ◌==◌, nat_lt, true, [], None, length, if◌then◌else◌};
ghost use Rattle.std.proofs.Math.ListN.{get_or, set};
ghost use Rattle.frame_pool.specs.PoolView.{PoolView};
ghost use Rattle.frame_pool.specs.Pools.{joined};
ghost use Rattle.window.specs.inside.Places.{is_full, full_length};
ghost use Rattle.window.specs.inside.Quarters.{held, Keeps, Turns, is_of, is_before, begun, put_piece, joined_by};

use frame::{PIECE_SIZE, Piece};
use frame_pool::{Pool, an_empty_place_finds_a_slot};

/// How many messages of a partner may be held at once.
const QUARTERS: usize = 4;

/// How many places a message has, and so how many each quarter of an owner's places.
const QUARTER: u8 = 64;

/// A message of which pieces are held.
#[derive(Clone, Copy)]
pub struct Head {
    pub message: u32,
    pub last: u8,
    /// How many bytes the last place has: 88 as long as nothing was put there.
    pub tail: u8,
    /// How many places are empty.
    pub missing: u8,
}

/// The messages of a partner of which pieces are held. Their blocks stand in an owner's places of
/// a pool: those of message j in the quarter j modulo 4.
#[derive(Drop)]
pub struct Heads {
    pub owner: u16,
    pub heads: [Option<Head>; QUARTERS],
}

/// The quarter of a message.
fn quarter_of(message: u32) -> u8
    ensures quarter { result ≡ message % 4 }
    ensures small { result < 4 }
{
    (message % 4) as u8
}

fn is_of(head: &Option<Head>, message: u32) -> bool
    ensures { result ≡ is_of message head.now }
{
    match head {
        None => false,
        Some(head) => head.message == message,
    }
}

fn is_before(head: &Option<Head>, least: u32) -> bool
    ensures { result ≡ is_before least head.now }
{
    match head {
        None => false,
        Some(head) => head.message < least,
    }
}

/// How many bytes the last place has after a piece was put.
fn tail_after(head: &Head, piece: &Piece) -> u8
    ensures { result
        ≡ (if piece.now.piece == head.now.last then piece.now.used else head.now.tail) }
{
    if piece.piece() == head.last {
        piece.used()
    } else {
        head.tail
    }
}

impl Heads {
    /// Lets go what is held in a quarter, and gives its slots back.
    fn clear(&mut self, pool: &mut Pool, quarter: u8)
        requires keeps { Keeps self.old pool.old }
        requires quarter { quarter < 4 }
        ensures keeps { Keeps self.new pool.new }
        ensures turns { Turns self.old self.new pool.old pool.new }
        ensures heads { self.new.heads ≡ set self.old.heads quarter None }
        ensures held { (j : ℕ) → held self.new pool.new j
            ≡ (if j % 4 == quarter then [] else held self.old pool.old j) }
    {
        pool.clear_part(self.owner, QUARTER * quarter, u16::from(QUARTER));
        self.heads[usize::from(quarter)] = None;
    }

    /// Lets go the messages with smaller numbers, and gives their slots back.
    pub fn drop_before(&mut self, pool: &mut Pool, least: u32)
        requires { Keeps self.old pool.old }
        ensures keeps { Keeps self.new pool.new }
        ensures turns { Turns self.old self.new pool.old pool.new }
        ensures held { (j : ℕ) → held self.new pool.new j
            ≡ (if nat_lt j least then [] else held self.old pool.old j) }
    {
        for quarter in 0..4u8 {
            if is_before(&self.heads[usize::from(quarter)], least) {
                self.clear(pool, quarter);
            }
        }
    }

    /// Begins a piece's message, unless pieces of it are held.
    fn begin(&mut self, pool: &mut Pool, piece: &Piece)
        requires { Keeps self.old pool.old }
        ensures keeps { Keeps self.new pool.new }
        ensures turns { Turns self.old self.new pool.old pool.new }
        ensures begun { is_of piece.now.message
            (get_or self.new.heads (piece.now.message % 4) None) ≡ true }
        ensures held { (j : ℕ) → held self.new pool.new j
            ≡ begun (held self.old pool.old) piece.now j }
    {
        let quarter = quarter_of(piece.message());
        if is_of(&self.heads[usize::from(quarter)], piece.message()) {
            return;
        }
        self.clear(pool, quarter);
        self.heads[usize::from(quarter)] = Some(Head {
            message: piece.message(),
            last: piece.last(),
            tail: 88,
            missing: piece.last() + 1,
        });
    }

    /// Puts a piece of a message that has begun, if its place is empty.
    fn put(&mut self, pool: &mut Pool, piece: &Piece)
        requires keeps { Keeps self.old pool.old }
        requires begun { is_of piece.now.message
            (get_or self.old.heads (piece.now.message % 4) None) ≡ true }
        ensures keeps { Keeps self.new pool.new }
        ensures turns { Turns self.old self.new pool.old pool.new }
        ensures held { (j : ℕ) → held self.new pool.new j
            ≡ put_piece (held self.old pool.old) piece.now j }
    {
        an_empty_place_finds_a_slot();
        let quarter = quarter_of(piece.message());
        let place = QUARTER * quarter + piece.piece();
        if let Some(head) = self.heads[usize::from(quarter)] {
            if head.last == piece.last() && !pool.held(self.owner, place) {
                pool.put(self.owner, place, piece.payload());
                self.heads[usize::from(quarter)] = Some(Head {
                    message: head.message,
                    last: head.last,
                    tail: tail_after(&head, piece),
                    missing: head.missing - 1,
                });
            }
        }
    }

    /// Takes a piece to those of its message, unless it is a repeated one or has another last
    /// place than the first of its message.
    pub fn join(&mut self, pool: &mut Pool, piece: &Piece)
        requires { Keeps self.old pool.old }
        ensures keeps { Keeps self.new pool.new }
        ensures turns { Turns self.old self.new pool.old pool.new }
        ensures held { (j : ℕ) → held self.new pool.new j
            ≡ joined_by (held self.old pool.old) piece.now j }
    {
        self.begin(pool, piece);
        self.put(pool, piece);
    }

    /// The length of a message, if all its pieces are held.
    pub fn full_length(&self, message: u32) -> Option<u16>
        ensures { (pool : PoolView) → Keeps self.now pool →
            result ≡ full_length (held self.now pool message) }
    {
        if let Some(head) = self.heads[usize::from(quarter_of(message))] {
            if head.message == message && head.missing == 0 {
                return Some(PIECE_SIZE as u16 * u16::from(head.last) + u16::from(head.tail));
            }
        }
        None
    }

    /// Writes the bytes of a message, gives its slots back, and lets it go.
    pub fn hand_out(&mut self, pool: &mut Pool, message: u32, out: &mut [u8])
        requires keeps { Keeps self.old pool.old }
        requires full { is_full (held self.old pool.old message) ≡ true }
        requires length { length out.old ≡ length (joined (held self.old pool.old message)) }
        ensures out { out.new ≡ joined (held self.old pool.old message) }
        ensures keeps { Keeps self.new pool.new }
        ensures turns { Turns self.old self.new pool.old pool.new }
        ensures held { (j : ℕ) → held self.new pool.new j
            ≡ (if j == message then [] else held self.old pool.old j) }
    {
        let quarter = quarter_of(message);
        pool.copy_part(pool.chain(self.owner), QUARTER * quarter, out);
        self.clear(pool, quarter);
    }
}
