ghost use Rattle.std.specs.Prelude.{◌≡◌, ℕ, ◌+◌, ◌<◌, ◌≤◌, ◌∷◌, [], length, take, drop, replicate, Some, None, true, false, IfOk, unwrap_or, is_some, vec_len, vec_capacity};
ghost use Rattle.std.specs.List.{sum};
ghost use Rattle.std.proofs.Math.ListN.{get_or, set};
ghost use Rattle.frame_pool.specs.Pools.{chain_of, block_in, blocks_of, denoted, is_held, free_of, without, joined, held_count, slots_in, times, SameElsewhere, IsChainOf, HoldsFrom, IsPool};
ghost use Rattle.frame_pool.specs.inside.Kept.{unheld, Stores, emptied, bytes_at};

use crate::chain::Chain;
use std::alloc::{AllocError, Global};
use std::marker::Model;

/// How many places an owner has.
pub const PLACES: usize = 256;

/// How many bytes a block has.
pub const BLOCK_SIZE: usize = 88;

/// Slots, handed out from one list of free slots and held by owners within quotas.
#[derive(Drop)]
pub struct Pool {
    quotas: Vec<u16>,
    chains: Vec<Chain>,
    /// The block in each slot that was ever used. There is room for as many as the quotas allow.
    slots: Vec<[u8; BLOCK_SIZE]>,
    /// The slots that were given back.
    returned: Vec<u16>,
}

impl Model for Pool {
    ghost use Rattle.frame_pool.specs.PoolView.{PoolView};

    ghost Value = { PoolView };

    ghost use Rattle.frame_pool.specs.inside.Kept.{view_of, IsKept};

    ghost view = { view_of };

    ghost invariant = { IsKept };
}

/// How many slots the owners may hold together.
fn slot_count(quotas: &[u16]) -> usize
    requires { sum quotas.now ≤ 65535 }
    ensures { result ≡ sum quotas.now }
{
    quotas.iter().map(|quota| usize::from(*quota)).sum()
}

fn empty_chains(alloc: Global, count: usize) -> Result<Vec<Chain>, AllocError>
    ensures { IfOk result (λ chains. chains.items ≡ replicate count (replicate 256 None)) }
{
    let mut chains = Vec::with_capacity(alloc, count)?;
    for _ in 0..count {
        chains.push(Chain::empty())?;
    }
    Ok(chains)
}

/// Writes a block to a slot that no owner holds: to one that was given back, or else to one that
/// was never used.
fn store(slots: &mut Vec<[u8; 88]>, returned: &mut Vec<u16>, block: &[u8; 88]) -> u16
    requires few { vec_capacity slots.old ≤ 65535 }
    requires known { (k : ℕ) → length slots.old.items ≤ k → times k returned.old.items ≡ 0 }
    requires free { length returned.old.items ≡ 0 →
        length slots.old.items < vec_capacity slots.old }
    ensures stored { Stores slots.old.items slots.new.items result block.now }
    ensures small { result < 65535 }
    ensures taken { (k : ℕ) →
        times k (unheld returned.old.items (length slots.old.items) (vec_capacity slots.old))
        ≡ times k (result ∷ unheld returned.new.items (length slots.new.items)
        (vec_capacity slots.new)) }
    ensures count { length slots.new.items + length returned.old.items
        ≡ length slots.old.items + length returned.new.items + 1 }
    ensures slots_room { vec_capacity slots.new ≡ vec_capacity slots.old }
    ensures returned_room { vec_capacity returned.new ≡ vec_capacity returned.old }
{
    match returned.pop() {
        Some(slot) => {
            slots[usize::from(slot)] = *block;
            slot
        }
        None => {
            let slot = slots.len() as u16;
            slots.push_reserved(*block);
            slot
        }
    }
}

/// Empties so many places of a chain from the first on, and gives back the slots held there.
fn give_back(chain: &mut Chain, returned: &mut Vec<u16>, first: usize, count: usize)
    requires chain { length chain.old ≡ 256 }
    requires places { first + count ≤ 256 }
    requires room { length returned.old.items + held_count chain.old ≤ vec_capacity returned.old }
    ensures chain { chain.new ≡ emptied chain.old first count }
    ensures slots { (k : ℕ) → times k returned.new.items + times k (slots_in chain.new)
        ≡ times k returned.old.items + times k (slots_in chain.old) }
    ensures count { length returned.new.items + held_count chain.new
        ≡ length returned.old.items + held_count chain.old }
    ensures room { vec_capacity returned.new ≡ vec_capacity returned.old }
{
    for place in first..first + count {
        if chain.held() == 0 {
            return;
        }
        if let Some(slot) = chain.let_go(place) {
            returned.push_reserved(slot);
        }
    }
}

/// Writes the front of the block at a place.
fn copy_front(slots: &[[u8; BLOCK_SIZE]], chain: &Chain, place: usize, out: &mut [u8])
    requires place { place < 256 }
    requires held { length (bytes_at slots.now chain.now place) ≡ 88 }
    requires length { length out.old ≤ 88 }
    ensures { out.new ≡ take (length out.old) (bytes_at slots.now chain.now place) }
{
    match chain.at(place) {
        Some(slot) => out.copy_from_slice(&slots[usize::from(slot)][..out.len()]),
        None => unreachable!(),
    }
}

impl Pool {
    /// A pool whose owners hold nothing. It takes all the memory that its calls will need.
    pub fn open(alloc: Global, quotas: &[u16]) -> Result<Pool, AllocError>
        requires few { length quotas.now ≤ 64 }
        requires slots { sum quotas.now ≤ 65535 }
        ensures quotas { IfOk result (λ pool. pool.quotas ≡ quotas.now) }
        ensures chains { IfOk result (λ pool. (owner : ℕ) → owner < length quotas.now →
            chain_of pool owner ≡ replicate 256 None) }
        ensures kept { IfOk result IsPool }
    {
        let count = slot_count(quotas);
        let slots = Vec::with_capacity(alloc, count)?;
        let returned = Vec::with_capacity(alloc, count)?;
        let chains = empty_chains(alloc, quotas.len())?;
        let quotas = Vec::from_slice(alloc, quotas)?;
        Ok(Pool {
            quotas,
            chains,
            slots,
            returned,
        })
    }

    /// Puts a block at an empty place of an owner.
    pub fn put(&mut self, owner: u16, place: u8, block: &[u8; 88])
        requires owner { owner < length self.old.quotas }
        requires empty { is_held self.old owner place ≡ false }
        requires free { 1 ≤ free_of self.old owner }
        ensures block { blocks_of self.new owner
            ≡ set (blocks_of self.old owner) place (Some block.now) }
        ensures free { free_of self.new owner + 1 ≡ free_of self.old owner }
        ensures others { SameElsewhere self.old self.new owner }
        ensures quotas { self.new.quotas ≡ self.old.quotas }
        ensures room { self.new.room ≡ self.old.room }
        ensures kept { IsPool self.new }
    {
        let slot = store(&mut self.slots, &mut self.returned, block);
        self.chains[usize::from(owner)].hold(usize::from(place), slot);
    }

    /// Whether an owner holds a block at a place.
    pub fn held(&self, owner: u16, place: u8) -> bool
        requires owner { owner < length self.now.quotas }
        ensures { result ≡ is_held self.now owner place }
    {
        self.chains[usize::from(owner)]
            .at(usize::from(place))
            .is_some()
    }

    /// The chain of an owner.
    pub fn chain(&self, owner: u16) -> &Chain
        requires owner { owner < length self.now.quotas }
        ensures { result.now ≡ chain_of self.now owner }
    {
        &self.chains[usize::from(owner)]
    }

    /// How many slots more an owner may hold.
    pub fn free(&self, owner: u16) -> u16
        requires owner { owner < length self.now.quotas }
        ensures { result ≡ free_of self.now owner }
    {
        let owner = usize::from(owner);
        self.quotas[owner] - self.chains[owner].held()
    }

    /// Writes the blocks of a chain in order of place, joined and cut to the length of `out`.
    pub fn copy_out(&self, chain: &Chain, out: &mut [u8])
        requires own { IsChainOf self.now chain.now }
        requires held { HoldsFrom (denoted self.now chain.now) 0 (length out.old) }
        ensures { out.new ≡ take (length out.old) (joined (denoted self.now chain.now)) }
    {
        self.copy_part(chain, 0, out);
    }

    /// The same, from a place on.
    pub fn copy_part(&self, chain: &Chain, first: u8, out: &mut [u8])
        requires own { IsChainOf self.now chain.now }
        requires held { HoldsFrom (denoted self.now chain.now) first (length out.old) }
        ensures { out.new
            ≡ take (length out.old) (joined (drop first (denoted self.now chain.now))) }
    {
        let slots: &[[u8; BLOCK_SIZE]] = &self.slots;
        let length = out.len();
        for i in 0..length.div_ceil(BLOCK_SIZE) {
            let start = BLOCK_SIZE * i;
            let end = length.min(start + BLOCK_SIZE);
            copy_front(slots, chain, usize::from(first) + i, &mut out[start..end]);
        }
    }

    /// Gives all slots of an owner back.
    pub fn clear(&mut self, owner: u16)
        requires owner { owner < length self.old.quotas }
        ensures chain { chain_of self.new owner ≡ replicate 256 None }
        ensures others { SameElsewhere self.old self.new owner }
        ensures quotas { self.new.quotas ≡ self.old.quotas }
        ensures room { self.new.room ≡ self.old.room }
        ensures kept { IsPool self.new }
    {
        let chain = &mut self.chains[usize::from(owner)];
        give_back(chain, &mut self.returned, 0, PLACES);
    }

    /// Gives the slots of an owner back at so many places from the first on.
    pub fn clear_part(&mut self, owner: u16, first: u8, count: u16)
        requires owner { owner < length self.old.quotas }
        requires places { first + count ≤ 256 }
        ensures blocks { blocks_of self.new owner
            ≡ without (blocks_of self.old owner) first count }
        ensures others { SameElsewhere self.old self.new owner }
        ensures quotas { self.new.quotas ≡ self.old.quotas }
        ensures room { self.new.room ≡ self.old.room }
        ensures kept { IsPool self.new }
    {
        let chain = &mut self.chains[usize::from(owner)];
        let (first, count) = (usize::from(first), usize::from(count));
        give_back(chain, &mut self.returned, first, count);
    }
}
