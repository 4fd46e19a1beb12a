ghost use Rattle.std.specs.Prelude.{◌≡◌, ℕ, ◌<◌, ◌≤◌, length, false, Some, None};
ghost use Rattle.std.proofs.Math.ListN.{get_or};
ghost use Rattle.frame_pool.specs.PoolView.{PoolView};
ghost use Rattle.frame_pool.specs.Pools.{chain_of, is_held, free_of, times, IsPool};

/// An owner whose quota is the number of its places may put a block wherever none is held.
pub fn an_empty_place_finds_a_slot()
    ensures { (pool : PoolView) (owner place : ℕ) → get_or pool.quotas owner 0 ≡ 256 →
        length (chain_of pool owner) ≡ 256 → place < 256 → is_held pool owner place ≡ false →
        1 ≤ free_of pool owner }
{}

/// No slot is held at two places, nor is it free while it is held.
pub fn a_slot_has_one_place()
    ensures place { (pool : PoolView) (a b i j slot : ℕ) → IsPool pool →
        get_or (chain_of pool a) i None ≡ Some slot → get_or (chain_of pool b) j None ≡ Some slot →
        (a ≡ b) × (i ≡ j) }
    ensures free { (pool : PoolView) (owner place slot : ℕ) → IsPool pool →
        get_or (chain_of pool owner) place None ≡ Some slot → times slot pool.free ≡ 0 }
{}
