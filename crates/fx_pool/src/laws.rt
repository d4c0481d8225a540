//! What holds of the buffers of a sound region, for those who prove: the functions do nothing.
ghost use Rattle.std.specs.Prelude.{◌≡◌, ◌≢◌, ◌⊎◌, ℕ, ◌+◌, ◌*◌, ◌^◌, ◌<◌, ◌≤◌, List, length};
ghost use Rattle.fx_pool.specs.Region.{Region, Run, IsSound, IsOut, HasFree, bytes_of};
ghost use Rattle.fx_pool.specs.Lending.{with_bytes};
ghost use Rattle.fx_base.specs.declared.block.TheConstants.{BLOCK_BYTES};

/// Two buffers that begin at different blocks have no block in common, and no byte.
pub fn buffers_apart()
    ensures blocks { (p : Region) (r q : Run) → IsSound p → IsOut p r → IsOut p q
        → r.start ≢ q.start
        → (r.start + 2 ^ r.order ≤ q.start) ⊎ (q.start + 2 ^ q.order ≤ r.start) }
    ensures bytes { (p : Region) (r q : Run) → IsSound p → IsOut p r → IsOut p q
        → r.start ≢ q.start
        → (BLOCK_BYTES * (r.start + 2 ^ r.order) ≤ BLOCK_BYTES * q.start)
        ⊎ (BLOCK_BYTES * (q.start + 2 ^ q.order) ≤ BLOCK_BYTES * r.start) }
{}

/// A block that lies in no buffer lies in a free run, so that a buffer of order 0 is to be had.
pub fn blocks_left()
    ensures { (p : Region) (b : ℕ) → IsSound p → b < 2 ^ p.order
        → ((r : Run) → IsOut p r → r.start ≤ b → b < r.start + 2 ^ r.order → ⊥) → HasFree p 0 }
{}

/// What is written to a buffer is what it holds, what the other buffers hold stays, and the region
/// is still sound.
pub fn written_buffers()
    ensures held { (p : Region) (r : Run) (ws : List ℕ) → IsSound p → IsOut p r
        → length ws ≡ BLOCK_BYTES * 2 ^ r.order
        → bytes_of (with_bytes p r ws) r ≡ ws }
    ensures others { (p : Region) (r q : Run) (ws : List ℕ) → IsSound p → IsOut p r → IsOut p q
        → q.start ≢ r.start
        → length ws ≡ BLOCK_BYTES * 2 ^ r.order → bytes_of (with_bytes p r ws) q ≡ bytes_of p q }
    ensures sound { (p : Region) (r : Run) (ws : List ℕ) → IsSound p → IsSound (with_bytes p r ws) }
{}
