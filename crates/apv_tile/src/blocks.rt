//! Blocks of 64 values in one slice.
ghost use Rattle.std.specs.Prelude.{◌≡◌, ◌≢◌, ℕ, ◌+◌, ◌*◌, ◌≤◌, length};
ghost use Rattle.apv_tile.specs.Blocks.{block_at};

/// Stores the values of a block.
#[inline]
pub fn store<T: Copy>(values: &mut [T], block: usize, of_block: &[T; 64])
    requires { 64 * block + 64 ≤ length values.old }
    ensures here { block_at values.new block ≡ of_block.now }
    ensures others { (other : ℕ) → other ≢ block
        → block_at values.new other ≡ block_at values.old other }
{
    values[64 * block..64 * block + 64].copy_from_slice(of_block);
}
