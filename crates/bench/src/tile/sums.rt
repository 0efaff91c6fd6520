//! Checksums of the values of blocks.

/// A sum that depends on each number and on their order.
fn added(sum: u64, number: u16) -> u64 {
    sum.wrapping_mul(31).wrapping_add(u64::from(number))
}

/// Sums a sample of each block.
pub fn sum_of_samples(samples: &[u16]) -> u64 {
    let (blocks, _) = samples.as_chunks::<64>();
    let mut sum = 0;
    for block in blocks {
        sum = added(sum, block[9]);
    }
    sum
}

/// Sums a level or a coefficient of each block.
pub fn sum_of_levels(levels: &[i16]) -> u64 {
    let (blocks, _) = levels.as_chunks::<64>();
    let mut sum = 0;
    for block in blocks {
        sum = added(sum, block[9].unsigned_abs());
    }
    sum
}
