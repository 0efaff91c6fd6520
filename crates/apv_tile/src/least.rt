//! The bytes that a component takes at least, counted without its levels.
ghost use Rattle.std.specs.Prelude.{◌≡◌, ℕ, ◌+◌, ◌*◌, ◌/◌, ◌%◌, ◌^◌, ◌<◌, ◌≤◌, length, unsigned_abs};
ghost use Rattle.apv_tile.specs.Least.{IsLeastLength, bits_from, least_block_bits, size_at};
ghost use Rattle.apv_tile.specs.Least.{one_from as one_from_lem};

/// 1 where a size is at least another one, else 0.
#[inline]
fn one_from(from: u16, size: u16) -> u16
    ensures { result ≡ one_from_lem from size }
{
    u16::from(size >= from)
}

/// What eight sizes say of the bits of a coefficient's level: 3 from the first one on, and one more from each other one on.
#[inline]
fn bits_of(coeff: i16, sizes: &[u16; 8]) -> u16
    ensures bits { result ≡ bits_from sizes.now (unsigned_abs coeff) }
    ensures few { unsigned_abs coeff ≤ 2 ^ 15 }
    ensures small { result ≤ 10 }
{
    let size = coeff.unsigned_abs();
    3 * one_from(sizes[0], size)
        + one_from(sizes[1], size)
        + one_from(sizes[2], size)
        + one_from(sizes[3], size)
        + one_from(sizes[4], size)
        + one_from(sizes[5], size)
        + one_from(sizes[6], size)
        + one_from(sizes[7], size)
}

/// What eight sizes say of the bits of the levels of a block, but for those of its first place.
fn least_bits(coeffs: &[i16; 64], sizes: &[u16; 8]) -> u16
    ensures bits { result ≡ least_block_bits sizes.now coeffs.now }
    ensures few { (place : ℕ) → place < 64 → size_at coeffs.now place ≤ 2 ^ 15 }
    ensures small { result ≤ 640 }
{
    let mut bits = 0;
    for place in 0..64 {
        bits += bits_of(coeffs[place], sizes);
    }
    bits - bits_of(coeffs[0], sizes)
}

/// A number of bytes that the data of a component (`tile_data()`) have at least, whatever levels they are of, as long as
/// a coefficient from one of the eight sizes on has a level from the size of the same index of `apv_quant::LEVEL_SIZES` on,
/// as `apv_quant::sizes_reaching` finds such sizes. Coefficients and levels are slices of whole blocks, 64 values for each
/// block; there are at most 67,108,864.
///
/// A level takes one bit at least for the run before it, one for its sign, and the bits of its size's code word, which
/// grow at each of these sizes. The first level of a block and the run after the last one are left out.
pub fn least_len_component(coeffs: &[i16], sizes: &[u16; 8]) -> u64
    requires whole { length coeffs.now % 64 ≡ 0 }
    requires many { length coeffs.now ≤ 67108864 }
    ensures least { IsLeastLength sizes.now coeffs.now result }
    ensures few { result ≤ 80 * (length coeffs.now / 64) }
{
    let mut bits = 0;
    let (blocks, _) = coeffs.as_chunks::<64>();
    for block in blocks {
        bits += u64::from(least_bits(block, sizes));
    }
    bits.div_ceil(8)
}
