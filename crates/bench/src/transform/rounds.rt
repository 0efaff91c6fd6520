//! Rounds of each transform, where the next round's block depends on the last one's result.
ghost use Rattle.std.specs.Prelude.{ℕ, ◌<◌, slice_index};
ghost use Rattle.apv_base.specs.model.Format.{IsDepth};

/// The forward transform of samples of 10 bits; out of line, so that the whole result is made in
/// each round.
#[inline(never)]
fn forward(samples: &[u16; 64], depth: u8) -> [i16; 64]
    requires depth { IsDepth depth }
    requires samples { (place : ℕ) → place < 64 → slice_index samples.now place < 1024 }
{
    apv_transform::forward(samples, depth)
}

/// The inverse transform, out of line too.
#[inline(never)]
fn inverse(coeffs: &[i16; 64], depth: u8) -> [u16; 64]
    requires { IsDepth depth }
{
    apv_transform::inverse(coeffs, depth)
}

/// The sum of numbers.
fn sum_of_samples(samples: &[u16; 64]) -> u64 {
    samples
        .iter()
        .fold(0, |sum: u64, sample| sum.wrapping_add(u64::from(*sample)))
}

/// The sum of the sizes of numbers.
fn sum_of_sizes(coeffs: &[i16; 64]) -> u64 {
    coeffs.iter().fold(
        0,
        |sum: u64, coeff| sum.wrapping_add(u64::from(coeff.unsigned_abs())),
    )
}

/// Takes a block of samples through `rounds` forward transforms, of which each changes one sample,
/// and sums the samples.
pub fn forward_rounds(rounds: u32, depth: u8) -> u64
    requires { IsDepth depth }
{
    let mut samples = [512u16; 64];
    for round in 0..rounds {
        let coeffs = forward(&samples, depth);
        samples[(round % 64) as usize] = (coeffs[(round % 61) as usize].unsigned_abs()
            + (round % 256) as u16)
            % 1024;
    }
    sum_of_samples(&samples)
}

/// Takes a block of coefficients through `rounds` inverse transforms, of which each changes one
/// coefficient, and sums their sizes.
pub fn inverse_rounds(rounds: u32, depth: u8) -> u64
    requires { IsDepth depth }
{
    let mut coeffs = [0i16; 64];
    coeffs[0] = 1000;
    coeffs[1] = -700;
    coeffs[10] = 300;
    for round in 0..rounds {
        let samples = inverse(&coeffs, depth);
        coeffs[(round % 64) as usize] = (samples[(round % 61) as usize] % 4096) as i16 - 512;
    }
    sum_of_sizes(&coeffs)
}

/// Takes a block of coefficients, whose values between the passes need more than 16 bits, through
/// `rounds` inverse transforms, of which each changes one coefficient, and sums their sizes.
pub fn large_inverse_rounds(rounds: u32, depth: u8) -> u64
    requires { IsDepth depth }
{
    let mut coeffs = [0i16; 64];
    coeffs[0] = 32000;
    coeffs[8] = 32000;
    for round in 0..rounds {
        let samples = inverse(&coeffs, depth);
        coeffs[(round % 7 + 1) as usize] = (samples[(round % 61) as usize] % 4096) as i16 - 512;
    }
    sum_of_sizes(&coeffs)
}
