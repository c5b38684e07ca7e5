// The integer hashes of noise.rs.
#![tactic(auto)]

ghost use Rattle.std.specs.Prelude.{◌≡◌, pos};
ghost use Rattle.num_core.specs.Wrap.{mul_w, add_w, fold_w, low31};
ghost use Rattle.noise_hash.specs.Hash.{unit31, hash2₃₂, hash3₃₂};

use num_core::wrap::{fold, low_bits, wrapping_add, wrapping_mul};

// A 31-bit number as a fraction. The Rust divides by 0x7fffffff as f32, which is 2^31; so 1.0 can come out. Each half of
// n stands as digits behind a power of two: `high` is 2^8 + (n >> 16) / 2^15, `low` is 2^-8 + (n & 0xffff) / 2^31. To take
// both powers off is exact, so only the sum rounds. Nothing is converted, so no call waits for what a register held.
pub fn unit(n: u32) -> f32
    ensures { result ≡ unit31 n }
{
    let high = f32::from_bits(0x4380_0000 + (n >> 16));
    let low = f32::from_bits(0x3b80_0000 + (n & 0xffff));
    (high - 256.00390625) + low
}

// How both hashes end: a constant added, folded, multiplied and folded, and the rest as a fraction.
fn finish(sum: i32, by: i32) -> f32
    ensures { result ≡ unit31 (low31 (fold_w 16 (mul_w (fold_w 13 (add_w sum (pos 1376312589))) by))) }
{
    let h = fold::<13>(wrapping_add(sum, 1376312589));
    unit(low_bits(fold::<16>(wrapping_mul(h, by))))
}

// 2D integer hash, from 0 to 1.
pub fn hash2(x: i32, y: i32) -> f32
    ensures { result ≡ hash2₃₂ x y }
{
    let sum = wrapping_add(wrapping_mul(x, 374761393), wrapping_mul(y, 668265263));
    finish(sum, 1274126177)
}

// 3D integer hash, from 0 to 1. The last multiplier is 2246822519 modulo 2^32.
pub fn hash3(x: i32, y: i32, z: i32) -> f32
    ensures { result ≡ hash3₃₂ x y z }
{
    let sum = wrapping_add(wrapping_mul(x, 374761393), wrapping_mul(y, 668265263));
    finish(wrapping_add(sum, wrapping_mul(z, 1274126177)), -2048144777)
}
