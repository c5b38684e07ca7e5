// 32-bit integers modulo 2^32: `num_wrap` re-exported.
pub use num_wrap::{
    bits_of, fold, low_bits, of_bits, wrapping_add, wrapping_mul, wrapping_mul_u32,
};
