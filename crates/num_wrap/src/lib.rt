// 32-bit integers modulo 2^32: what the hashes of the noise are made of.
#![tactic(auto)]

ghost use Rattle.std.specs.Prelude.{◌≡◌, ◌*◌, ◌%◌, ◌^◌, ◌<◌};
ghost use Rattle.std.specs.Int.{w32};
ghost use Rattle.std.proofs.Common.{of_z, to_z};
ghost use Rattle.num_wrap.specs.Wrap.{mul_w, add_w, fold_w, low31};

// The bits of x, as a number.
pub fn bits_of(x: i32) -> u32
    ensures { result ≡ of_z w32 x }
{
    x.cast_unsigned()
}

// The number whose bits are n.
pub fn of_bits(n: u32) -> i32
    ensures { result ≡ to_z w32 n }
{
    n.cast_signed()
}

// The product of two words, modulo 2^32: the method by the name that the other products here have.
pub fn wrapping_mul_u32(a: u32, b: u32) -> u32
    ensures { result ≡ a * b % 2 ^ 32 }
{
    u32::wrapping_mul(a, b)
}

// `wrapping_mul` and `wrapping_add` stay beside the methods, whose clauses speak of bits: here it is the product and the
// sum of the integers that is wrapped, as docs/PROOFS.md has SCOPE 3.3.
pub fn wrapping_mul(a: i32, b: i32) -> i32
    ensures { result ≡ mul_w a b }
{
    i32::wrapping_mul(a, b)
}

pub fn wrapping_add(a: i32, b: i32) -> i32
    ensures { result ≡ add_w a b }
{
    a.wrapping_add(b)
}

// h with its own upper bits put over the lower ones. The shift of an i32 copies the sign.
pub fn fold<const K: u32>(h: i32) -> i32
    requires { K < 32 }
    ensures { result ≡ fold_w K h }
{
    h ^ (h >> K)
}

// Without the sign bit, as the hashes end.
pub fn low_bits(h: i32) -> u32
    ensures { result ≡ low31 h }
{
    h.cast_unsigned() & 0x7fff_ffff
}
