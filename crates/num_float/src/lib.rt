// Absolute value, clamp, max and the conversions between f32 and i32, for every f32: NaN, infinities, both zeros and
// subnormals too.
#![tactic(auto)]

ghost use Rattle.std.specs.Prelude.{◌≡◌};
ghost use Rattle.std.specs.Float.{binary32};
ghost use Rattle.std.specs.Float.Ieee.{of_int};
ghost use Rattle.num_float.specs.Num.{abs₃₂, clamp₃₂, max₃₂, to_i32};

// Toward zero; beyond the ends of i32 the end, and 0 for a NaN.
pub fn to_i32(x: f32) -> i32
    ensures { result ≡ to_i32 x }
{
    std::num::saturating_f32_to_i32(x)
}

// The nearest f32, ties to even.
pub fn of_i32(n: i32) -> f32
    ensures { result ≡ of_int binary32 n }
{
    std::num::nearest_i32_to_f32(n)
}

// Of -0.0 too; a NaN stays.
pub fn abs(x: f32) -> f32
    ensures { result ≡ abs₃₂ x }
{
    x.abs()
}

// x itself where it lies between, so that -0.0 and a NaN stay. `f32::clamp` asks that lo is no greater than hi, where
// this asks nothing.
pub fn clamp(x: f32, lo: f32, hi: f32) -> f32
    ensures { result ≡ clamp₃₂ x lo hi }
{
    if x < lo {
        lo
    } else if x > hi {
        hi
    } else {
        x
    }
}

// The third arm is for a NaN in b, and the second for one in a too. `f32::max` leaves open which of 0.0 and -0.0 comes
// out, where `max₃₂` has a.
pub fn max(a: f32, b: f32) -> f32
    ensures { result ≡ max₃₂ a b }
{
    if a >= b {
        a
    } else if b == b {
        b
    } else {
        a
    }
}
