// floor, for every f32: NaN, infinities, both zeros and subnormals too; and the other numeric functions, of `num_float`.
ghost use Rattle.std.specs.Prelude.{◌≡◌};
ghost use Rattle.std.specs.Float.{binary32};
ghost use Rattle.std.specs.Float.Ieee.{of_int};
ghost use Rattle.num_core.specs.Num.{floor₃₂, floor_i};

pub use num_float::{abs, clamp, max, of_i32, to_i32};

// The floor of a number, as an i32 and as that i32's f32.
#[derive(Drop)]
pub struct Part {
    pub i: i32,
    pub f: f32,
}

// The same for every x, with more tests. Below 2^23 a sum with 2^23 leaves no room for a fraction.
fn far_part(x: f32) -> Part
    ensures { (result.i ≡ floor_i x) × (result.f ≡ of_int binary32 (floor_i x)) }
{
    if x < 0.0 {
        if x > -8388608.0 {
            let t = (x - 8388608.0) + 8388608.0;
            if t > x {
                let f = t - 1.0;
                return Part { i: f as i32, f };
            }
            return Part { i: t as i32, f: t };
        }
    } else if x < 8388608.0 {
        let t = (x + 8388608.0) - 8388608.0;
        if t > x {
            let f = t - 1.0;
            return Part { i: f as i32, f };
        }
        return Part { i: t as i32, f: t };
    }
    let i = to_i32(x);
    let f = of_i32(i);
    Part { i, f }
}

// x.floor() as i32, for every x. Near zero a sum with 3 * 2^22 leaves no room for a fraction, whatever the sign; so no
// test is needed there that a processor could guess wrong.
pub fn floor_part(x: f32) -> Part
    ensures { (result.i ≡ floor_i x) × (result.f ≡ of_int binary32 (floor_i x)) }
{
    if (x > -4194304.0) & (x < 4194304.0) {
        let t = (x + 12582912.0) - 12582912.0;
        let f = if t > x { t - 1.0 } else { t };
        Part { i: f as i32, f }
    } else {
        far_part(x)
    }
}

// x.floor(). A second caller keeps `far_part` a function of its own, so that `floor_part` stays short enough to be
// inlined.
pub fn floor(x: f32) -> f32
    ensures { result ≡ floor₃₂ x }
{
    if x > -8388608.0 {
        if x < 8388608.0 {
            let p = far_part(x);
            let f = p.f;
            if f < x {
                return f;
            }
            return x;
        }
        return x;
    }
    x
}
