// The noise and the curves that a column's climate and heights are made of: what `get_biome` of terrain.rs begins with. `offset_fbm`, `scaled_fbm`,
// `ridges` and `continent` are of its plain form alone; rows of columns (`column_rows`) have theirs, equal to the same definitions.
#![tactic(auto)]

ghost use Rattle.std.specs.Prelude.{◌≡◌};
ghost use Rattle.column_shapes.specs.Shapes.{offset_fbm₃₂, scaled_fbm₃₂, smooth_ramp₃₂, ridge₃₂, ridges_of, ridges₃₂};
ghost use Rattle.column_shapes.specs.Shapes.{plateau₃₂, continent₃₂, hill_boost₃₂, cold_boost₃₂, clamp_of};

use noise::{fbm2d, smooth};
use num_core::float::{abs, clamp, floor};

pub fn offset_fbm(x: f32, z: f32, scale: f32, dx: f32, dz: f32, octaves: u32) -> f32
    ensures { result ≡ offset_fbm₃₂ x z scale dx dz octaves }
{
    fbm2d(x * scale + dx, z * scale + dz, octaves)
}

// Not `offset_fbm` by 0.0: that sum would turn -0.0 into 0.0.
pub fn scaled_fbm(x: f32, z: f32, scale: f32, octaves: u32) -> f32
    ensures { result ≡ scaled_fbm₃₂ x z scale octaves }
{
    fbm2d(x * scale, z * scale, octaves)
}

// From 0 to 1 around `edge`, smoothed.
pub fn smooth_ramp(val: f32, edge: f32, width: f32) -> f32
    ensures { result ≡ smooth_ramp₃₂ val edge width }
{
    smooth(clamp((val - edge) / width + 0.5, 0.0, 1.0))
}

fn ridge(n: f32) -> f32
    ensures { result ≡ ridge₃₂ n }
{
    1.0 - abs(n - 0.5) * 2.0
}

// The ridges of two noises.
pub fn ridges_of(n1: f32, n2: f32) -> f32
    ensures { result ≡ ridges_of n1 n2 }
{
    let ridge1 = ridge(n1);
    let ridge2 = ridge(n2);
    ridge1 * ridge1 * 0.7 + ridge2 * ridge2 * 0.3
}

pub fn ridges(x: f32, z: f32) -> f32
    ensures { result ≡ ridges₃₂ x z }
{
    let n1 = offset_fbm(x, z, 0.008, 500.0, 500.0, 4);
    let n2 = offset_fbm(x, z, 0.015, 300.0, 200.0, 3);
    ridges_of(n1, n2)
}

pub fn plateau(raw: f32) -> f32
    ensures { result ≡ plateau₃₂ raw }
{
    let steps = floor(raw * 5.0) / 5.0;
    steps * 0.6 + raw * 0.4
}

// The large shape, its coordinates warped by noise.
pub fn continent(x: f32, z: f32) -> f32
    ensures { result ≡ continent₃₂ x z }
{
    let warp_x = offset_fbm(x, z, 0.003, 700.0, 800.0, 3) * 40.0;
    let warp_z = offset_fbm(x, z, 0.003, 900.0, 100.0, 3) * 40.0;
    scaled_fbm(x + warp_x, z + warp_z, 0.004, 5)
}

pub fn hill_boost(hill_factor: f32) -> f32
    ensures { result ≡ hill_boost₃₂ hill_factor }
{
    if hill_factor > 0.65 {
        (hill_factor - 0.65) * 80.0
    } else {
        0.0
    }
}

pub fn cold_boost(temp: f32) -> f32
    ensures { result ≡ cold_boost₃₂ temp }
{
    clamp((0.3 - temp) * 5.0, 0.0, 1.0)
}

// Where lo lies above hi, lo below lo and else hi: `i32::clamp` asks that lo is no greater, where this asks nothing.
pub fn clamp_i32(n: i32, lo: i32, hi: i32) -> i32
    ensures { result ≡ clamp_of n lo hi }
{
    if n < lo {
        lo
    } else if n > hi {
        hi
    } else {
        n
    }
}
