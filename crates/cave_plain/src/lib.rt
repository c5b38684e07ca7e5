// Where the ground is hollow: the caves of terrain.rs. They do not take the seed. `cave` and what it calls is the plain form, a cell at a time, which
// nothing calls: `cave_rows` works caves out by rows and levels, equal to the same definition, and `cave_ravines` calls `ravine_with` alone.
#![tactic(auto)]

ghost use Rattle.std.specs.Prelude.{◌≡◌};
ghost use Rattle.cave_plain.specs.Caves.{spaghetti_cave, large_cavern, ravine_with, ravine_here, ravine_cut, carved};

use noise::{fbm2d, fbm3d, noise2d};
use num_core::float::{abs, clamp, of_i32};

// Two noise fields, carved where both are near their middle.
fn spaghetti(x: f32, y: f32, z: f32) -> bool
    ensures { result ≡ spaghetti_cave x y z }
{
    let cave_a = fbm3d(x * 0.04 + 100.0, y * 0.06 + 100.0, z * 0.04 + 100.0, 3) - 0.5;
    let cave_b = fbm3d(x * 0.04 - 200.0, y * 0.06 - 200.0, z * 0.04 + 300.0, 3) - 0.5;
    cave_a * cave_a + cave_b * cave_b < 0.006
}

// Wide halls, more of them lower down.
fn cavern(x: f32, y: f32, z: f32, height: f32) -> bool
    ensures { result ≡ large_cavern x y z height }
{
    let n = fbm3d(x * 0.015, y * 0.025, z * 0.015, 2);
    let depth_factor = 1.0 - clamp(y / height, 0.0, 1.0);
    n > 0.7 - depth_factor * 0.15
}

// Whether a column lies on a narrow cut; n is the larger noise there.
pub fn ravine_with(n: f32, x: f32, z: f32) -> bool
    ensures { result ≡ ravine_with n x z }
{
    let detail = noise2d(x * 0.05, z * 0.05);
    abs(n - 0.5) < 0.015 + detail * 0.008
}

fn ravine_here(x: f32, z: f32) -> bool
    ensures { result ≡ ravine_here x z }
{
    ravine_with(fbm2d(x * 0.01, z * 0.01, 3), x, z)
}

// Narrow cuts near the surface. The noise is dear, so the level is looked at first.
fn ravine(x: f32, y: f32, z: f32, height: f32) -> bool
    ensures { result ≡ ravine_cut x y z height }
{
    if (y > height - 20.0) & (y < height - 1.0) {
        return ravine_here(x, z);
    }
    false
}

// The cheaper tests come first: the answer does not depend on their order.
pub fn cave(wx: i32, wy: i32, wz: i32, height: i32) -> bool
    ensures { result ≡ carved wx wy wz height }
{
    let x = of_i32(wx);
    let y = of_i32(wy);
    let z = of_i32(wz);
    let h = of_i32(height);
    if ravine(x, y, z, h) {
        return true;
    }
    if cavern(x, y, z, h) {
        return true;
    }
    spaghetti(x, y, z)
}
