// Hash-based value noise: the noise of one octave of noise.rs. Every f32 operation stands in its order.
#![tactic(auto)]

ghost use Rattle.std.specs.Prelude.{◌≡◌, ℤ, Float, FitsSigned};
ghost use Rattle.std.specs.Int.{w32};
ghost use Rattle.noise_lattice.specs.Noise.{smooth₃₂, lerp₃₂, corners₃₂, noise2d₃₂, layer₃₂, noise3d₃₂};

use noise_hash::{hash2, hash3};
use num_core::float::floor_part;
use num_core::wrap::wrapping_add;

// Cubic Hermite smoothstep.
pub fn smooth(t: f32) -> f32
    ensures { result ≡ smooth₃₂ t }
{
    t * t * (3.0 - 2.0 * t)
}

// Linear interpolation.
pub fn lerp(a: f32, b: f32, t: f32) -> f32
    ensures { result ≡ lerp₃₂ a b t }
{
    a + (b - a) * t
}

// Between the four corners of the lattice square at (ix, iy), whose values `hash` gives. ix + 1 wraps, so that no input is refused.
fn square<F: Fn(i32, i32) -> f32>(hash: F, ix: i32, iy: i32, fx: f32, fy: f32) -> f32
    requires { F.IsAlwaysCallable hash }
    ensures { (at : ℤ → ℤ → Float)
        → ((x y : ℤ) (val : Float) → FitsSigned w32 x → FitsSigned w32 y → F.post hash x y val → val ≡ at x y)
        → result ≡ corners₃₂ at ix iy fx fy }
{
    let jx = wrapping_add(ix, 1);
    let jy = wrapping_add(iy, 1);
    lerp(
        lerp(hash(ix, iy), hash(jx, iy), fx),
        lerp(hash(ix, jy), hash(jx, jy), fx),
        fy,
    )
}

// 2D value noise, smoothed.
pub fn noise2d(x: f32, y: f32) -> f32
    ensures { result ≡ noise2d₃₂ x y }
{
    let px = floor_part(x);
    let py = floor_part(y);
    let fx = smooth(x - px.f);
    let fy = smooth(y - py.f);
    let ix = px.i;
    let iy = py.i;
    square(hash2, ix, iy, fx, fy)
}

// Between the four corners at iz of a lattice cube.
fn layer3(ix: i32, iy: i32, iz: i32, fx: f32, fy: f32) -> f32
    ensures { result ≡ layer₃₂ ix iy iz fx fy }
{
    square(|x, y| hash3(x, y, iz), ix, iy, fx, fy)
}

// 3D value noise, smoothed: two layers of four corners.
pub fn noise3d(x: f32, y: f32, z: f32) -> f32
    ensures { result ≡ noise3d₃₂ x y z }
{
    let px = floor_part(x);
    let py = floor_part(y);
    let pz = floor_part(z);
    let fx = smooth(x - px.f);
    let fy = smooth(y - py.f);
    let fz = smooth(z - pz.f);
    let ix = px.i;
    let iy = py.i;
    let iz = pz.i;
    let jz = wrapping_add(iz, 1);
    lerp(layer3(ix, iy, iz, fx, fy), layer3(ix, iy, jz, fx, fy), fz)
}
