// Noise at a row of places: one lattice square and its hashes are kept until a place lies in another. Every f32 operation
// is that of `noise2d` and `fbm2d`, in their order.
#![tactic(auto)]

ghost use Rattle.std.specs.Prelude.{◌≡◌, ◌≤◌, ◌<◌, length};
ghost use Rattle.num_core.specs.Num.{floor_i};
ghost use Rattle.noise.specs.Noise.{ease₃₂, square₃₂, noise2d₃₂};
ghost use Rattle.noise_tables.specs.Row.{Row};
ghost use Rattle.noise_rows.specs.Square.{square_of};
ghost use Rattle.noise_rows.specs.Sums.{one_more};
ghost use Rattle.noise_places.specs.Places.{Kept, along_places, places_fbm};

use noise::smooth;
use noise_rows::{Square, between, clear, divide, square_at};
use num_core::float::floor_part;

// A noise and the square that it was read in.
#[derive(Drop)]
pub struct Step {
    pub val: f32,
    pub kept: Square,
}

// The square at (ix, iy): k itself where it is that one.
fn moved(k: Square, ix: i32, iy: i32) -> Square
    requires { Kept k }
    ensures { result ≡ square_of ix iy }
{
    let kx = k.ix;
    let ky = k.iy;
    if (kx == ix) & (ky == iy) {
        return k;
    }
    square_at(ix, iy)
}

// The noise at x, between the rows iy and iy + 1 of the lattice.
fn noise_kept(k: Square, x: f32, iy: i32, fy: f32) -> Step
    requires { Kept k }
    ensures { (result.val ≡ square₃₂ (floor_i x) iy (ease₃₂ x) fy) × Kept result.kept }
{
    let px = floor_part(x);
    let fx = smooth(x - px.f);
    let ix = px.i;
    let kept = moved(k, ix, iy);
    let val = between(kept, fx, fy);
    Step { val, kept }
}

// The noise at (x, y).
fn noise_at(k: Square, x: f32, y: f32) -> Step
    requires { Kept k }
    ensures { (result.val ≡ noise2d₃₂ x y) × Kept result.kept }
{
    let py = floor_part(y);
    let fy = smooth(y - py.f);
    let iy = py.i;
    noise_kept(k, x, iy, fy)
}

// Adds an octave to each place (x, y).
fn add_octave_at(xs: &[f32], ys: &[f32], freq: f32, amp: f32, n: usize, vals: &mut [f32])
    requires { (n ≤ 64) × (n ≤ length xs.now) × (n ≤ length ys.now) × (n ≤ length vals.old) }
    ensures { Row n (one_more (along_places xs.now ys.now) freq amp vals.old) vals.new }
{
    let mut k = square_at(0, 0);
    for i in 0..n {
        let s = noise_at(k, xs[i] * freq, ys[i] * freq);
        vals[i] += s.val * amp;
        k = s.kept;
    }
}

// `fbm2d` at each place (x, y).
pub fn fbm_places(xs: &[f32], ys: &[f32], octaves: u32, n: usize, vals: &mut [f32])
    requires { (0 < octaves) × (n ≤ 64) × (n ≤ length xs.now) × (n ≤ length ys.now) × (n ≤ length vals.old) }
    ensures { Row n (places_fbm xs.now ys.now octaves) vals.new }
{
    clear(n, vals);
    let mut amp: f32 = 1.0;
    let mut freq: f32 = 1.0;
    let mut max: f32 = 0.0;
    for _ in 0..octaves {
        add_octave_at(xs, ys, freq, amp, n, vals);
        max += amp;
        amp *= 0.5;
        freq *= 2.0;
    }
    divide(max, n, vals);
}
