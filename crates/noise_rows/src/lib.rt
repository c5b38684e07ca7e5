// Noise along a row of columns: the tables tell where each place lies along x, and the places of a lattice square take
// its hashes from one reading. Every f32 operation is that of `noise2d` and `fbm2d`, in their order.
#![tactic(auto)]

ghost use Rattle.std.specs.Prelude.{◌≡◌, ◌+◌, ◌*◌, ◌≤◌, ◌<◌, length};
ghost use Rattle.std.specs.Float.{binary32};
ghost use Rattle.std.specs.Float.Ieee.{mul};
ghost use Rattle.noise_tables.specs.Row.{Row};
ghost use Rattle.noise_rows.specs.Square.{square_of, between₃₂};
ghost use Rattle.noise_rows.specs.Sums.{Run, Added, in_square, noise_at, zero_at, share_at, Summed};

use noise::{hash2, lerp, smooth};
use noise_tables::PLACES;
use num_core::float::floor_part;
use num_core::wrap::{of_bits, wrapping_add};

// A lattice square and the hashes of its corners: a and b at iy, c and d at iy + 1.
#[derive(Clone, Copy)]
pub struct Square {
    pub ix: i32,
    pub iy: i32,
    pub a: f32,
    pub b: f32,
    pub c: f32,
    pub d: f32,
}

pub fn square_at(ix: i32, iy: i32) -> Square
    ensures { result ≡ square_of ix iy }
{
    let jx = wrapping_add(ix, 1);
    let jy = wrapping_add(iy, 1);
    let a = hash2(ix, iy);
    let b = hash2(jx, iy);
    let c = hash2(ix, jy);
    let d = hash2(jx, jy);
    Square { ix, iy, a, b, c, d }
}

pub fn between(k: Square, fx: f32, fy: f32) -> f32
    ensures { result ≡ between₃₂ k fx fy }
{
    lerp(lerp(k.a, k.b, fx), lerp(k.c, k.d, fx), fy)
}

// Where the places end that lie in the same column of squares as place lo.
fn run_end(base: usize, lo: usize, n: usize, floors: &[u32]) -> usize
    requires { (lo < n) × (n ≤ 64) × (base ≤ 65536) × (base + n ≤ length floors.now) }
    ensures { Run base lo n result floors.now }
{
    let at = floors[base + lo];
    for i in lo + 1..n {
        if floors[base + i] != at {
            return i;
        }
    }
    n
}

// Adds an octave to the places from lo to hi, which lie in one square.
fn add_run(
    k: Square,
    fy: f32,
    amp: f32,
    base: usize,
    lo: usize,
    hi: usize,
    eases: &[f32],
    vals: &mut [f32],
)
    requires { (lo ≤ hi) × (hi ≤ 64) × (base ≤ 65536) × (base + hi ≤ length eases.now) × (hi ≤ length vals.old) }
    ensures { Added (in_square k fy base eases.now) amp lo hi vals.old vals.new }
{
    for i in lo..hi {
        vals[i] += between(k, eases[base + i], fy) * amp;
    }
}

// Adds an octave to each place of a row at y, square by square. Whole part and fraction of y are worked out once. The loop
// goes on by a run of places, which its body finds; so no range counts it.
fn add_octave(
    y: f32,
    freq: f32,
    amp: f32,
    base: usize,
    n: usize,
    floors: &[u32],
    eases: &[f32],
    vals: &mut [f32],
)
    requires { (n ≤ 64) × (base ≤ 65536) × (base + n ≤ length floors.now) × (base + n ≤ length eases.now) × (n ≤ length vals.old) }
    ensures { Added (noise_at base floors.now eases.now (mul binary32 y freq)) amp 0 n vals.old vals.new }
{
    let v = y * freq;
    let py = floor_part(v);
    let fy = smooth(v - py.f);
    let iy = py.i;
    let mut i = 0;
    while i < n {
        let end = run_end(base, i, n, floors);
        let k = square_at(of_bits(floors[base + i]), iy);
        add_run(k, fy, amp, base, i, end, eases, vals);
        i = end;
    }
}

pub fn clear(n: usize, vals: &mut [f32])
    requires { (n ≤ 64) × (n ≤ length vals.old) }
    ensures { Row n zero_at vals.new }
{
    vals[..n].fill(0.0);
}

pub fn divide(max: f32, n: usize, vals: &mut [f32])
    requires { (n ≤ 64) × (n ≤ length vals.old) }
    ensures { Row n (share_at max vals.old) vals.new }
{
    for i in 0..n {
        vals[i] /= max;
    }
}

// `fbm2d` at each place of a row at y. The tables hold the row's octaves from base on, PLACES each.
pub fn fbm_row(
    y: f32,
    octaves: u32,
    base: usize,
    n: usize,
    floors: &[u32],
    eases: &[f32],
    vals: &mut [f32],
)
    requires { (0 < octaves)
        × (octaves ≤ 8)
        × (n ≤ 64)
        × (base ≤ 32768)
        × (base + octaves * 64 ≤ length floors.now)
        × (base + octaves * 64 ≤ length eases.now)
        × (n ≤ length vals.old) }
    ensures { Summed y octaves base n floors.now eases.now vals.new }
{
    clear(n, vals);
    let mut amp: f32 = 1.0;
    let mut freq: f32 = 1.0;
    let mut max: f32 = 0.0;
    let mut at = base;
    for _ in 0..octaves {
        add_octave(y, freq, amp, at, n, floors, eases, vals);
        max += amp;
        amp *= 0.5;
        freq *= 2.0;
        at += PLACES;
    }
    divide(max, n, vals);
}
