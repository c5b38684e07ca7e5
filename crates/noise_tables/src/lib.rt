// Where places lie in the noise's lattice: for each the bits of its whole part and its smoothed fraction. An octave of a
// row of places is noted once and read for every row after.
#![tactic(auto)]

ghost use Rattle.std.specs.Prelude.{◌≡◌, ◌+◌, ◌≤◌, length};
ghost use Rattle.noise_tables.specs.Places.{entry_of, Told};
ghost use Rattle.noise_tables.specs.Scaled.{scaled_by};

use config::bounds::SIZE_MOST;
use noise::smooth;
use num_core::float::floor_part;
use num_core::wrap::bits_of;

// Places of a row, at most: it is as long as a chunk. The tables hold so many of each octave.
pub const PLACES: usize = SIZE_MOST;

// The bits of a whole part, and a smoothed fraction.
#[derive(Drop)]
pub struct Entry {
    pub at: u32,
    pub ease: f32,
}

pub fn entry_of(x: f32) -> Entry
    ensures { result ≡ entry_of x }
{
    let p = floor_part(x);
    let i = p.i;
    let at = bits_of(i);
    let ease = smooth(x - p.f);
    Entry { at, ease }
}

// A coordinate at octave k of its field: times 1, 2, 4 or 8.
pub fn scaled(k: usize, t: f32) -> f32
    ensures { result ≡ scaled_by k t }
{
    match k {
        0 => t * 1.0,
        1 => t * 2.0,
        2 => t * 4.0,
        _ => t * 8.0,
    }
}

// Notes n places from base on.
pub fn note_octave(xs: &[f32], base: usize, n: usize, floors: &mut [u32], eases: &mut [f32])
    requires { (n ≤ 64) × (base ≤ 65536) × (n ≤ length xs.now) × (base + n ≤ length floors.old) × (base + n ≤ length eases.old) }
    ensures { Told base n xs.now floors.old eases.old floors.new eases.new }
{
    for i in 0..n {
        let e = entry_of(xs[i]);
        let j = base + i;
        floors[j] = e.at;
        eases[j] = e.ease;
    }
}
