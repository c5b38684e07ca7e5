// Where a row of columns lies in the lattice of each noise that `climate` and `relief_at` of `column` ask for, noted once
// for all rows of a chunk, which share their x. The tables hold octave behind octave, PLACES of each.
#![tactic(auto)]

ghost use Rattle.std.specs.Prelude.{◌≡◌, ◌≤◌, ◌<◌, length};
ghost use Rattle.column_tables.specs.Coords.{column_coord, Tabled};

use noise_fill::fill_row;
use noise_tables::{PLACES, note_octave, scaled};

// The first octave of each noise: of temperature, moisture, the two that warp the continent, the detail, the finest, the
// two ridges, the forests' steps, the deserts' dunes and the plains' hills. And how many octaves there are.
pub const TEMP: usize = 0;

pub const MOISTURE: usize = 4;

pub const WARP_X: usize = 8;

pub const WARP_Z: usize = 11;

pub const DETAIL: usize = 14;

pub const MICRO: usize = 18;

pub const RIDGE1: usize = 20;

pub const RIDGE2: usize = 24;

pub const STEPS: usize = 27;

pub const DUNE: usize = 30;

pub const HILL: usize = 33;

const OCTAVES: usize = 36;

// How long the tables are.
pub const TABLE: usize = OCTAVES * PLACES;

// Octave o's coordinate of x: scaled and moved as its field asks, and by the octave within that field.
fn coord(o: usize, x: f32) -> f32
    ensures { result ≡ column_coord o x }
{
    match o {
        TEMP..MOISTURE => scaled(o, x * 0.003 + 100.0),
        MOISTURE..WARP_X => scaled(o - MOISTURE, x * 0.004 + -200.0),
        WARP_X..WARP_Z => scaled(o - WARP_X, x * 0.003 + 700.0),
        WARP_Z..DETAIL => scaled(o - WARP_Z, x * 0.003 + 900.0),
        DETAIL..MICRO => scaled(o - DETAIL, x * 0.025),
        MICRO..RIDGE1 => scaled(o - MICRO, x * 0.08),
        RIDGE1..RIDGE2 => scaled(o - RIDGE1, x * 0.008 + 500.0),
        RIDGE2..STEPS => scaled(o - RIDGE2, x * 0.015 + 300.0),
        STEPS..DUNE => scaled(o - STEPS, x * 0.006 + -400.0),
        DUNE..HILL => scaled(o - DUNE, x * 0.02 + 50.0),
        _ => scaled(o - HILL, x * 0.01 + 150.0),
    }
}

// Notes all octaves of n places.
// (The other tables have a loop like this one: each has its own edit on it.)
pub fn note_rows(xs: &[f32], n: usize, floors: &mut [u32], eases: &mut [f32])
    requires { (n ≤ 64) × (n ≤ length xs.now) × (2304 ≤ length floors.old) × (2304 ≤ length eases.old) }
    ensures { Tabled n xs.now floors.new eases.new }
{
    let mut ts = [0.0f32; PLACES];
    for o in 0..OCTAVES {
        fill_row(n, |i| coord(o, xs[i]), &mut ts);
        note_octave(&ts, o * PLACES, n, floors, eases);
    }
}
