// A chunk's coordinates as the noise of caves takes them, in tables that all its cells share: whole part and smoothed
// fraction of each octave. Along x the two fields of spaghetti caves have three octaves each, caverns have two and ravines
// three; along y, and then along z, come the octaves of all but ravines.
#![tactic(auto)]

ghost use Rattle.std.specs.Prelude.{◌≡◌, ◌≤◌, ◌<◌, pos, ◌+ℤ◌, length};
ghost use Rattle.std.specs.Int.Signed.{mag};
ghost use Rattle.column.specs.Floats.{real};
ghost use Rattle.noise_tables.specs.Places.{Noted};
ghost use Rattle.ground_cell.specs.World.{Near};
ghost use Rattle.cave_tables.specs.Coords.{octave_of, cave_coord};

use ground_cell::world::{Frame, along};
use noise_fill::fill_row;
use noise_tables::{PLACES, note_octave, scaled};
use num_core::float::of_i32;

// The first octave of each field along x but the first, whose is 0.
pub const CAVE_B: usize = 3;

pub const CAVERN: usize = 6;

pub const RAVINE: usize = 8;

// The first octave along y, the first along z, and how many there are.
const LEVEL: usize = 11;

const DEPTH: usize = 19;

const OCTAVES: usize = 27;

// Where the octaves of ravines, those along y and those along z begin in the tables, and how long the tables are.
pub const RAVINE_AT: usize = RAVINE * PLACES;

pub const LEVEL_AT: usize = LEVEL * PLACES;

pub const DEPTH_AT: usize = DEPTH * PLACES;

pub const TABLE: usize = OCTAVES * PLACES;

// The world's coordinate i places from o, as the noise takes it.
pub fn place_at(o: i32, i: usize) -> f32
    requires { (mag o ≤ 1000000) × (i < 65536) }
    ensures { result ≡ real (o +ℤ pos i) }
{
    let w = along(o, i);
    of_i32(w)
}

// Octave o of an axis, of its coordinates in the two fields of spaghetti caves and in that of caverns.
#[tactic(auto, using(std::proofs::lemmas::Bool::Decides::nat_tests), unfolding(crate::specs::Coords::octave_of))]
fn octave_at(o: usize, cave_a: f32, cave_b: f32, cavern: f32) -> f32
    ensures { result ≡ octave_of o cave_a cave_b cavern }
{
    match o {
        0..CAVE_B => scaled(o, cave_a),
        CAVE_B..CAVERN => scaled(o - CAVE_B, cave_b),
        _ => scaled(o - CAVERN, cavern),
    }
}

// Octave o at place i of its axis.
fn coord(f: Frame, o: usize, i: usize) -> f32
    requires { Near f × (i < 64) }
    ensures { result ≡ cave_coord f o i }
{
    match o {
        0..RAVINE => {
            let x = place_at(f.ox, i);
            octave_at(o, x * 0.04 + 100.0, x * 0.04 - 200.0, x * 0.015)
        }
        RAVINE..LEVEL => {
            let x = place_at(f.ox, i);
            scaled(o - RAVINE, x * 0.01)
        }
        LEVEL..DEPTH => {
            let y = place_at(f.oy, i);
            octave_at(o - LEVEL, y * 0.06 + 100.0, y * 0.06 - 200.0, y * 0.025)
        }
        _ => {
            let z = place_at(f.oz, i);
            octave_at(o - DEPTH, z * 0.04 + 100.0, z * 0.04 + 300.0, z * 0.015)
        }
    }
}

// Fills the tables for a chunk; ts is room for the coordinates of an octave.
// (The other tables have a loop like this one: each has its own edit on it.)
pub fn note_coords(f: Frame, ts: &mut [f32], floors: &mut [u32], eases: &mut [f32])
    requires { Near f × (f.size ≤ length ts.old) × (length floors.old ≡ 1728) × (length eases.old ≡ 1728) }
    ensures { Noted f.size 27 (cave_coord f) floors.new eases.new }
{
    let n = f.size;
    for o in 0..OCTAVES {
        fill_row(n, |i| coord(f, o, i), ts);
        note_octave(ts, o * PLACES, n, floors, eases);
    }
}
