// The noise of a row of columns, as `climate` and `relief_at` of `column` ask for it at each: in rows, by tables that tell
// where the x of the columns lie in the lattice.
#![tactic(auto)]

ghost use Rattle.std.specs.Prelude.{◌≤◌, length};
ghost use Rattle.noise_tables.specs.Row.{Row};
ghost use Rattle.column_tables.specs.Coords.{Tabled};
ghost use Rattle.column_rows.specs.Rows.{continent_row, warped, ClimateBy, HeightRows, RidgeBy, LowlandBy};

use column_tables::{
    DETAIL, DUNE, HILL, MICRO, MOISTURE, RIDGE1, RIDGE2, STEPS, TEMP, WARP_X, WARP_Z,
};
use noise_places::fbm_places;
use noise_rows::fbm_row;
use noise_tables::PLACES;

// Where the octaves of each noise begin in the tables.
const TEMP_AT: usize = TEMP * PLACES;

const MOISTURE_AT: usize = MOISTURE * PLACES;

const WARP_X_AT: usize = WARP_X * PLACES;

const WARP_Z_AT: usize = WARP_Z * PLACES;

const DETAIL_AT: usize = DETAIL * PLACES;

const MICRO_AT: usize = MICRO * PLACES;

const RIDGE1_AT: usize = RIDGE1 * PLACES;

const RIDGE2_AT: usize = RIDGE2 * PLACES;

const STEPS_AT: usize = STEPS * PLACES;

const DUNE_AT: usize = DUNE * PLACES;

const HILL_AT: usize = HILL * PLACES;

// From the noise that warps a row of coordinates to the continent's, scaled.
#[tactic(auto, unfolding(crate::specs::Rows::warped))]
fn warp(at: &[f32], n: usize, vals: &mut [f32])
    requires { (n ≤ 64) × (n ≤ length at.now) × (n ≤ length vals.old) }
    ensures { Row n (warped at.now vals.old) vals.new }
{
    for (i, v) in vals[..n].iter_mut().enumerate() {
        *v = (at[i] + *v * 40.0) * 0.004;
    }
}

// `continent` at each place.
fn continent_row(xs: &[f32], z: f32, n: usize, floors: &[u32], eases: &[f32], vals: &mut [f32])
    requires { (n ≤ 64)
        × (n ≤ length xs.now)
        × (2304 ≤ length floors.now)
        × (2304 ≤ length eases.now)
        × (n ≤ length vals.old)
        × Tabled n xs.now floors.now eases.now }
    ensures { Row n (continent_row xs.now z) vals.new }
{
    let mut warp_x = [0.0f32; PLACES];
    let mut warp_z = [0.0f32; PLACES];
    fbm_row(
        z * 0.003 + 800.0,
        3,
        WARP_X_AT,
        n,
        floors,
        eases,
        &mut warp_x,
    );
    fbm_row(
        z * 0.003 + 100.0,
        3,
        WARP_Z_AT,
        n,
        floors,
        eases,
        &mut warp_z,
    );
    warp(xs, n, &mut warp_x);
    warp(&[z; PLACES], n, &mut warp_z);
    fbm_places(&warp_x, &warp_z, 5, n, vals);
}

// The noise of the climate.
pub fn climate_rows(
    z: f32,
    n: usize,
    floors: &[u32],
    eases: &[f32],
    temp: &mut [f32],
    moisture: &mut [f32],
)
    requires { (n ≤ 64) × (2304 ≤ length floors.now) × (2304 ≤ length eases.now) × (n ≤ length temp.old) × (n ≤ length moisture.old) }
    ensures { ClimateBy n z floors.now eases.now temp.new moisture.new }
{
    fbm_row(z * 0.003 + 100.0, 4, TEMP_AT, n, floors, eases, temp);
    fbm_row(
        z * 0.004 + 300.0,
        4,
        MOISTURE_AT,
        n,
        floors,
        eases,
        moisture,
    );
}

// The noise of every biome's height.
pub fn height_rows(
    xs: &[f32],
    z: f32,
    n: usize,
    floors: &[u32],
    eases: &[f32],
    continent: &mut [f32],
    detail: &mut [f32],
    micro: &mut [f32],
)
    requires { (n ≤ 64)
        × (n ≤ length xs.now)
        × (2304 ≤ length floors.now)
        × (2304 ≤ length eases.now)
        × (n ≤ length continent.old)
        × (n ≤ length detail.old)
        × (n ≤ length micro.old)
        × Tabled n xs.now floors.now eases.now }
    ensures { HeightRows n xs.now z continent.new detail.new micro.new }
{
    continent_row(xs, z, n, floors, eases, continent);
    fbm_row(z * 0.025, 4, DETAIL_AT, n, floors, eases, detail);
    fbm_row(z * 0.08, 2, MICRO_AT, n, floors, eases, micro);
}

// The noise of the mountains' ridges.
pub fn ridge_rows(
    z: f32,
    n: usize,
    floors: &[u32],
    eases: &[f32],
    ridge1: &mut [f32],
    ridge2: &mut [f32],
)
    requires { (n ≤ 64) × (2304 ≤ length floors.now) × (2304 ≤ length eases.now) × (n ≤ length ridge1.old) × (n ≤ length ridge2.old) }
    ensures { RidgeBy n z floors.now eases.now ridge1.new ridge2.new }
{
    fbm_row(z * 0.008 + 500.0, 4, RIDGE1_AT, n, floors, eases, ridge1);
    fbm_row(z * 0.015 + 200.0, 3, RIDGE2_AT, n, floors, eases, ridge2);
}

// The noise of the forests' steps, the deserts' dunes and the plains' hills.
pub fn lowland_rows(
    z: f32,
    n: usize,
    floors: &[u32],
    eases: &[f32],
    steps: &mut [f32],
    dune: &mut [f32],
    hill: &mut [f32],
)
    requires { (n ≤ 64)
        × (2304 ≤ length floors.now)
        × (2304 ≤ length eases.now)
        × (n ≤ length steps.old)
        × (n ≤ length dune.old)
        × (n ≤ length hill.old) }
    ensures { LowlandBy n z floors.now eases.now steps.new dune.new hill.new }
{
    fbm_row(z * 0.006 + 600.0, 3, STEPS_AT, n, floors, eases, steps);
    fbm_row(z * 0.02 + 50.0, 3, DUNE_AT, n, floors, eases, dune);
    fbm_row(z * 0.01 + 250.0, 3, HILL_AT, n, floors, eases, hill);
}
