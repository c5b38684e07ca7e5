// The height and the biome of a column of the world: `get_biome` of terrain.rs. With `climate` and `relief_at` it is the plain form, a column at a
// time, which nothing calls: `column_tops` notes a chunk's columns by rows and tables, equal to the same definitions, and takes of it only
// `with_climate` and `surface_of`.
#![tactic(auto)]

ghost use Rattle.std.specs.Prelude.{◌≡◌};
ghost use Rattle.column.specs.Column.{relief_of, with_climate, climate_of, weights_of, heights_of};
ghost use Rattle.column.specs.Column.{blend₃₂, dominant_of, height_of, surface_of, biome_and_height};

use column_shapes::{
    clamp_i32, cold_boost, continent, hill_boost, offset_fbm, ridges, scaled_fbm, smooth_ramp,
};
pub use column_shapes::{plateau, ridges_of};
use num_core::float::{max, of_i32, to_i32};

#[derive(Drop)]
pub enum Biome {
    Desert,
    Mountain,
    Forest,
    Plains,
}

// A column's climate, then its weights, then its heights: of desert, mountain, forest and plains.
#[derive(Clone, Copy)]
pub struct Column {
    pub temp: f32,
    pub moisture: f32,
    pub dw: f32,
    pub mw: f32,
    pub fw: f32,
    pub pw: f32,
    pub desert_h: f32,
    pub mountain_h: f32,
    pub forest_h: f32,
    pub plains_h: f32,
}

// The noise that shapes the four heights.
#[derive(Drop)]
pub struct Relief {
    pub continent: f32,
    pub detail: f32,
    pub micro: f32,
    pub ridges: f32,
    pub plateau: f32,
    pub dune: f32,
    pub hill_factor: f32,
}

// What `get_biome` answers in the Rust as a pair.
#[derive(Drop)]
pub struct Surface {
    pub biome: Biome,
    pub height: i32,
}

fn relief_at(x: f32, z: f32) -> Relief
    ensures { result ≡ relief_of x z }
{
    let continent = continent(x, z);
    let detail = scaled_fbm(x, z, 0.025, 4);
    let micro = scaled_fbm(x, z, 0.08, 2);
    let ridges = ridges(x, z);
    let plateau = plateau(offset_fbm(x, z, 0.006, -400.0, 600.0, 3));
    let dune = offset_fbm(x, z, 0.02, 50.0, 50.0, 3);
    let hill_factor = offset_fbm(x, z, 0.01, 150.0, 250.0, 3);
    Relief {
        continent,
        detail,
        micro,
        ridges,
        plateau,
        dune,
        hill_factor,
    }
}

// A column with its climate only.
pub fn with_climate(temp: f32, moisture: f32) -> Column
    ensures { result ≡ with_climate temp moisture }
{
    Column {
        temp,
        moisture,
        dw: 0.0,
        mw: 0.0,
        fw: 0.0,
        pw: 0.0,
        desert_h: 0.0,
        mountain_h: 0.0,
        forest_h: 0.0,
        plains_h: 0.0,
    }
}

fn climate(x: f32, z: f32) -> Column
    ensures { result ≡ climate_of x z }
{
    let temp = offset_fbm(x, z, 0.003, 100.0, 100.0, 4);
    let moisture = offset_fbm(x, z, 0.004, -200.0, 300.0, 4);
    with_climate(temp, moisture)
}

// The four weights as shares of their sum.
fn weights(c: Column) -> Column
    ensures { result ≡ weights_of c }
{
    let desert_w = smooth_ramp(c.temp, 0.6, 0.1) * smooth_ramp(-c.moisture, -0.35, 0.1);
    let mountain_w = smooth_ramp(-c.temp, -0.3, 0.1);
    let forest_w = smooth_ramp(c.moisture, 0.55, 0.1) * (1.0 - desert_w) * (1.0 - mountain_w);
    let plains_w = max(1.0 - desert_w - mountain_w - forest_w, 0.01);
    let total = desert_w + mountain_w + forest_w + plains_w;
    Column {
        dw: desert_w / total,
        mw: mountain_w / total,
        fw: forest_w / total,
        pw: plains_w / total,
        ..c
    }
}

// The four heights above the sea level `sl`.
fn heights(c: Column, n: Relief, sl: f32) -> Column
    ensures { result ≡ heights_of c n sl }
{
    let mountain_base = n.continent * 20.0 + n.ridges * 55.0 + n.detail * 12.0 + n.micro * 3.0;
    let cold = cold_boost(c.temp);
    let hill = hill_boost(n.hill_factor);
    Column {
        desert_h: sl + 1.0 + n.continent * 6.0 + n.dune * 6.0 + n.micro * 2.0,
        mountain_h: sl + 6.0 + mountain_base * (1.0 + cold * 0.5),
        forest_h: sl + 3.0 + n.continent * 14.0 + n.plateau * 8.0 + n.detail * 10.0 + n.micro * 3.0,
        plains_h: sl + 2.0 + n.continent * 10.0 + n.detail * 6.0 + n.micro * 2.0 + hill,
        ..c
    }
}

fn blend(c: Column) -> f32
    ensures { result ≡ blend₃₂ c }
{
    c.dw * c.desert_h + c.mw * c.mountain_h + c.fw * c.forest_h + c.pw * c.plains_h
}

// The biome of the greatest weight; of equal ones the first.
fn dominant_biome(c: Column) -> Biome
    ensures { result ≡ dominant_of c }
{
    if (c.dw >= c.mw) & (c.dw >= c.fw) & (c.dw >= c.pw) {
        Biome::Desert
    } else if (c.mw >= c.fw) & (c.mw >= c.pw) {
        Biome::Mountain
    } else if c.fw >= c.pw {
        Biome::Forest
    } else {
        Biome::Plains
    }
}

fn blended_height(c: Column, max_height: i32) -> i32
    ensures { result ≡ height_of c max_height }
{
    clamp_i32(to_i32(blend(c)), 1, max_height)
}

// Biome and height of a column from its climate and relief: what is left once the noise is there.
pub fn surface_of(climate: Column, n: Relief, sl: f32, max_height: i32) -> Surface
    ensures { result ≡ surface_of climate n sl max_height }
{
    let c = heights(weights(climate), n, sl);
    let height = blended_height(c, max_height);
    let biome = dominant_biome(c);
    Surface { biome, height }
}

pub fn get_biome(wx: i32, wz: i32, sea_level: i32, max_height: i32, seed_offset: f32) -> Surface
    ensures { result ≡ biome_and_height wx wz sea_level max_height seed_offset }
{
    let x = of_i32(wx) + seed_offset;
    let z = of_i32(wz) + seed_offset;
    let sl = of_i32(sea_level);
    surface_of(climate(x, z), relief_at(x, z), sl, max_height)
}
