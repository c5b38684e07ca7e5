// The settings of the ground, the place of a chunk and their limits; limits by name, and why a call is refused.
#![tactic(auto)]

ghost use Rattle.std.specs.Prelude.{◌≡◌, true, ◌<◌};
ghost use Rattle.config.specs.Limits.{within, size_ok, place_ok, places_ok, limit_refusal, config_header, Narrow};
ghost use Rattle.config.specs.Numbers.{refusal_in};
ghost use Rattle.std.specs.Int.Signed.{mag};

pub mod bounds;
mod refusals;

use crate::bounds::{
    HEIGHT_LEAST, HEIGHT_MOST, PLACE_LEAST, PLACE_MOST, SEA_LEAST, SEA_MOST, SEED_MOST, SIZE_MOST,
};
pub use crate::refusals::{Refusal, Refused};

// As in the Rust; the limits are narrower (SCOPE 2.1).
#[repr(C)]
#[derive(Clone, Copy)]
pub struct TerrainConfig {
    pub seed: u32,
    pub sea_level: i32,
    pub world_height_blocks: i32,
    pub chunk_size: usize,
}

// The place of a chunk, counted in chunks.
#[repr(C)]
#[derive(Clone, Copy)]
pub struct ChunkPos {
    pub cx: i32,
    pub cy: i32,
    pub cz: i32,
}

// The seven numbers of a journal's first line, in its order, before their limits are known.
#[derive(Clone, Copy)]
pub struct Header {
    pub seed: i64,
    pub sea_level: i64,
    pub world_height_blocks: i64,
    pub chunk_size: i64,
    pub cx: i64,
    pub cy: i64,
    pub cz: i64,
}

// The greatest size, as a first line's number is tested against it.
const SIZE_TOP: i64 = SIZE_MOST as i64;

fn in_range(lo: i64, z: i64, hi: i64) -> bool
    ensures { result ≡ within lo z hi }
{
    (lo <= z) & (z <= hi)
}

// Whether the cells along one axis lie within a million.
fn place_fits(size: i64, c: i64) -> bool
    requires { (size_ok size ≡ true) × (mag c < 1099511627776) }
    ensures { result ≡ place_ok size c }
{
    let first = c * size;
    let last = first + (size - 1);
    (first >= PLACE_LEAST) & (last <= PLACE_MOST)
}

fn places_fit(h: Header) -> bool
    requires { (size_ok h.chunk_size ≡ true) × Narrow h }
    ensures { result ≡ places_ok h }
{
    let size = h.chunk_size;
    let x = place_fits(size, h.cx);
    let y = place_fits(size, h.cy);
    let z = place_fits(size, h.cz);
    x & y & z
}

// The refusal of the first limit that the seven numbers break.
pub fn limits(h: Header) -> Result<(), Refusal>
    requires { Narrow h }
    ensures { refusal_in result ≡ limit_refusal h }
{
    if !in_range(1, h.chunk_size, SIZE_TOP) {
        return Err(Refusal::Size);
    }
    if !in_range(0, h.seed, SEED_MOST) {
        return Err(Refusal::Seed);
    }
    if !in_range(SEA_LEAST, h.sea_level, SEA_MOST) {
        return Err(Refusal::SeaLevel);
    }
    if !in_range(HEIGHT_LEAST, h.world_height_blocks, HEIGHT_MOST) {
        return Err(Refusal::WorldHeight);
    }
    if places_fit(h) {
        Ok(())
    } else {
        Err(Refusal::Place)
    }
}

// The same for settings and a place. A size that i64 does not hold is refused before it is converted.
pub fn config_limits(config: TerrainConfig, pos: ChunkPos) -> Result<(), Refusal>
    ensures { refusal_in result ≡ limit_refusal (config_header config pos) }
{
    let size = config.chunk_size;
    if size > SIZE_MOST {
        return Err(Refusal::Size);
    }
    limits(Header {
        seed: config.seed as i64,
        sea_level: config.sea_level as i64,
        world_height_blocks: config.world_height_blocks as i64,
        chunk_size: size as i64,
        cx: pos.cx as i64,
        cy: pos.cy as i64,
        cz: pos.cz as i64,
    })
}
