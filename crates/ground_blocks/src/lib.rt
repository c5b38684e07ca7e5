// Block ids, and which block a cell below the surface is: block.rs, and `select_block` of terrain.rs.
#![tactic(auto)]

ghost use Rattle.std.specs.Prelude.{◌≡◌, ◌-ℤ◌};
ghost use Rattle.ground_blocks.specs.Blocks.{desert_block, snow_patch, mountain_top, mountain_block, shore_block, forest_block, plains_block, select_block};

use column::Biome;
use num_core::wrap::wrapping_mul;

// Numbers and not an enum: a cell is a u16 in the C interface, and each u16 is a block there.
pub const AIR: u16 = 0;

pub const STONE: u16 = 1;

pub const DIRT: u16 = 2;

pub const GRASS: u16 = 3;

pub const SAND: u16 = 4;

pub const WATER: u16 = 5;

pub const SNOW: u16 = 6;

pub const GRAVEL: u16 = 7;

pub const LOG: u16 = 8;

pub const LEAVES: u16 = 9;

// a - b, which an i64 holds.
pub fn gap(a: i32, b: i32) -> i64
    ensures { result ≡ a -ℤ b }
{
    (a as i64) - (b as i64)
}

// Sparse snow: the hash takes the level and the height, so that whole layers are alike.
fn snow_patch(wy: i32, height: i32) -> bool
    ensures { result ≡ snow_patch wy height }
{
    noise::hash2(wrapping_mul(wy, 3), wrapping_mul(height, 7)) > 0.5
}

#[tactic(auto, unfolding(crate::specs::Blocks::desert_block))]
fn desert(depth: i64) -> u16
    ensures { result ≡ desert_block depth }
{
    match depth {
        ..=4 => SAND,
        5..=8 => GRAVEL,
        9.. => STONE,
    }
}

#[tactic(auto, unfolding(crate::specs::Blocks::mountain_top))]
fn mountain_top(wy: i32, height: i32) -> u16
    ensures { result ≡ mountain_top wy height }
{
    match height {
        ..=40 => STONE,
        41..=55 => GRAVEL,
        56..=70 => { if snow_patch(wy, height) { SNOW } else { STONE } }
        71.. => SNOW,
    }
}

#[tactic(auto, unfolding(crate::specs::Blocks::mountain_block))]
fn mountain(depth: i64, wy: i32, height: i32) -> u16
    ensures { result ≡ mountain_block depth wy height }
{
    match depth {
        ..=2 => mountain_top(wy, height),
        3.. => STONE,
    }
}

// The top of a forest or of plains: sand up to 2 above the sea.
#[tactic(auto, unfolding(crate::specs::Blocks::shore_block))]
fn shore(height: i32, sea_level: i32) -> u16
    ensures { result ≡ shore_block height sea_level }
{
    if gap(height, sea_level) < 3 {
        SAND
    } else {
        GRASS
    }
}

#[tactic(auto, unfolding(crate::specs::Blocks::forest_block))]
fn forest(depth: i64, height: i32, sea_level: i32) -> u16
    ensures { result ≡ forest_block depth height sea_level }
{
    match depth {
        ..=1 => shore(height, sea_level),
        2..=5 => DIRT,
        6.. => STONE,
    }
}

#[tactic(auto, unfolding(crate::specs::Blocks::plains_block))]
fn plains(depth: i64, height: i32, sea_level: i32) -> u16
    ensures { result ≡ plains_block depth height sea_level }
{
    match depth {
        ..=1 => shore(height, sea_level),
        2..=4 => DIRT,
        5.. => STONE,
    }
}

#[tactic(auto, unfolding(crate::specs::Blocks::select_block))]
pub fn select_block(biome: Biome, wy: i32, height: i32, sea_level: i32) -> u16
    ensures { result ≡ select_block biome wy height sea_level }
{
    let depth = gap(height, wy);
    match biome {
        Biome::Desert => desert(depth),
        Biome::Mountain => mountain(depth, wy, height),
        Biome::Forest => forest(depth, height, sea_level),
        Biome::Plains => plains(depth, height, sea_level),
    }
}
