// A column of the world, a cell of it, and where a chunk lies in it.
ghost use Rattle.std.specs.Prelude.{◌≡◌, ◌&&◌, ◌≤◌, ◌<◌, pos, ◌+ℤ◌, ◌-ℤ◌};
ghost use Rattle.std.specs.Int.Signed.{mag, lt_z};
ghost use Rattle.ground_cell.specs.World.{biome_number, biome_numbered, local_y, cell_with, ground_cell};

use crate::block::{AIR, WATER, select_block};
use column::Biome;

// The settings without the chunk's size, as `generate` of terrain.rs works them out.
#[derive(Clone, Copy)]
pub struct World {
    pub seed_offset: f32,
    pub sea_level: i32,
    pub max_height: i32,
}

// Where a chunk begins, and its size.
#[derive(Clone, Copy)]
pub struct Frame {
    pub ox: i32,
    pub oy: i32,
    pub oz: i32,
    pub size: usize,
}

// A column's height and the number of its biome, as the two caches hold them.
#[derive(Drop)]
pub struct Top {
    pub height: u16,
    pub biome: u8,
}

// o + n.
pub fn along(o: i32, n: usize) -> i32
    requires { (mag o ≤ 1000000) × (n < 65536) }
    ensures { result ≡ o +ℤ pos n }
{
    o + (n as i32)
}

// Where level y lies in a chunk that begins at o; size says that it is below.
#[tactic(auto, unfolding(crate::specs::World::local_y))]
pub fn local_y(o: i32, y: usize, size: usize) -> usize
    requires { (mag o ≤ 1000000) × (y < 8589934592) }
    ensures { result ≡ local_y size o (pos y) }
{
    let d = (y as i64) - (o as i64);
    if d < 0 { size } else { d as usize }
}

// The numbers of the biomes, as the caches hold them: `column_biome`, `place_boulder` and `tree_grows` of specs/ speak of these.
pub const DESERT: u8 = 0;

pub const MOUNTAIN: u8 = 1;

pub const FOREST: u8 = 2;

pub const PLAINS: u8 = 3;

pub fn biome_number(b: Biome) -> u8
    ensures { result ≡ biome_number b }
{
    match b {
        Biome::Desert => DESERT,
        Biome::Mountain => MOUNTAIN,
        Biome::Forest => FOREST,
        Biome::Plains => PLAINS,
    }
}

#[tactic(auto, unfolding(crate::specs::World::biome_numbered))]
fn biome_numbered(n: u8) -> Biome
    ensures { result ≡ biome_numbered n }
{
    match n {
        DESERT => Biome::Desert,
        MOUNTAIN => Biome::Mountain,
        FOREST => Biome::Forest,
        _ => Biome::Plains,
    }
}

// Below the surface: caves, and else the biome's block.
#[tactic(auto, unfolding(crate::specs::World::ground_cell))]
fn ground_cell(b: Biome, wy: i32, h: u16, sea_level: i32, hollow: bool) -> u16
    ensures { result ≡ ground_cell (lt_z (pos 0) wy && lt_z wy (pos h -ℤ pos 1)) hollow b wy (pos h) sea_level }
{
    let height = h as i32;
    if (wy > 0) & (wy < height - 1) & hollow {
        return AIR;
    }
    select_block(b, wy, height, sea_level)
}

// A cell of a column with this top; hollow says whether a cave is there, where its level admits one.
#[tactic(auto, unfolding(crate::specs::World::cell_with, crate::specs::World::column_cell))]
pub fn cell(t: Top, sea_level: i32, wy: i32, hollow: bool) -> u16
    requires { t.height < 65536 }
    ensures { result ≡ cell_with t sea_level wy hollow }
{
    let h = t.height;
    let n = t.biome;
    let height = h as i32;
    if wy >= height {
        if wy < sea_level {
            return WATER;
        }
        return AIR;
    }
    let b = biome_numbered(n);
    ground_cell(b, wy, h, sea_level, hollow)
}
