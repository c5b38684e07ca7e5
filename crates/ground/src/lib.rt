// The ground of a chunk: `generate` of terrain.rs.
#![tactic(auto)]

ghost use Rattle.std.specs.Prelude.{◌≡◌, ◌≤◌, pos, ◌*ℤ◌};
ghost use Rattle.std.specs.Int.Signed.{mag};
ghost use Rattle.config.specs.Limits.{Between, Fine};
ghost use Rattle.config.specs.Answers.{cells_outcome};
ghost use Rattle.config.specs.Numbers.{refusal_in};
ghost use Rattle.ground.specs.Ground.{world_of, frame_of, generate_refusal, says_generated, generate_does};

use config::{ChunkPos, Refusal, TerrainConfig, config_limits};
use ground_cell::world::{Frame, World};
use ground_chunk::lay_chunk;

// The first cell of a chunk along an axis.
fn origin(size: usize, c: i32) -> i32
    requires { (size ≤ 64) × (mag (c *ℤ pos size) ≤ 1000000) }
    ensures { result ≡ c *ℤ pos size }
{
    ((c as i64) * (size as i64)) as i32
}

// The settings as the ground takes them.
pub fn world_of(config: TerrainConfig) -> World
    requires { Between 2 4096 config.world_height_blocks × (mag config.sea_level ≤ 4096) }
    ensures { result ≡ world_of config }
{
    let seed_offset = std::num::nearest_u32_to_f32(config.seed) * 1000.0;
    let height = config.world_height_blocks;
    World {
        seed_offset,
        sea_level: config.sea_level,
        max_height: height - 1,
    }
}

// Where a chunk lies, and its size.
pub fn frame_of(config: TerrainConfig, pos: ChunkPos) -> Frame
    requires { Fine config pos }
    ensures { result ≡ frame_of config pos }
{
    let size = config.chunk_size;
    let ox = origin(size, pos.cx);
    let oy = origin(size, pos.cy);
    let oz = origin(size, pos.cz);
    Frame { ox, oy, oz, size }
}

// The first refusal; n is the length of the cells.
fn refusal_of(config: TerrainConfig, pos: ChunkPos, n: usize) -> Result<(), Refusal>
    ensures { refusal_in result ≡ generate_refusal config pos n }
{
    config_limits(config, pos)?;
    let size = config.chunk_size;
    if n != size * size * size {
        return Err(Refusal::Length);
    }
    Ok(())
}

// Lays the ground of a chunk into borrowed cells, and answers how many of them are not air.
#[tactic(auto, using(config::specs::Answers::is_refused_by), unfolding(crate::specs::Ground::generate_does))]
pub fn generate(config: TerrainConfig, pos: ChunkPos, cells: &mut [u16]) -> Result<u32, Refusal>
    ensures { cells_outcome (says_generated result) cells.new ≡ generate_does config pos cells.old }
{
    refusal_of(config, pos, cells.len())?;
    let w = world_of(config);
    let o = frame_of(config, pos);
    let count = lay_chunk(w, o, cells);
    Ok(count as u32)
}
