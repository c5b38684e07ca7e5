// Pillars of blocks, and boulders: the second pass of terrain.rs.
#![tactic(auto)]

ghost use Rattle.std.specs.Prelude.{true, ◌≡◌, ◌+◌, ◌*◌, ◌≤◌, ◌<◌, length};
ghost use Rattle.std.specs.Int.Signed.{mag};
ghost use Rattle.num_core.specs.Wrap.{add_w, mul_w};
ghost use Rattle.grid.specs.Cube.{Cube};
ghost use Rattle.ground_cell.specs.World.{Near};
ghost use Rattle.ground_boulders.specs.Signs.{plus, whole_part};
ghost use Rattle.ground_boulders.specs.Boulders.{inset_in, pillar_of, boulder_hash, place_boulder, boulder_column, boulder_step, top_in};
ghost use Rattle.grid_slabs.specs.Rows.{over_rows};

use grid::put;
use ground_cell::block::STONE;
use ground_cell::world::{Frame, MOUNTAIN, Top, along, local_y};
use noise::hash2;
use num_core::float::to_i32;
use num_core::wrap::{wrapping_add, wrapping_mul};

// Whether a column is at least m away from the chunk's rim.
#[tactic(auto, unfolding(crate::specs::Boulders::inset_in))]
pub fn inset(m: usize, size: usize, x: usize, z: usize) -> bool
    requires { (m < 64) × (x < 65536) × (z < 65536) }
    ensures { result ≡ inset_in m size x z }
{
    (m <= x) & (x + m < size) & (m <= z) & (z + m < size)
}

// The whole part of a number that is not negative.
pub fn whole(x: f32) -> usize
    ensures { (result ≡ whole_part x) × (result < 2147483648) }
{
    let n = to_i32(x);
    if n < 0 { 0 } else { n as usize }
}

// n blocks v from level y up.
pub fn pillar(
    cells: &mut [u16],
    size: usize,
    oy: i32,
    x: usize,
    z: usize,
    y: usize,
    n: usize,
    v: u16,
)
    requires { Cube size cells.old × (mag oy ≤ 1000000) × (y + n < 8589934592) }
    ensures { cells.new ≡ pillar_of size oy x z y n v cells.old }
{
    for j in 0..n {
        let ly = local_y(oy, y + j, size);
        put(cells, size, x, ly, z, v);
    }
}

// A coordinate as the hash of a place takes it, so that those of boulders and of trees differ.
pub fn spread(w: i32, factor: i32, offset: i32) -> i32
    ensures { result ≡ add_w (mul_w w factor) offset }
{
    wrapping_add(wrapping_mul(w, factor), offset)
}

#[tactic(auto, unfolding(crate::specs::Boulders::boulder_hash))]
fn boulder_hash(wx: i32, wz: i32) -> f32
    ensures { result ≡ boulder_hash wx wz }
{
    hash2(spread(wx, 31, 555), spread(wz, 37, 777))
}

// A boulder where the column is a mountain's and its hash is low: 2 to 5 blocks, by the code and not its comment.
#[tactic(auto, unfolding(crate::specs::Boulders::place_boulder))]
fn boulder_at(cells: &mut [u16], size: usize, oy: i32, t: Top, x: usize, z: usize, h: f32)
    requires { Cube size cells.old × (mag oy ≤ 1000000) × (t.height < 65536) × (plus h ≡ true) }
    ensures { cells.new ≡ place_boulder size oy t x z h cells.old }
{
    let b = t.biome;
    if b != MOUNTAIN {
        return;
    }
    if h > 0.006 {
        return;
    }
    let n = 2 + whole(h * 500.0);
    let y = t.height as usize;
    pillar(cells, size, oy, x, z, y, n, STONE);
}

#[tactic(auto, unfolding(crate::specs::Boulders::boulder_column))]
fn boulder_column(cells: &mut [u16], o: Frame, t: Top, x: usize, z: usize)
    requires { Cube o.size cells.old × Near o × (t.height < 65536) × (x < o.size) × (z < o.size) }
    ensures { cells.new ≡ boulder_column o t x z cells.old }
{
    let size = o.size;
    if inset(1, size, x, z) {
        let wx = along(o.ox, x);
        let wz = along(o.oz, z);
        let h = boulder_hash(wx, wz);
        let oy = o.oy;
        boulder_at(cells, size, oy, t, x, z, h);
        return;
    }
}

// The columns of the rows from `first` on below `last`, z outer and x inner.
pub fn place_boulders(
    o: Frame,
    first: usize,
    last: usize,
    heights: &[u16],
    biomes: &[u8],
    cells: &mut [u16],
)
    requires { Near o
        × (o.size * o.size ≤ length heights.now)
        × (o.size * o.size ≤ length biomes.now)
        × Cube o.size cells.old
        × (first ≤ last)
        × (last ≤ o.size) }
    ensures { cells.new
        ≡ over_rows o.size first last (boulder_step o (top_in heights.now biomes.now)) cells.old }
{
    let size = o.size;
    for z in first..last {
        for x in 0..size {
            let k = z * size + x;
            let t = Top {
                height: heights[k],
                biome: biomes[k],
            };
            boulder_column(cells, o, t, x, z);
        }
    }
}
