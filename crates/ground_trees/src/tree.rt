// Trees: the third pass of terrain.rs, and `place_tree`.
ghost use Rattle.std.specs.Prelude.{true, ◌≡◌, ℕ, ◌+◌, ◌-◌, ◌*◌, ◌≤◌, ◌<◌, ltb, pos, ◌-ℤ◌, length, get_or};
ghost use Rattle.std.specs.Int.Signed.{mag, lt_z};
ghost use Rattle.grid.specs.Cube.{Cube};
ghost use Rattle.ground_cell.specs.World.{Near, local_y};
ghost use Rattle.ground_trees.specs.Signs.{plus};
ghost use Rattle.grid_slabs.specs.Rows.{over_rows};
ghost use Rattle.ground_trees.specs.Features.{Canopy, tree_hash, variety_of, tree_grows, is_giant, top_in};
ghost use Rattle.ground_trees.specs.Slabs.{pillar_in, grow_in, plant_in, place_tree_in, tree_column_in, tree_step_in};

use grid_slabs::in_rows;
use ground_boulders::{inset, pillar, spread, whole};
use ground_cell::block::{LOG, gap};
use ground_cell::world::{FOREST, Frame, PLAINS, Top, along, local_y};
use ground_crown::canopy;
use noise::hash2;
use num_core::wrap::wrapping_add;

// A trunk, where its slab is one of those from lo on below hi.
#[tactic(auto, unfolding(crate::specs::Slabs::pillar_in))]
fn trunk_in(
    cells: &mut [u16],
    size: usize,
    lo: usize,
    hi: usize,
    oy: i32,
    x: usize,
    z: usize,
    y: usize,
    n: usize,
)
    requires { Cube size cells.old × (mag oy ≤ 1000000) × (y + n < 8589934592) }
    ensures { cells.new ≡ pillar_in lo hi size oy x z y n 8 cells.old }
{
    if in_rows(lo, hi, z) {
        pillar(cells, size, oy, x, z, y, n, LOG);
        return;
    }
}

// A trunk, then the canopy around its top, in those slabs.
#[tactic(auto, unfolding(crate::specs::Slabs::grow_in))]
fn grow(
    cells: &mut [u16],
    size: usize,
    lo: usize,
    hi: usize,
    oy: i32,
    x: usize,
    z: usize,
    wx: i32,
    wz: i32,
    y: usize,
    trunk: usize,
    r: usize,
    n: usize,
)
    requires { Cube size cells.old × (x < 64) × (z < 64) × (mag oy ≤ 1000000) × Canopy r n × (1 ≤ trunk) × (y + trunk < 4294967296) }
    ensures { cells.new ≡ grow_in lo hi size oy x z wx wz y (pos trunk) r n cells.old }
{
    trunk_in(cells, size, lo, hi, oy, x, z, y, trunk);
    canopy(cells, size, lo, hi, oy, x, z, wx, wz, y + trunk, r, n);
}

// A giant or a normal tree, in those slabs.
fn plant(
    cells: &mut [u16],
    size: usize,
    lo: usize,
    hi: usize,
    oy: i32,
    x: usize,
    z: usize,
    wx: i32,
    wz: i32,
    y: usize,
    big: bool,
    v: f32,
)
    requires { Cube size cells.old × (x < 64) × (z < 64) × (mag oy ≤ 1000000) × (y < 65536) × (plus v ≡ true) }
    ensures { cells.new ≡ plant_in lo hi size oy x z wx wz y big v cells.old }
{
    if big {
        let t = 8 + whole(v * 40.0);
        grow(cells, size, lo, hi, oy, x, z, wx, wz, y, t, 4, 4);
        return;
    }
    let t = 4 + whole(v * 3.0);
    grow(cells, size, lo, hi, oy, x, z, wx, wz, y, t, 2, 3);
}

#[tactic(auto, unfolding(crate::specs::Features::tree_hash))]
fn tree_hash(wx: i32, wz: i32) -> f32
    ensures { result ≡ tree_hash wx wz }
{
    hash2(spread(wx, 7, 1337), spread(wz, 13, 7331))
}

#[tactic(auto, unfolding(crate::specs::Features::variety_of))]
fn variety(wx: i32, wz: i32) -> f32
    ensures { result ≡ variety_of wx wz }
{
    hash2(wrapping_add(wx, 42), wrapping_add(wz, 99))
}

fn tree_grows(b: u8, h: f32) -> bool
    ensures { result ≡ tree_grows b h }
{
    match b {
        FOREST => !(h > 0.025),
        PLAINS => !(h > 0.003),
        _ => false,
    }
}

fn giant(b: u8, v: f32) -> bool
    ensures { result ≡ is_giant b v }
{
    (b == FOREST) & (v < 0.08)
}

// Whether a column is no more than 2 above the sea.
fn low(h: u16, sea: i32) -> bool
    ensures { result ≡ lt_z (pos h -ℤ sea) (pos 3) }
{
    gap(h as i32, sea) < 3
}

// Whether the surface below level y lies in the chunk.
fn in_chunk(size: usize, oy: i32, y: usize) -> bool
    requires { (mag oy ≤ 1000000) × (1 ≤ y) × (y < 65536) }
    ensures { result ≡ ltb (local_y size oy (pos (y - 1))) size }
{
    local_y(oy, y - 1, size) < size
}

// A tree where the column is high enough, its hash low enough and its surface, which then is grass, in the chunk.
#[tactic(auto, unfolding(crate::specs::Slabs::place_tree_in))]
fn place_tree(
    cells: &mut [u16],
    size: usize,
    lo: usize,
    hi: usize,
    oy: i32,
    sea: i32,
    t: Top,
    x: usize,
    z: usize,
    wx: i32,
    wz: i32,
)
    requires { Cube size cells.old × (x < 64) × (z < 64) × (mag oy ≤ 1000000) × (1 ≤ t.height) × (t.height < 65536) }
    ensures { cells.new ≡ place_tree_in lo hi size oy sea t x z wx wz cells.old }
{
    let h = t.height;
    let b = t.biome;
    if low(h, sea) {
        return;
    }
    if tree_grows(b, tree_hash(wx, wz)) {
        let y = h as usize;
        if in_chunk(size, oy, y) {
            let v = variety(wx, wz);
            plant(cells, size, lo, hi, oy, x, z, wx, wz, y, giant(b, v), v);
            return;
        }
        return;
    }
}

// The tree of a column, if it has one, in those slabs; none stands less than 2 from the rim.
#[tactic(auto, unfolding(crate::specs::Slabs::tree_column_in))]
fn tree_column(
    cells: &mut [u16],
    lo: usize,
    hi: usize,
    o: Frame,
    sea: i32,
    t: Top,
    x: usize,
    z: usize,
)
    requires { Cube o.size cells.old × Near o × (1 ≤ t.height) × (t.height < 65536) × (x < o.size) × (z < o.size) }
    ensures { cells.new ≡ tree_column_in lo hi o sea t x z cells.old }
{
    let size = o.size;
    if inset(2, size, x, z) {
        let wx = along(o.ox, x);
        let wz = along(o.oz, z);
        let oy = o.oy;
        place_tree(cells, size, lo, hi, oy, sea, t, x, z, wx, wz);
        return;
    }
}

// The columns of the rows from `first` on below `last`, z outer and x inner, in the slabs from lo on below hi.
// The walk is that of `place_boulders`, written out: a closure's clauses, of what each call does to the cells, would be longer than both walks.
pub fn place_trees(
    o: Frame,
    sea: i32,
    first: usize,
    last: usize,
    lo: usize,
    hi: usize,
    heights: &[u16],
    biomes: &[u8],
    cells: &mut [u16],
)
    requires { Near o
        × (o.size * o.size ≤ length heights.now)
        × (o.size * o.size ≤ length biomes.now)
        × Cube o.size cells.old
        × ((k : ℕ) → k < o.size * o.size → 1 ≤ get_or heights.now k 0)
        × (first ≤ last)
        × (last ≤ o.size) }
    ensures { cells.new
        ≡ over_rows o.size first last (tree_step_in lo hi o sea (top_in heights.now biomes.now)) cells.old }
{
    let size = o.size;
    for z in first..last {
        for x in 0..size {
            let k = z * size + x;
            let t = Top {
                height: heights[k],
                biome: biomes[k],
            };
            tree_column(cells, lo, hi, o, sea, t, x, z);
        }
    }
}
