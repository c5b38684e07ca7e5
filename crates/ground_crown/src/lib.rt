// The leaves of a tree: `place_tree` of terrain.rs without the trunk.
#![tactic(auto)]

ghost use Rattle.std.specs.Prelude.{◌≡◌, ◌≤◌, ◌<◌, pos, ◌-ℤ◌};
ghost use Rattle.std.specs.Int.Signed.{mag};
ghost use Rattle.grid.specs.Cube.{Cube};
ghost use Rattle.ground_crown.specs.Crown.{Canopy, normal_crown, giant_crown, leaf_at, offset_or, square_gap, leaf_hash, has_leaf, leaf_step};
ghost use Rattle.ground_crown.specs.Radii.{radius_at};
ghost use Rattle.ground_crown.specs.Slabs.{leaf_step_in, layer_in, canopy_in};

use grid::cell_index;
use grid_slabs::in_rows;
use ground_cell::block::{AIR, LEAVES};
use ground_cell::world::local_y;
use noise::hash2;
use num_core::wrap::wrapping_add;

// A leaf, where there is air.
fn leaf_at(cells: &mut [u16], size: usize, x: usize, y: usize, z: usize)
    requires { Cube size cells.old }
    ensures { cells.new ≡ leaf_at size x y z cells.old }
{
    if x >= size {
        return;
    }
    if y >= size {
        return;
    }
    if z >= size {
        return;
    }
    let i = cell_index(size, x, y, z);
    if cells[i] == AIR {
        cells[i] = LEAVES;
        return;
    }
}

// x + i - r; size says that it is outside.
#[tactic(auto, unfolding(crate::specs::Crown::offset_or))]
fn offset(size: usize, x: usize, i: usize, r: usize) -> usize
    requires { (x < 65536) × (i < 65536) }
    ensures { result ≡ offset_or size x i r }
{
    if x + i < r {
        return size;
    }
    x + i - r
}

// The square of i - r.
fn square_gap(i: usize, r: usize) -> usize
    requires { (i < 65536) × (r < 65536) }
    ensures { (result ≡ square_gap i r) × (result < 4294967296) }
{
    if i < r {
        let d = r - i;
        return d * d;
    }
    let d = i - r;
    d * d
}

fn diff(i: usize, r: usize) -> i32
    requires { (i < 65536) × (r < 65536) }
    ensures { result ≡ pos i -ℤ pos r }
{
    (i as i32) - (r as i32)
}

// The hash of a rim leaf; the layer's offset is added to z.
#[tactic(auto, unfolding(crate::specs::Crown::leaf_hash))]
fn leaf_hash(wx: i32, wz: i32, r: usize, l: usize, i: usize, m: usize) -> f32
    requires { (r < 65536) × (l < 65536) × (i < 65536) × (m < 65536) }
    ensures { result ≡ leaf_hash wx wz r l i m }
{
    let x = wrapping_add(wx, diff(i, r));
    let z = wrapping_add(wrapping_add(wz, diff(m, r)), diff(l, 1));
    hash2(x, z)
}

fn leafy(wx: i32, wz: i32, r: usize, l: usize, i: usize, m: usize) -> bool
    requires { (r ≤ 4) × (l < 65536) × (i < 65536) × (m < 65536) }
    ensures { result ≡ has_leaf wx wz r l i m }
{
    let d = square_gap(i, r) + square_gap(m, r);
    let e = r * r + 1;
    if d < e {
        return true;
    }
    if d == e {
        if leaf_hash(wx, wz, r, l, i, m) > 0.6 {
            return false;
        }
        return true;
    }
    false
}

#[tactic(auto, unfolding(crate::specs::Crown::leaf_step))]
fn leaf(
    cells: &mut [u16],
    size: usize,
    x: usize,
    z: usize,
    wx: i32,
    wz: i32,
    y: usize,
    r: usize,
    l: usize,
    i: usize,
    m: usize,
)
    requires { Cube size cells.old × (x < 64) × (z < 64) × (r ≤ 4) × (l ≤ 4) × (i < 65536) × (m < 65536) }
    ensures { cells.new ≡ leaf_step size x z wx wz y r l i m cells.old }
{
    if leafy(wx, wz, r, l, i, m) {
        let fx = offset(size, x, i, r);
        let fz = offset(size, z, m, r);
        leaf_at(cells, size, fx, y, fz);
        return;
    }
}

// A leaf, in the slabs from lo on below hi alone.
#[tactic(auto, unfolding(crate::specs::Slabs::leaf_step_in))]
fn leaf_in(
    cells: &mut [u16],
    size: usize,
    lo: usize,
    hi: usize,
    x: usize,
    z: usize,
    wx: i32,
    wz: i32,
    y: usize,
    r: usize,
    l: usize,
    i: usize,
    m: usize,
)
    requires { Cube size cells.old × (x < 64) × (z < 64) × (r ≤ 4) × (l ≤ 4) × (i < 65536) × (m < 65536) }
    ensures { cells.new ≡ leaf_step_in lo hi size x z wx wz y r l i m cells.old }
{
    if in_rows(lo, hi, offset(size, z, m, r)) {
        leaf(cells, size, x, z, wx, wz, y, r, l, i, m);
        return;
    }
}

// The square of 2 r + 1 leaves, x outer and z inner, in those slabs alone.
fn layer(
    cells: &mut [u16],
    size: usize,
    lo: usize,
    hi: usize,
    x: usize,
    z: usize,
    wx: i32,
    wz: i32,
    y: usize,
    r: usize,
    l: usize,
)
    requires { Cube size cells.old × (x < 64) × (z < 64) × (r ≤ 4) × (l ≤ 4) }
    ensures { cells.new ≡ layer_in lo hi size x z wx wz y r l cells.old }
{
    let w = 2 * r + 1;
    for i in 0..w {
        for m in 0..w {
            leaf_in(cells, size, lo, hi, x, z, wx, wz, y, r, l, i, m);
        }
    }
}

// The radii of the crowns' layers, in each crown from the lowest up: those of the normal crown, of height 3, then those of the giant,
// of height 4. Another number here is another tree in every map, also in those that are saved.
const LEAF_RADII: [u8; 9] = [1, 1, 2, 2, 3, 3, 4, 4, 4];

// The normal crown's height and the length of its row.
const NORMAL_HEIGHT: usize = 3;

const NORMAL_LAYERS: usize = 4;

// The radius of layer l of the crown of height n.
fn leaf_radius(n: usize, l: usize) -> u8
    requires { (normal_crown.height ≤ n) × (n ≤ giant_crown.height) × (l ≤ n) }
    ensures { result ≡ radius_at n l }
{
    LEAF_RADII[NORMAL_LAYERS * (n - NORMAL_HEIGHT) + l]
}

// The layers from one below the trunk's top up. The widest radius, r, is the contract's: the table has a crown's radii by its height.
pub fn canopy(
    cells: &mut [u16],
    size: usize,
    lo: usize,
    hi: usize,
    oy: i32,
    x: usize,
    z: usize,
    wx: i32,
    wz: i32,
    top: usize,
    r: usize,
    n: usize,
)
    requires { Cube size cells.old × (x < 64) × (z < 64) × (mag oy ≤ 1000000) × Canopy r n × (1 ≤ top) × (top < 4294967296) }
    ensures { cells.new ≡ canopy_in lo hi size oy x z wx wz (pos top) r n cells.old }
{
    for l in 0..n + 1 {
        let q = leaf_radius(n, l) as usize;
        let y = local_y(oy, top + l - 1, size);
        layer(cells, size, lo, hi, x, z, wx, wz, y, q, l);
    }
}
