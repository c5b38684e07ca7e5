// Caves by levels: the same answers as `cave` gives cell by cell, for a row of columns at one level, with what its cells
// share worked out once. The tables are those of `cave_tables`; the edges keep, of each of the eight octaves, the four
// rows of the lattice layer that the level lies in.
#![tactic(auto)]

ghost use Rattle.std.specs.Prelude.{◌≡◌, ◌+◌, ◌*◌, ◌≤◌, ◌<◌, length};
ghost use Rattle.noise_tables.specs.Row.{Row, Flags};
ghost use Rattle.noise_tables.specs.Places.{Noted};
ghost use Rattle.cave_tables.specs.Coords.{cave_coord};
ghost use Rattle.cave_ravines.specs.Cuts.{Cuts};
ghost use Rattle.ground_cell.specs.World.{Near};
ghost use Rattle.cave_rows.specs.Layers.{CaveRoom, AllLayers};
ghost use Rattle.cave_rows.specs.Fields.{sum_of, hollow_of, judged_at, Hollow};

use cave_tables::{CAVE_B, CAVERN, DEPTH_AT, LEVEL_AT, RAVINE, place_at};
use ground_cell::world::Frame;
use noise_layers::{LAYER, add_row, layer_rows};
use noise_tables::PLACES;
use num_core::float::{clamp, of_i32};

// How many octaves have levels: all before the ravines'.
const LEVELLED: usize = RAVINE;

// How long the edges are: a layer for each of these octaves.
pub const EDGES: usize = LEVELLED * LAYER;

// The layers of every octave at level y, for the row at z.
pub fn first_layers(y: usize, z: usize, n: usize, floors: &[u32], eases: &[f32], edges: &mut [f32])
    requires { CaveRoom y z n floors.now eases.now edges.old }
    ensures { AllLayers y z n floors.now eases.now edges.new }
{
    for o in 0..LEVELLED {
        layer_rows(
            o,
            o * PLACES + LEVEL_AT + y,
            o * PLACES + DEPTH_AT + z,
            n,
            floors,
            eases,
            edges,
        );
    }
}

// From the layers at one level to those at another: only an octave whose lattice cubes are others is worked out anew.
fn raise_layers(
    from: usize,
    y: usize,
    z: usize,
    n: usize,
    floors: &[u32],
    eases: &[f32],
    edges: &mut [f32],
)
    requires { (from < 64) × CaveRoom y z n floors.now eases.now edges.old × AllLayers from z n floors.now eases.now edges.old }
    ensures { AllLayers y z n floors.now eases.now edges.new }
{
    for o in 0..LEVELLED {
        let level = o * PLACES + LEVEL_AT;
        if floors[level + from] != floors[level + y] {
            layer_rows(
                o,
                level + y,
                o * PLACES + DEPTH_AT + z,
                n,
                floors,
                eases,
                edges,
            );
        }
    }
}

// The sums of `octaves` octaves from o on, for each cell of the row.
fn sum_octaves(
    octaves: usize,
    o: usize,
    y: usize,
    z: usize,
    n: usize,
    eases: &[f32],
    edges: &[f32],
) -> [f32; PLACES]
    requires { (o + octaves ≤ 8) × (y < 64) × (z < 64) × (n ≤ 64) × (length eases.now ≡ 1728) × (length edges.now ≡ 2048) }
    ensures { Row n (sum_of octaves o y z eases.now edges.now) result }
{
    let mut sums = [0.0f32; PLACES];
    let mut amp: f32 = 1.0;
    for k in 0..octaves {
        let q = o + k;
        let at = q * PLACES;
        add_row(
            q,
            at + LEVEL_AT + y,
            at + DEPTH_AT + z,
            amp,
            n,
            eases,
            edges,
            &mut sums,
        );
        amp *= 0.5;
    }
    sums
}

// One cell: a and b are the sums of the spaghetti caves' fields, c that of the caverns', and cut says whether the
// column lies on a ravine.
fn hollow_at(a: f32, b: f32, c: f32, y: f32, height: f32, cut: bool) -> bool
    ensures { result ≡ hollow_of a b c y height cut }
{
    let cave_a = a / 1.75 - 0.5;
    let cave_b = b / 1.75 - 0.5;
    let depth_factor = 1.0 - clamp(y / height, 0.0, 1.0);
    (cave_a * cave_a + cave_b * cave_b < 0.006)
        | (c / 1.5 > 0.7 - depth_factor * 0.15)
        | (cut & (y > height - 20.0) & (y < height - 1.0))
}

// Judges a row of n cells at y by their sums; the heights of its columns begin at k.
fn judge(
    y: f32,
    k: usize,
    n: usize,
    heights: &[u16],
    cuts: &[bool],
    a: &[f32],
    b: &[f32],
    c: &[f32],
    flags: &mut [bool],
)
    requires { (n ≤ 64)
        × (k ≤ 4096)
        × (k + n ≤ length heights.now)
        × (n ≤ length cuts.now)
        × (n ≤ length a.now)
        × (n ≤ length b.now)
        × (n ≤ length c.now)
        × (n ≤ length flags.old) }
    ensures { Flags n
        (judged_at y k heights.now cuts.now a.now b.now c.now) flags.new }
{
    for (i, flag) in flags[..n].iter_mut().enumerate() {
        let h = i32::from(heights[k + i]);
        *flag = hollow_at(a[i], b[i], c[i], y, of_i32(h), cuts[i]);
    }
}

// Which cells of the row at z are hollow at level y. The edges have the layers of the level `from`, and then those of y.
pub fn hollow_row(
    f: Frame,
    from: usize,
    y: usize,
    z: usize,
    heights: &[u16],
    cuts: &[bool],
    floors: &[u32],
    eases: &[f32],
    edges: &mut [f32],
    flags: &mut [bool],
)
    requires { Near f
        × (from < f.size)
        × (y < f.size)
        × (z < f.size)
        × (f.size * f.size ≤ length heights.now)
        × Cuts f z cuts.now
        × Noted f.size 27 (cave_coord f) floors.now eases.now
        × CaveRoom y z f.size floors.now eases.now edges.old
        × AllLayers from z f.size floors.now eases.now edges.old
        × (f.size ≤ length flags.old) }
    ensures { AllLayers y z f.size floors.now eases.now edges.new
        × Hollow f y z heights.now flags.new }
{
    let n = f.size;
    raise_layers(from, y, z, n, floors, eases, edges);
    let a = sum_octaves(3, 0, y, z, n, eases, edges);
    let b = sum_octaves(3, CAVE_B, y, z, n, eases, edges);
    let c = sum_octaves(2, CAVERN, y, z, n, eases, edges);
    let wy = place_at(f.oy, y);
    judge(wy, z * n, n, heights, cuts, &a, &b, &c, flags);
}
