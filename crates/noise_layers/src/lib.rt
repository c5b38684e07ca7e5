// 3D noise along rows of columns, level by level. Each value is that of `noise3d`, by the same f32 operations on the same
// operands; what does not change is kept: the hashes along x, and their interpolation along x from level to level.
#![tactic(auto)]

ghost use Rattle.std.specs.Prelude.{◌+◌, ◌*◌, ◌≤◌, ◌<◌, length};
ghost use Rattle.noise_tables.specs.Row.{Row};
ghost use Rattle.noise_layers.specs.Layers.{edge_at, RowLaid, OctaveRoom, Layered, row_more};

use noise::{hash3, lerp};
use noise_tables::PLACES;
use num_core::wrap::{of_bits, wrapping_add};

// Where the rows of an octave's layer begin, behind the first, which is at iy and iz; and how long a layer is.
const NEXT_Y: usize = PLACES;

const NEXT_Z: usize = 2 * PLACES;

const NEXT_YZ: usize = 3 * PLACES;

pub const LAYER: usize = 4 * PLACES;

// Between the hashes along x at iy and iz, for n places that the tables tell of from base on; written from `to` on. The
// two hashes are kept until a place lies in the next cube.
fn edge_row(
    iy: i32,
    iz: i32,
    base: usize,
    to: usize,
    n: usize,
    floors: &[u32],
    eases: &[f32],
    edges: &mut [f32],
)
    requires { (0 < n)
        × (n ≤ 64)
        × (base ≤ 65536)
        × (to ≤ 65536)
        × (base + n ≤ length floors.now)
        × (base + n ≤ length eases.now)
        × (to + n ≤ length edges.old) }
    ensures { RowLaid to n (edge_at iy iz base floors.now eases.now) edges.old edges.new }
{
    let mut at = floors[base];
    let mut a = hash3(of_bits(at), iy, iz);
    let mut b = hash3(wrapping_add(of_bits(at), 1), iy, iz);
    for i in 0..n {
        let next = floors[base + i];
        if next != at {
            at = next;
            a = hash3(of_bits(at), iy, iz);
            b = hash3(wrapping_add(of_bits(at), 1), iy, iz);
        }
        edges[to + i] = lerp(a, b, eases[base + i]);
    }
}

// The four rows of octave o at the level and the z that the tables tell of at ky and kz: at iy and iz, at iy + 1, and
// both at iz + 1.
pub fn layer_rows(
    o: usize,
    ky: usize,
    kz: usize,
    n: usize,
    floors: &[u32],
    eases: &[f32],
    edges: &mut [f32],
)
    requires { OctaveRoom o ky kz n floors.now eases.now edges.old }
    ensures { Layered o ky kz n floors.now eases.now edges.old edges.new }
{
    let iy = of_bits(floors[ky]);
    let iz = of_bits(floors[kz]);
    let jy = wrapping_add(iy, 1);
    let jz = wrapping_add(iz, 1);
    let base = o * PLACES;
    let to = o * LAYER;
    edge_row(iy, iz, base, to, n, floors, eases, edges);
    edge_row(jy, iz, base, to + NEXT_Y, n, floors, eases, edges);
    edge_row(iy, jz, base, to + NEXT_Z, n, floors, eases, edges);
    edge_row(jy, jz, base, to + NEXT_YZ, n, floors, eases, edges);
}

// Adds octave o to the sums of a row, between its four rows: along y, then along z.
pub fn add_row(
    o: usize,
    ky: usize,
    kz: usize,
    amp: f32,
    n: usize,
    eases: &[f32],
    edges: &[f32],
    sums: &mut [f32],
)
    requires { (o < 8) × (n ≤ 64) × (ky < length eases.now) × (kz < length eases.now) × (2048 ≤ length edges.now) × (n ≤ length sums.old) }
    ensures { Row n (row_more o ky kz amp eases.now edges.now sums.old) sums.new }
{
    let fy = eases[ky];
    let fz = eases[kz];
    let to = o * LAYER;
    for i in 0..n {
        let j = to + i;
        let low = lerp(edges[j], edges[j + NEXT_Y], fy);
        let high = lerp(edges[j + NEXT_Z], edges[j + NEXT_YZ], fy);
        sums[i] += lerp(low, high, fz) * amp;
    }
}
