// Lines of cells along x: which levels a row's caves can lie between, and the laying of a line by its flags.
#![tactic(auto)]

ghost use Rattle.std.specs.Prelude.{◌≡◌, ◌+◌, ◌*◌, ◌≤◌, ◌<◌, length};
ghost use Rattle.std.specs.Int.Signed.{mag};
ghost use Rattle.ground_cell.specs.World.{Tall, Near};
ghost use Rattle.ground_cell.specs.Base.{TopsNoted};
ghost use Rattle.ground_lines.specs.Lines.{below_level, Highest, Flagged, LaidLines};
ghost use Rattle.grid.specs.Cube.{Cube};

use ground_cell::world::{Frame, Top, World, along, cell, local_y};

// How many cells of a column lie below a level of the world.
pub fn below_level(o: i32, level: usize, size: usize) -> usize
    requires { (mag o ≤ 1000000) × (level < 65536) }
    ensures { result ≡ below_level size o level }
{
    let n = local_y(o, level, 0);
    if n < size {
        return n;
    }
    size
}

// The greatest height in the row at z.
pub fn row_top(z: usize, size: usize, heights: &[u16]) -> u16
    requires { (z < size) × (size ≤ 64) × (size * size ≤ length heights.now) }
    ensures { Highest z size result heights.now }
{
    let first = z * size;
    let mut top: u16 = 1;
    for h in &heights[first..first + size] {
        if *h > top {
            top = *h;
        }
    }
    top
}

// Lays the cells at y and z. The flags say where they are hollow.
pub fn lay_line(
    w: World,
    o: Frame,
    y: usize,
    z: usize,
    heights: &[u16],
    biomes: &[u8],
    flags: &[bool],
    cells: &mut [u16],
)
    requires { Tall w
        × Near o
        × (y < o.size)
        × (z < o.size)
        × TopsNoted w o heights.now biomes.now
        × Flagged o y z heights.now flags.now
        × Cube o.size cells.old }
    ensures { LaidLines w o (z * o.size + y) (z * o.size + y + 1) cells.old cells.new }
{
    let size = o.size;
    let wy = along(o.oy, y);
    let column = z * size;
    let first = (column + y) * size;
    for x in 0..size {
        let t = Top {
            height: heights[column + x],
            biome: biomes[column + x],
        };
        cells[first + x] = cell(t, w.sea_level, wy, flags[x]);
    }
}
