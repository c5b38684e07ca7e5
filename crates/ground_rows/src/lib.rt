// A chunk's rows of columns, laid level by level: a row's cells share most of what their caves cost.
#![tactic(auto)]

ghost use Rattle.std.specs.Prelude.{◌≡◌, ◌+◌, ◌*◌, ◌≤◌, ◌<◌, length};
ghost use Rattle.noise_tables.specs.Places as places;
ghost use Rattle.cave_tables.specs.Coords.{cave_coord};
ghost use Rattle.ground_cell.specs.World.{Tall, Near};
ghost use Rattle.ground_cell.specs.Base.{TopsNoted};
ghost use Rattle.ground_lines.specs.Lines.{LaidLines, Flagged};
ghost use Rattle.grid.specs.Cube.{Cube};
ghost use Rattle.ground_rows.specs.Rows.{RowLent, Ready, RowBegun};

use cave_ravines::note_cuts;
use cave_rows::{first_layers, hollow_row};
use ground_cell::world::{Frame, World};
use ground_lines::{below_level, lay_line, row_top};

// Says which cells at y and z are hollow, where caves can be: between the levels lo and hi. The edges have the layers of
// the level `from`; the answer is the level whose layers they have then.
fn mark_line(
    o: Frame,
    lo: usize,
    hi: usize,
    from: usize,
    y: usize,
    z: usize,
    heights: &[u16],
    cuts: &[bool],
    floors: &[u32],
    eases: &[f32],
    edges: &mut [f32],
    flags: &mut [bool],
) -> usize
    requires { Near o
        × (y < o.size)
        × (z < o.size)
        × Ready o z lo hi from heights.now cuts.now floors.now eases.now edges.old
        × RowLent o floors.now eases.now edges.old flags.old }
    ensures { Ready o z lo hi result heights.now cuts.now floors.now eases.now edges.new
        × Flagged o y z heights.now flags.new }
{
    if (lo <= y) & (y < hi) {
        hollow_row(o, from, y, z, heights, cuts, floors, eases, edges, flags);
        return y;
    }
    from
}

// Lays the row at z, level by level.
fn lay_levels(
    w: World,
    o: Frame,
    z: usize,
    lo: usize,
    hi: usize,
    heights: &[u16],
    biomes: &[u8],
    cuts: &[bool],
    floors: &[u32],
    eases: &[f32],
    edges: &mut [f32],
    flags: &mut [bool],
    cells: &mut [u16],
)
    requires { Tall w
        × Near o
        × (z < o.size)
        × TopsNoted w o heights.now biomes.now
        × Ready o z lo hi lo heights.now cuts.now floors.now eases.now edges.old
        × RowLent o floors.now eases.now edges.old flags.old
        × Cube o.size cells.old }
    ensures { LaidLines w o (z * o.size) (z * o.size + o.size) cells.old cells.new }
{
    let mut from = lo;
    for y in 0..o.size {
        from = mark_line(
            o, lo, hi, from, y, z, heights, cuts, floors, eases, edges, flags,
        );
        lay_line(w, o, y, z, heights, biomes, flags, cells);
    }
}

// What the caves of the row at z need, if it can have any: its ravines, and the layers of the lowest level.
fn begin_row(
    o: Frame,
    lo: usize,
    hi: usize,
    z: usize,
    floors: &[u32],
    eases: &[f32],
    edges: &mut [f32],
    cuts: &mut [bool],
)
    requires { Near o
        × (hi ≤ o.size)
        × (z < o.size)
        × places.Noted o.size 27 (cave_coord o) floors.now eases.now
        × (length floors.now ≡ 1728)
        × (length eases.now ≡ 1728)
        × (length edges.old ≡ 2048)
        × (o.size ≤ length cuts.old) }
    ensures { RowBegun o z lo hi cuts.new floors.now eases.now edges.new }
{
    if lo >= hi {
        return;
    }
    note_cuts(o, z, floors, eases, cuts);
    first_layers(lo, z, o.size, floors, eases, edges);
}

// Lays the row at z.
pub fn lay_row(
    w: World,
    o: Frame,
    z: usize,
    heights: &[u16],
    biomes: &[u8],
    floors: &[u32],
    eases: &[f32],
    edges: &mut [f32],
    cuts: &mut [bool],
    flags: &mut [bool],
    cells: &mut [u16],
)
    requires { Tall w
        × Near o
        × (z < o.size)
        × TopsNoted w o heights.now biomes.now
        × places.Noted o.size 27 (cave_coord o) floors.now eases.now
        × RowLent o floors.now eases.now edges.old flags.old
        × (o.size ≤ length cuts.old)
        × Cube o.size cells.old }
    ensures { LaidLines w o (z * o.size) (z * o.size + o.size) cells.old cells.new }
{
    let size = o.size;
    let top = row_top(z, size, heights);
    let lo = below_level(o.oy, 1, size);
    let hi = below_level(o.oy, (top as usize) - 1, size);
    begin_row(o, lo, hi, z, floors, eases, edges, cuts);
    lay_levels(
        w, o, z, lo, hi, heights, biomes, cuts, floors, eases, edges, flags, cells,
    );
}
