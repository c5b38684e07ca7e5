// The ground before boulders and trees: the first pass of terrain.rs, laid in the order of the cells.
#![tactic(auto)]

ghost use Rattle.std.specs.Prelude.{◌≡◌, ◌*◌, ◌≤◌, length};
ghost use Rattle.grid.specs.Cube.{Cube};
ghost use Rattle.noise_tables.specs.Places as places;
ghost use Rattle.cave_tables.specs.Coords.{cave_coord};
ghost use Rattle.ground_lines.specs.Lines.{LaidLines};
ghost use Rattle.ground_rows.specs.Rows.{RowLent};
ghost use Rattle.ground_base.specs.Caves.{CavesNoted};
ghost use Rattle.ground_cell.specs.World.{Tall, Near};
ghost use Rattle.ground_cell.specs.Base.{TopsNoted};

use cave_rows::EDGES;
use ground_cell::world::{Frame, World};
use ground_rows::lay_row;
use noise_tables::PLACES;

// Lays the rows from `first` on below `last`, by the tops that the caches hold and the places in the tables. All else stays.
fn lay_rows(
    w: World,
    o: Frame,
    first: usize,
    last: usize,
    heights: &[u16],
    biomes: &[u8],
    floors: &[u32],
    eases: &[f32],
    edges: &mut [f32],
    cuts: &mut [bool],
    flags: &mut [bool],
    cells: &mut [u16],
)
    requires { Tall w
        × Near o
        × (first ≤ last)
        × (last ≤ o.size)
        × TopsNoted w o heights.now biomes.now
        × places.Noted o.size 27 (cave_coord o) floors.now eases.now
        × RowLent o floors.now eases.now edges.old flags.old
        × (o.size ≤ length cuts.old)
        × Cube o.size cells.old }
    ensures { LaidLines w o (first * o.size) (last * o.size) cells.old cells.new }
{
    for z in first..last {
        lay_row(
            w, o, z, heights, biomes, floors, eases, edges, cuts, flags, cells,
        );
    }
}

// Room for a row's flags.
fn no_flags() -> [bool; PLACES]
    ensures { length result ≡ 64 }
{
    [false; PLACES]
}

// The same, with room of its own for the layers and flags of a row.
pub fn lay_base(
    w: World,
    o: Frame,
    first: usize,
    last: usize,
    heights: &[u16],
    biomes: &[u8],
    floors: &[u32],
    eases: &[f32],
    cells: &mut [u16],
)
    requires { Tall w
        × Near o
        × (first ≤ last)
        × (last ≤ o.size)
        × TopsNoted w o heights.now biomes.now
        × CavesNoted o floors.now eases.now
        × Cube o.size cells.old }
    ensures { LaidLines w o (first * o.size) (last * o.size) cells.old cells.new }
{
    let mut edges = [0.0f32; EDGES];
    let mut cuts = no_flags();
    let mut flags = no_flags();
    lay_rows(
        w, o, first, last, heights, biomes, floors, eases, &mut edges, &mut cuts, &mut flags, cells,
    );
}
