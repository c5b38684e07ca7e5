// The heights and the biomes of a chunk's columns, with the noise worked out row by row.
#![tactic(auto)]

ghost use Rattle.std.specs.Prelude.{◌≡◌, ◌++◌, ◌*◌, ◌≤◌, ◌<◌, length, drop};
ghost use Rattle.grid.specs.Cube.{tab, steps};
ghost use Rattle.ground_cell.specs.World.{Tall, Near};
ghost use Rattle.ground_cell.specs.Base.{column_height, column_biome};
ghost use Rattle.column_tops_row.specs.Tops.{RowTabled, note_at};

use column_read::Noise;
use column_rows::{climate_rows, height_rows, lowland_rows, ridge_rows};
use column_tables::note_rows;
use column_tops_row::{note_xs, put_row};
use ground_cell::world::{Frame, World, along};
use noise_tables::PLACES;
use num_core::float::of_i32;

// Notes the tops of row z.
fn note_row(
    w: World,
    o: Frame,
    z: usize,
    xs: &[f32],
    floors: &[u32],
    eases: &[f32],
    heights: &mut [u16],
    biomes: &mut [u8],
)
    requires { Tall w
        × Near o
        × (z < o.size)
        × RowTabled w o xs.now floors.now eases.now
        × (o.size * o.size ≤ length heights.old)
        × (o.size * o.size ≤ length biomes.old) }
    ensures { (heights.new ≡ steps o.size (note_at (column_height w o) (z * o.size)) heights.old)
        × (biomes.new ≡ steps o.size (note_at (column_biome w o) (z * o.size)) biomes.old) }
{
    let n = o.size;
    let mut noise = Noise {
        temp: [0.0; PLACES],
        moisture: [0.0; PLACES],
        continent: [0.0; PLACES],
        detail: [0.0; PLACES],
        micro: [0.0; PLACES],
        ridge1: [0.0; PLACES],
        ridge2: [0.0; PLACES],
        steps: [0.0; PLACES],
        dune: [0.0; PLACES],
        hill: [0.0; PLACES],
    };
    let wz = along(o.oz, z);
    let v = of_i32(wz) + w.seed_offset;
    climate_rows(v, n, floors, eases, &mut noise.temp, &mut noise.moisture);
    height_rows(
        xs,
        v,
        n,
        floors,
        eases,
        &mut noise.continent,
        &mut noise.detail,
        &mut noise.micro,
    );
    ridge_rows(v, n, floors, eases, &mut noise.ridge1, &mut noise.ridge2);
    lowland_rows(
        v,
        n,
        floors,
        eases,
        &mut noise.steps,
        &mut noise.dune,
        &mut noise.hill,
    );
    put_row(w, o, z, &noise, heights, biomes);
}

// Notes the tops of every row.
fn note_each(
    w: World,
    o: Frame,
    xs: &[f32],
    floors: &[u32],
    eases: &[f32],
    heights: &mut [u16],
    biomes: &mut [u8],
)
    requires { Tall w
        × Near o
        × RowTabled w o xs.now floors.now eases.now
        × (o.size * o.size ≤ length heights.old)
        × (o.size * o.size ≤ length biomes.old) }
    ensures { (heights.new ≡ tab (o.size * o.size) (column_height w o) ++ drop (o.size * o.size) heights.old)
        × (biomes.new ≡ tab (o.size * o.size) (column_biome w o) ++ drop (o.size * o.size) biomes.old) }
{
    for z in 0..o.size {
        note_row(w, o, z, xs, floors, eases, heights, biomes);
    }
}

// Fills the two caches, as the Rust fills its own. The x of the columns, which all rows share, are noted once, in tables that are lent.
pub fn note_tops(
    w: World,
    o: Frame,
    floors: &mut [u32],
    eases: &mut [f32],
    heights: &mut [u16],
    biomes: &mut [u8],
)
    requires { Tall w
        × Near o
        × (2304 ≤ length floors.old)
        × (2304 ≤ length eases.old)
        × (o.size * o.size ≤ length heights.old)
        × (o.size * o.size ≤ length biomes.old) }
    ensures { (heights.new ≡ tab (o.size * o.size) (column_height w o) ++ drop (o.size * o.size) heights.old)
        × (biomes.new ≡ tab (o.size * o.size) (column_biome w o) ++ drop (o.size * o.size) biomes.old) }
{
    let mut xs = [0.0f32; PLACES];
    note_xs(w, o, &mut xs);
    note_rows(&xs, o.size, floors, eases);
    note_each(w, o, &xs, floors, eases, heights, biomes);
}
