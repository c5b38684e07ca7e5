// A row of columns: their x as the noise takes it, and their heights and biomes by the noise that rows hold.
#![tactic(auto)]

ghost use Rattle.std.specs.Prelude.{◌≡◌, ◌+◌, ◌*◌, ◌≤◌, ◌<◌, length};
ghost use Rattle.column.specs.Floats.{real};
ghost use Rattle.column.specs.Column.{surface_of};
ghost use Rattle.grid.specs.Cube.{steps};
ghost use Rattle.noise_tables.specs.Row.{Row};
ghost use Rattle.ground_cell.specs.World.{Tall, Near};
ghost use Rattle.ground_cell.specs.Base.{column_height, column_biome};
ghost use Rattle.column_tops_row.specs.Tops.{surface_top, x_at, RowNoise, note_at};

use column::{Column, Relief, surface_of};
use column_read::Noise;
use ground_cell::world::{Frame, Top, World, along, biome_number};
use num_core::float::of_i32;

// The top of a column with this climate and relief.
fn top_of(w: World, climate: Column, relief: Relief) -> Top
    requires { Tall w }
    ensures { result ≡ surface_top (surface_of climate relief (real w.sea_level) w.max_height) }
{
    let sl = of_i32(w.sea_level);
    let s = surface_of(climate, relief, sl, w.max_height);
    let b = s.biome;
    let n = biome_number(b);
    let h = s.height;
    Top {
        height: h as u16,
        biome: n,
    }
}

// The x of each column of a row, as the noise takes it.
pub fn note_xs(w: World, o: Frame, xs: &mut [f32])
    requires { Near o × (o.size ≤ length xs.old) }
    ensures { Row o.size (x_at w o) xs.new }
{
    for (i, x) in xs[..o.size].iter_mut().enumerate() {
        let wx = along(o.ox, i);
        *x = of_i32(wx) + w.seed_offset;
    }
}

// Notes the tops of row z, by its noise.
pub fn put_row(w: World, o: Frame, z: usize, noise: &Noise, heights: &mut [u16], biomes: &mut [u8])
    requires { Tall w
        × Near o
        × (z < o.size)
        × RowNoise w o z noise.now
        × (o.size * o.size ≤ length heights.old)
        × (o.size * o.size ≤ length biomes.old) }
    ensures { (heights.new ≡ steps o.size (note_at (column_height w o) (z * o.size)) heights.old)
        × (biomes.new ≡ steps o.size (note_at (column_biome w o) (z * o.size)) biomes.old) }
{
    let m = z * o.size;
    for x in 0..o.size {
        let t = top_of(w, noise.climate(x), noise.relief(x));
        let k = m + x;
        heights[k] = t.height;
        biomes[k] = t.biome;
    }
}
