// Which columns of a chunk's row lie on a ravine: `ravine_here` of `cave_plain`, with the larger noise worked out by rows.
#![tactic(auto)]

ghost use Rattle.std.specs.Prelude.{◌≡◌, ◌≤◌, ◌<◌, length};
ghost use Rattle.noise_tables.specs.Row.{Flags};
ghost use Rattle.noise_tables.specs.Places.{Noted};
ghost use Rattle.cave_tables.specs.Coords.{cave_coord};
ghost use Rattle.ground_cell.specs.World.{Near};
ghost use Rattle.cave_ravines.specs.Cuts.{cut_at, Cuts};

use cave_tables::{RAVINE_AT, place_at};
use ground_cell::cave::ravine_with;
use ground_cell::world::Frame;
use noise_rows::fbm_row;
use noise_tables::PLACES;

fn cut_row(f: Frame, z: f32, vals: &[f32], cuts: &mut [bool])
    requires { Near f × (f.size ≤ length vals.now) × (f.size ≤ length cuts.old) }
    ensures { Flags f.size (cut_at f z vals.now) cuts.new }
{
    for (i, cut) in cuts[..f.size].iter_mut().enumerate() {
        let x = place_at(f.ox, i);
        *cut = ravine_with(vals[i], x, z);
    }
}

// The tables are those of `cave_tables`.
pub fn note_cuts(f: Frame, z: usize, floors: &[u32], eases: &[f32], cuts: &mut [bool])
    requires { Near f
        × (z < f.size)
        × Noted f.size 27 (cave_coord f) floors.now eases.now
        × (length floors.now ≡ 1728)
        × (length eases.now ≡ 1728)
        × (f.size ≤ length cuts.old) }
    ensures { Cuts f z cuts.new }
{
    let n = f.size;
    let v = place_at(f.oz, z);
    let mut vals = [0.0f32; PLACES];
    fbm_row(v * 0.01, 3, RAVINE_AT, n, floors, eases, &mut vals);
    cut_row(f, v, &vals, cuts);
}
