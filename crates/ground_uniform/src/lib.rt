// Chunks of one block, by their place alone.
#![tactic(auto)]

ghost use Rattle.std.specs.Prelude.{◌≡◌, length};
ghost use Rattle.ground_cell.specs.World.{Tall, Near};
ghost use Rattle.ground_uniform.specs.Place.{deep_in, sky_in, all_of};

use ground_cell::world::{Frame, World, along};

// Whether the chunk lies so deep that every cell is stone: its highest cell is at -8 or lower.
#[tactic(auto, unfolding(crate::specs::Place::deep_in))]
pub fn is_deep(o: Frame) -> bool
    requires { Near o }
    ensures { result ≡ deep_in o }
{
    along(o.oy, o.size) <= -7
}

// Whether the chunk lies so high that every cell is air: above the sea, and above a boulder on the highest column.
#[tactic(auto, unfolding(crate::specs::Place::sky_in))]
pub fn is_sky(w: World, o: Frame) -> bool
    requires { Tall w × Near o }
    ensures { result ≡ sky_in w o }
{
    let reach = along(w.max_height, 5);
    (w.sea_level <= o.oy) & (reach <= o.oy)
}

// One block in every cell.
pub fn fill(cells: &mut [u16], id: u16)
    ensures { cells.new ≡ all_of (length cells.old) id }
{
    cells.fill(id);
}
