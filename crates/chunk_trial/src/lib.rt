// What a batch of any length changes: of a long one, by a dry run on a copy of the cells.
#![tactic(auto)]

ghost use Rattle.std.specs.Prelude.{◌≡◌, ◌+◌, ◌/◌, ◌≤◌, length, get_or};
ghost use Rattle.grid.specs.Cube.{Cube};
ghost use Rattle.grid.specs.Count.{non_air_count};
ghost use Rattle.grid_edits.specs.Edits.{group, inside_groups, batch_groups, batch_cells};
ghost use Rattle.chunk_groups.specs.Net.{Net};
ghost use Rattle.chunk_trial.specs.Trial.{part_of, put_part, part_laid};

use chunk_groups::{BlockEdit, Change};

// A dry run copies the cells by parts of this many, so that the copy stays small on the stack.
const PART: usize = 16384;

// From this many numbers on a batch is tried on a copy.
const LONG: usize = 512;

// A part of the cells, copied; air past the last.
fn copy_part(cells: &[u16], start: usize, part: &mut [u16])
    requires { (length part.old ≡ 16384) × (length cells.now ≤ 262144) × (start ≤ 262144) }
    ensures { part.new ≡ part_of start cells.now }
{
    for (k, id) in part.iter_mut().enumerate() {
        *id = id_at(cells, start + k);
    }
}

// The id at a place, and air past the last.
fn id_at(cells: &[u16], i: usize) -> u16
    ensures { result ≡ get_or cells.now i 0 }
{
    cells.get(i).copied().unwrap_or(0)
}

// Lays a group on a copied part; what lies elsewhere is passed over.
#[tactic(auto, using(chunk_groups::specs::Laid::group_inside_lem), unfolding(crate::specs::Trial::put_part, crate::specs::Trial::put_at_part))]
fn put_part(part: &mut [u16], start: usize, size: usize, g: BlockEdit)
    requires { (length part.old ≡ 16384) × (size ≤ 64) }
    ensures { part.new ≡ put_part start size (group g.x g.y g.z g.id) part.old }
{
    if !chunk_groups::is_inside(size, g) {
        return;
    }
    let i = grid::cell_index(size, g.x, g.y, g.z);
    if start <= i && i - start < part.len() {
        part[i - start] = g.id;
    }
}

// All groups on a copied part, in their order.
fn lay_part(part: &mut [u16], start: usize, size: usize, edits: &[u32])
    requires { (length part.old ≡ 16384) × (size ≤ 64) }
    ensures { part.new ≡ part_laid start size edits.now (length edits.now / 4) part.old }
{
    for k in 0..edits.len() / 4 {
        let g = chunk_groups::group_at(edits, k);
        put_part(part, start, size, g);
    }
}

// How many cells would not be air with the batch laid on, found on a copy of a part after the other.
fn trial_count(cells: &[u16], size: usize, edits: &[u32], part: &mut [u16]) -> usize
    requires { Cube size cells.now × (length part.old ≡ 16384) }
    ensures { result ≡ non_air_count (batch_cells size (inside_groups size (batch_groups edits.now)) cells.now) }
{
    let mut total = 0;
    for k in 0..cells.len().div_ceil(PART) {
        let start = k * PART;
        copy_part(cells, start, part);
        lay_part(part, start, size, edits);
        total += grid::count_non_air(part);
    }
    total
}

// The change of a long batch, by a dry run.
fn trial_change(cells: &[u16], size: usize, edits: &[u32]) -> Change
    requires { Cube size cells.now }
    ensures { Net cells.now
        (batch_cells size (inside_groups size (batch_groups edits.now)) cells.now) (length edits.now / 4 + 262144) result }
{
    let mut part = [0u16; PART];
    let after = trial_count(cells, size, edits, &mut part);
    Change {
        before: grid::count_non_air(cells),
        after,
    }
}

// The change of a batch of any length. Group by group the time goes by the square of their number, so a long batch is tried on a copy.
pub fn any_change(cells: &[u16], size: usize, edits: &[u32]) -> Change
    requires { Cube size cells.now }
    ensures { Net cells.now
        (batch_cells size (inside_groups size (batch_groups edits.now)) cells.now) (length edits.now / 4 + 262144) result }
{
    if edits.len() < LONG {
        chunk_groups::batch_change(cells, size, edits)
    } else {
        trial_change(cells, size, edits)
    }
}
