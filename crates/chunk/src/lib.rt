// The cells of a chunk, borrowed: what its calls answer, the tests that they begin with, and columns of cells.
#![tactic(auto)]

ghost use Rattle.std.specs.Prelude.{◌≡◌, ◌≤◌};
ghost use Rattle.grid.specs.Cube.{Cube};
ghost use Rattle.grid.specs.Differing.{differing};
ghost use Rattle.grid_edits.specs.Edits.{clipped_height, lay_column};
ghost use Rattle.config.specs.Numbers.{refusal_in};
ghost use Rattle.chunk.specs.Tests.{chunk_refusal, cell_refusal, count_refusal};
ghost use Rattle.chunk.specs.Moves.{column_count};
ghost use Rattle.chunk.specs.Altered.{Tower, column_apart};

use config::Refusal;
use config::bounds::SIZE_MOST;

// Refusal 1 or 6 of a chunk's size and its number of cells.
#[tactic(auto, using(grid::specs::Grid::cube), unfolding(crate::specs::Tests::chunk_refusal, config::specs::Limits::size_ok, config::specs::Refusals::refusal))]
pub fn refuse_chunk(size: usize, n: usize) -> Result<(), Refusal>
    ensures { refusal_in result ≡ chunk_refusal size n }
{
    if size < 1 || SIZE_MOST < size {
        return Err(Refusal::Size);
    }
    if n != size * size * size {
        return Err(Refusal::Length);
    }
    Ok(())
}

// Refusal 1, 6 or 7 of a cell.
#[tactic(auto, using(crate::specs::Tests::first_stops), unfolding(crate::specs::Tests::cell_refusal, config::specs::Refusals::refusal))]
pub fn refuse_cell(size: usize, n: usize, x: usize, y: usize, z: usize) -> Result<(), Refusal>
    ensures { refusal_in result ≡ cell_refusal size n x y z }
{
    refuse_chunk(size, n)?;
    if !grid::is_inside(size, x, y, z) {
        return Err(Refusal::Outside);
    }
    Ok(())
}

// Refusal 21 of a count that an edit moves by after - before. A slice holds fewer than 2^62 groups of a batch, so the sum fits.
#[tactic(auto, using(crate::specs::Tests::counts))]
pub fn refuse_change(size: usize, count: u32, before: usize, after: usize) -> Result<(), Refusal>
    requires { (size ≤ 64) × (after ≤ 4611686018427387904) }
    ensures { refusal_in result ≡ count_refusal size count before after }
{
    let volume = size * size * size;
    let held = count as usize;
    if volume < held {
        return Err(Refusal::Record);
    }
    let total = held + after;
    if total < before || volume < total - before {
        return Err(Refusal::Record);
    }
    Ok(())
}

// The same for an edit whose numbers are narrow.
pub fn refuse_count(size: usize, count: u32, before: u32, after: u32) -> Result<(), Refusal>
    requires { (size ≤ 64) × (after ≤ 262144) }
    ensures { refusal_in result ≡ count_refusal size count before after }
{
    refuse_change(size, count, before as usize, after as usize)
}

// How high a column reaches: clipped to the size, and nothing outside.
#[tactic(auto, unfolding(grid_edits::specs::Edits::clipped_height))]
pub fn column_height(size: usize, x: usize, z: usize, height: usize) -> usize
    ensures { result ≡ clipped_height size x z height }
{
    if x < size && z < size {
        height.min(size)
    } else {
        0
    }
}

// How many of the lowest h cells of a column hold another id than this.
fn column_apart(cells: &[u16], size: usize, x: usize, z: usize, h: usize, id: u16) -> usize
    requires { Cube size cells.now }
    ensures { result ≡ column_apart size x z h id cells.now }
{
    (0..h)
        .filter(|y| grid::see(cells, size, x, *y, z) != id)
        .count()
}

// How many of the lowest h cells of a column are not air.
pub fn column_count(cells: &[u16], size: usize, x: usize, z: usize, h: usize) -> u32
    requires { Cube size cells.now × (h ≤ size) }
    ensures { result ≡ column_count size x z h cells.now }
{
    column_apart(cells, size, x, z, h, 0) as u32
}

// How many of the lowest h cells of a column hold another id than the one that is put there.
pub fn column_altered(cells: &[u16], size: usize, x: usize, z: usize, h: usize, id: u16) -> usize
    requires { Tower size x z h cells.now }
    ensures { result ≡ differing cells.now (lay_column size x z h id cells.now) }
{
    column_apart(cells, size, x, z, h, id)
}

// Puts id into the lowest h cells of a column.
pub fn lay_column(cells: &mut [u16], size: usize, x: usize, z: usize, h: usize, id: u16)
    requires { Cube size cells.old × (h ≤ size) }
    ensures { cells.new ≡ lay_column size x z h id cells.old }
{
    for y in 0..h {
        grid::put(cells, size, x, y, z, id);
    }
}
