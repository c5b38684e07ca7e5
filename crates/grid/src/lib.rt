// The cells of a chunk: a cube of size × size × size ids in a borrowed slice, x varying fastest.
#![tactic(auto)]

ghost use Rattle.std.specs.Prelude.{◌≡◌, ◌≤◌, ◌<◌};
ghost use Rattle.grid.specs.Cube.{Cube, cell_index, inside, put_at, see_at};
ghost use Rattle.grid.specs.Count.{non_air, non_air_count};
ghost use Rattle.grid.specs.Differing.{apart};

// Where cell (x, y, z) stands in the slice.
pub fn cell_index(size: usize, x: usize, y: usize, z: usize) -> usize
    requires { (size ≤ 64) × (x < size) × (y < size) × (z < size) }
    ensures { result ≡ cell_index size x y z }
{
    x + y * size + z * size * size
}

// Whether a cell lies in the chunk.
#[tactic(auto, unfolding(crate::specs::Cube::inside))]
pub fn is_inside(size: usize, x: usize, y: usize, z: usize) -> bool
    ensures { result ≡ inside size x y z }
{
    x < size && y < size && z < size
}

// Puts v at a cell of the chunk; outside it nothing changes.
pub fn put(cells: &mut [u16], size: usize, x: usize, y: usize, z: usize, v: u16)
    requires { Cube size cells.old }
    ensures { cells.new ≡ put_at size x y z v cells.old }
{
    if is_inside(size, x, y, z) {
        cells[cell_index(size, x, y, z)] = v;
    }
}

// The id at a cell, and air outside the chunk.
pub fn see(cells: &[u16], size: usize, x: usize, y: usize, z: usize) -> u16
    requires { Cube size cells.now }
    ensures { result ≡ see_at size x y z cells.now }
{
    if is_inside(size, x, y, z) {
        cells[cell_index(size, x, y, z)]
    } else {
        0
    }
}

// 1 for a block, 0 for air.
pub fn non_air(id: u16) -> u32
    ensures { result ≡ non_air id }
{
    u32::from(id != 0)
}

// 1 where two ids differ, else 0.
pub fn apart(a: u16, b: u16) -> usize
    ensures { result ≡ apart a b }
{
    usize::from(a != b)
}

// How many cells are not air.
pub fn count_non_air(cells: &[u16]) -> usize
    ensures { result ≡ non_air_count cells.now }
{
    // A chain with filter takes twice as long here.
    let mut n: usize = 0;
    for i in 0..cells.len() {
        if cells[i] != 0 {
            n += 1;
        }
    }
    n
}
