// Slabs of a chunk, each the cells of one z: which are meant, one filled, and one kept aside and compared with what stands there later.
#![tactic(auto)]

ghost use Rattle.std.specs.Prelude.{◌≡◌, ◌+◌, ◌*◌, ◌≤◌, ◌<◌, length, take, drop};
ghost use Rattle.grid.specs.Cube.{Cube, all_of};
ghost use Rattle.grid.specs.Count.{non_air_count};
ghost use Rattle.grid_slabs.specs.Clip.{Clip};
ghost use Rattle.grid.specs.Differing.{differing};
ghost use Rattle.grid_slabs.specs.Rows.{in_rows};

// How many cells of a run hold another id than before, and how many are not air.
#[derive(Drop)]
pub struct SlabChange {
    pub altered: usize,
    pub count: usize,
}

// Whether a slab is one of those from lo on below hi.
pub fn in_rows(lo: usize, hi: usize, z: usize) -> bool
    ensures { result ≡ in_rows lo hi z }
{
    (lo <= z) & (z < hi)
}

// Keeps the n cells from start on. Cell by cell: `copy_from_slice` between two lent slices asks for memmove.
pub fn copy_slab(cells: &[u16], start: usize, n: usize, old: &mut [u16])
    requires { (start + n ≤ length cells.now) × (n ≤ length old.old) }
    ensures { take n old.new ≡ take n (drop start cells.now) }
{
    for i in 0..n {
        old[i] = cells[start + i];
    }
}

// One block in every cell of slab z; all else stays.
pub fn fill_slab(cells: &mut [u16], size: usize, z: usize, id: u16)
    requires { (z < size) × Cube size cells.old }
    ensures { Clip size z (z + 1) cells.old cells.new (all_of (size * size * size) id) }
{
    let square = size * size;
    let start = z * square;
    cells[start..start + square].fill(id);
}

// Compares the n cells from start on with those kept.
pub fn compare_slab(old: &[u16], cells: &[u16], start: usize, n: usize) -> SlabChange
    requires { (start + n ≤ length cells.now) × (n ≤ length old.now) }
    ensures { (result.altered ≡ differing (take n old.now) (take n (drop start cells.now)))
        × (result.count ≡ non_air_count (take n (drop start cells.now))) }
{
    let mut altered: usize = 0;
    let mut count: usize = 0;
    for (kept, cell) in old[..n].iter().zip(&cells[start..start + n]) {
        altered += grid::apart(*kept, *cell);
        count += grid::non_air(*cell) as usize;
    }
    SlabChange { altered, count }
}
