// Morton positions by blocks of 64, cubes of 4 by 4 by 4 cells: a table of one block's cells gives the cell at any position.
#![tactic(auto)]

ghost use Rattle.std.specs.Prelude.{◌≡◌, ◌≤◌, ◌<◌, length};
ghost use Rattle.grid.specs.Cube.{tab};
ghost use Rattle.planes_blocks.specs.Blocks.{block_cell, first_by, Table};

// The positions of a block.
pub const BLOCK: usize = 64;

// The cell that six bits of a position give: two bits of each coordinate.
fn block_cell(size: usize, j: usize) -> usize
    requires { size ≤ 64 }
    ensures { result ≡ block_cell size j }
{
    let x = j % 2 + 2 * (j / 8 % 2);
    let y = j / 2 % 2 + 2 * (j / 16 % 2);
    let z = j / 4 % 2 + 2 * (j / 32 % 2);
    x + y * size + z * size * size
}

// Notes the cells of the first block.
pub fn note_block(size: usize, table: &mut [usize])
    requires { (size ≤ 64) × (length table.old ≡ 64) }
    ensures { table.new ≡ tab 64 (block_cell size) }
{
    for (j, cell) in table.iter_mut().enumerate() {
        *cell = block_cell(size, j);
    }
}

// The first cell of the block that position m is in.
#[tactic(auto, unfolding(crate::specs::Blocks::first_by))]
pub fn first_of(table: &[usize], m: usize) -> usize
    requires { Table table.now × (m < 262144) }
    ensures { result ≡ first_by table.now m }
{
    let a = table[m / 64 % 64];
    let b = table[m / 4096];
    4 * a + 16 * b
}
