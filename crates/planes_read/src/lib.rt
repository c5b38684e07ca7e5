// Restores a chunk's cells from two planes of bytes, a block of 64 positions at a time.
#![tactic(auto)]

ghost use Rattle.std.specs.Prelude.{◌≡◌, ℕ, ◌+◌, ◌*◌, ◌++◌, length, drop};
ghost use Rattle.config.specs.Answers.{cells_outcome};
ghost use Rattle.grid.specs.Cube.{tab, steps};
ghost use Rattle.planes.specs.Planes.{bits_of, cells_of, says_copied, from_planes_does};
ghost use Rattle.planes.specs.Sizes.{Fit};
ghost use Rattle.planes_blocks.specs.Blocks.{Blocks, Within, Span, BlockBytes};
ghost use Rattle.planes_read.specs.Reading.{id_at, put_into, put_back};

use config::Refusal;
use planes_blocks::BLOCK;

// The id that two bytes make.
fn id_of(low: u8, high: u8) -> u16
    ensures { result ≡ low + 256 * high }
{
    u16::from(low) + 256 * u16::from(high)
}

// Joins the bytes of w positions from m on: the low ones are there, the high ones n further on.
fn join_bytes(bytes: &[u8], n: usize, m: usize, w: usize, block: &mut [u16])
    requires { BlockBytes (length block.old) w n m (length bytes.now) }
    ensures { block.new ≡ tab w (λ (j : ℕ). id_at n bytes.now (m + j)) ++ drop w block.old }
{
    for j in 0..w {
        let k = m + j;
        block[j] = id_of(bytes[k], bytes[n + k]);
    }
}

// Puts w ids of a block into its cells, two that lie side by side at a time.
fn put_cells(block: &[u16], table: &[usize], first: usize, w: usize, cells: &mut [u16])
    requires { Span table.now (length cells.old) first w × (length block.now ≡ 64) }
    ensures { cells.new ≡ steps w (put_into block.now table.now first) cells.old }
{
    for p in 0..w / 2 {
        let j = 2 * p;
        let i = first + table[j];
        cells[i] = block[j];
        cells[i + 1] = block[j + 1];
    }
    if w % 2 == 1 {
        let j = w - 1;
        let i = first + table[j];
        cells[i] = block[j];
    }
}

// Restores the cells of w positions from m on.
fn read_block(bytes: &[u8], table: &[usize], m: usize, w: usize, cells: &mut [u16])
    requires { Blocks table.now (length cells.old) × Within (length cells.old) m w × (length bytes.now ≡ 2 * length cells.old) }
    ensures { cells.new
        ≡ steps w (λ (j : ℕ). put_back table.now (length cells.old) bytes.now (m + j)) cells.old }
{
    let first = planes_blocks::first_of(table, m);
    let mut block = [0u16; 64];
    join_bytes(bytes, cells.len(), m, w, &mut block);
    put_cells(&block, table, first, w, cells);
}

// Restores the cells of all positions.
fn read_blocks(bytes: &[u8], table: &[usize], cells: &mut [u16])
    requires { Blocks table.now (length cells.old) × (length bytes.now ≡ 2 * length cells.old) }
    ensures { cells.new
        ≡ steps (length cells.old)
        (put_back table.now (length cells.old) bytes.now)
        cells.old }
{
    let n = cells.len();
    if n < BLOCK {
        read_block(bytes, table, 0, n, cells);
        return;
    }
    for k in 0..n / BLOCK {
        read_block(bytes, table, k * BLOCK, BLOCK, cells);
    }
}

fn read_planes(bytes: &[u8], size: usize, cells: &mut [u16])
    requires { Fit size (length cells.old) (length bytes.now) }
    ensures { cells.new ≡ cells_of (bits_of size) bytes.now }
{
    let mut table = [0usize; 64];
    planes_blocks::note_block(size, &mut table);
    read_blocks(bytes, &table, cells);
}

// Restores the cells from their planes: all low bytes in Morton order, then all high bytes.
#[tactic(auto, using(planes::proofs::Sizes::planes_passed, config::specs::Answers::is_refused_by), unfolding(planes::specs::Planes::from_planes_does))]
pub fn from_planes(bytes: &[u8], size: usize, cells: &mut [u16]) -> Result<(), Refusal>
    ensures { cells_outcome (says_copied result) cells.new ≡ from_planes_does size bytes.now cells.old }
{
    planes::refuse_planes(size, cells.len(), bytes.len())?;
    read_planes(bytes, size, cells);
    Ok(())
}
