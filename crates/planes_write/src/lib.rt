// Copies a chunk's cells out as two planes of bytes, a block of 64 positions at a time.
#![tactic(auto)]

ghost use Rattle.std.specs.Prelude.{◌≡◌, ℕ, ◌+◌, ◌*◌, ◌++◌, length, drop};
ghost use Rattle.grid.specs.Cube.{tab, steps};
ghost use Rattle.planes.specs.Planes.{bits_of, planes_of, says_copied, planes_outcome, to_planes_does};
ghost use Rattle.planes.specs.Sizes.{Fit};
ghost use Rattle.planes_blocks.specs.Blocks.{Blocks, Within, Span, BlockBytes};
ghost use Rattle.planes_write.specs.Writing.{taken_from, put_bytes, put_cell};

use config::Refusal;
use planes_blocks::BLOCK;

// Takes w cells of a block out, in the order of their positions, two that lie side by side at a time.
fn take_cells(cells: &[u16], table: &[usize], first: usize, w: usize, block: &mut [u16])
    requires { Span table.now (length cells.now) first w × (length block.old ≡ 64) }
    ensures { block.new ≡ tab w (taken_from cells.now table.now first) ++ drop w block.old }
{
    for p in 0..w / 2 {
        let j = 2 * p;
        let i = first + table[j];
        let a = cells[i];
        let b = cells[i + 1];
        block[j] = a;
        block[j + 1] = b;
    }
    if w % 2 == 1 {
        let j = w - 1;
        let i = first + table[j];
        block[j] = cells[i];
    }
}

// Writes the two bytes of w ids, at m and the places behind it: the low ones there, the high ones n further on.
fn put_bytes(block: &[u16], w: usize, n: usize, m: usize, bytes: &mut [u8])
    requires { BlockBytes (length block.now) w n m (length bytes.old) }
    ensures { bytes.new ≡ steps w (put_bytes block.now n m) bytes.old }
{
    for j in 0..w {
        let id = block[j];
        let k = m + j;
        bytes[k] = (id % 256) as u8;
        bytes[n + k] = (id / 256) as u8;
    }
}

// Writes the bytes of w positions from m on.
fn write_block(cells: &[u16], table: &[usize], m: usize, w: usize, bytes: &mut [u8])
    requires { Blocks table.now (length cells.now) × Within (length cells.now) m w × (length bytes.old ≡ 2 * length cells.now) }
    ensures { bytes.new ≡ steps w (λ (j : ℕ). put_cell table.now cells.now (m + j)) bytes.old }
{
    let first = planes_blocks::first_of(table, m);
    let mut block = [0u16; 64];
    take_cells(cells, table, first, w, &mut block);
    put_bytes(&block, w, cells.len(), m, bytes);
}

// Writes the bytes of all positions. `planes_read` goes the same way back: what both share is this one `for`, shorter than a closure that writes.
fn write_blocks(cells: &[u16], table: &[usize], bytes: &mut [u8])
    requires { Blocks table.now (length cells.now) × (length bytes.old ≡ 2 * length cells.now) }
    ensures { bytes.new ≡ steps (length cells.now) (put_cell table.now cells.now) bytes.old }
{
    let n = cells.len();
    if n < BLOCK {
        write_block(cells, table, 0, n, bytes);
        return;
    }
    for k in 0..n / BLOCK {
        write_block(cells, table, k * BLOCK, BLOCK, bytes);
    }
}

fn write_planes(cells: &[u16], size: usize, bytes: &mut [u8])
    requires { Fit size (length cells.now) (length bytes.old) }
    ensures { bytes.new ≡ planes_of (bits_of size) cells.now }
{
    let mut table = [0usize; 64];
    planes_blocks::note_block(size, &mut table);
    write_blocks(cells, &table, bytes);
}

// Copies the cells out: all low bytes in Morton order, then all high bytes.
#[tactic(auto, using(planes::proofs::Sizes::planes_passed, config::specs::Answers::is_refused_by), unfolding(planes::specs::Planes::to_planes_does))]
pub fn to_planes(cells: &[u16], size: usize, bytes: &mut [u8]) -> Result<(), Refusal>
    ensures { planes_outcome (says_copied result) bytes.new ≡ to_planes_does size cells.now bytes.old }
{
    planes::refuse_planes(size, cells.len(), bytes.len())?;
    write_planes(cells, size, bytes);
    Ok(())
}
