// The cells of a chunk, borrowed: replacing all of them, setting one and filling a column. Arguments that
// a call does not take are refused with the cause's number (SCOPE 10.2, 10.3), and the cells are then as they were.
#![tactic(auto)]

ghost use Rattle.std.specs.Prelude.{◌≡◌, length};
ghost use Rattle.config.specs.Answers.{cells_outcome};
ghost use Rattle.config.specs.Numbers.{refusal_in};
ghost use Rattle.chunk.specs.Replies.{says_counted};
ghost use Rattle.chunk_edit.specs.Calls.{replace_refusal, chunk_replace_does, chunk_set_does, chunk_fill_does};

use config::Refusal;

// Refusal 1 or 6 of the cells and of the slice that replaces them.
#[tactic(auto, using(chunk::specs::Tests::behind), unfolding(crate::specs::Calls::replace_refusal, config::specs::Refusals::refusal))]
fn refuse_replace(size: usize, n: usize, m: usize) -> Result<(), Refusal>
    ensures { refusal_in result ≡ replace_refusal size n m }
{
    chunk::refuse_chunk(size, n)?;
    if m != n {
        return Err(Refusal::Length);
    }
    Ok(())
}

// Copies the blocks over the cells. Cell by cell: `copy_from_slice` between two lent slices would have the archive for C ask for memmove.
fn copy(cells: &mut [u16], blocks: &[u16])
    requires { length cells.old ≡ length blocks.now }
    ensures { cells.new ≡ blocks.now }
{
    for i in 0..blocks.len() {
        cells[i] = blocks[i];
    }
}

// Replaces all cells, and counts them anew.
#[tactic(auto, using(config::specs::Answers::is_refused_by), unfolding(crate::specs::Calls::chunk_replace_does))]
pub fn replace_blocks(cells: &mut [u16], size: usize, blocks: &[u16]) -> Result<u32, Refusal>
    ensures { cells_outcome (says_counted result) cells.new ≡ chunk_replace_does size cells.old blocks.now }
{
    refuse_replace(size, cells.len(), blocks.len())?;
    copy(cells, blocks);
    Ok(grid::count_non_air(blocks) as u32)
}

// Sets one cell.
#[tactic(auto, using(chunk::specs::Moves::edit_refused), unfolding(crate::specs::Calls::chunk_set_does))]
pub fn set(
    cells: &mut [u16],
    size: usize,
    count: u32,
    x: usize,
    y: usize,
    z: usize,
    id: u16,
) -> Result<u32, Refusal>
    ensures { cells_outcome (says_counted result) cells.new ≡ chunk_set_does size count cells.old x y z id }
{
    chunk::refuse_cell(size, cells.len(), x, y, z)?;
    let i = grid::cell_index(size, x, y, z);
    let before = grid::non_air(cells[i]);
    let after = grid::non_air(id);
    chunk::refuse_count(size, count, before, after)?;
    cells[i] = id;
    Ok(count + after - before)
}

// Fills a column from the bottom.
#[tactic(auto, using(chunk::specs::Moves::edit_refused), unfolding(crate::specs::Calls::chunk_fill_does))]
pub fn fill_column(
    cells: &mut [u16],
    size: usize,
    count: u32,
    x: usize,
    z: usize,
    height: usize,
    id: u16,
) -> Result<u32, Refusal>
    ensures { cells_outcome (says_counted result) cells.new ≡ chunk_fill_does size count cells.old x z height id }
{
    chunk::refuse_chunk(size, cells.len())?;
    let h = chunk::column_height(size, x, z, height);
    let before = chunk::column_count(cells, size, x, z, h);
    let after = h as u32 * grid::non_air(id);
    chunk::refuse_count(size, count, before, after)?;
    chunk::lay_column(cells, size, x, z, h, id);
    Ok(count + after - before)
}
