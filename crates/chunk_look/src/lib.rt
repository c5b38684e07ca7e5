// The cells of a chunk, borrowed: reading a cell and asking about all of them. Arguments that a call does
// not take are refused with the cause's number (SCOPE 10.2).
#![tactic(auto)]

ghost use Rattle.std.specs.Prelude.{◌≡◌};
ghost use Rattle.chunk.specs.Replies.{says_id, says_flag};
ghost use Rattle.chunk_look.specs.Calls.{chunk_get_does, chunk_is_air_does, chunk_is_empty_does, chunk_is_solid_does};

use config::Refusal;

// The id of a cell.
#[tactic(auto, using(config::specs::Answers::is_refused_by), unfolding(crate::specs::Calls::chunk_get_does))]
pub fn get(cells: &[u16], size: usize, x: usize, y: usize, z: usize) -> Result<u16, Refusal>
    ensures { says_id result ≡ chunk_get_does size cells.now x y z }
{
    chunk::refuse_cell(size, cells.len(), x, y, z)?;
    Ok(cells[grid::cell_index(size, x, y, z)])
}

// Whether a cell is air.
#[tactic(auto, using(crate::specs::Calls::air_where, crate::specs::Calls::no_air_where))]
pub fn is_air(cells: &[u16], size: usize, x: usize, y: usize, z: usize) -> Result<bool, Refusal>
    ensures { says_flag result ≡ chunk_is_air_does size cells.now x y z }
{
    let id = get(cells, size, x, y, z)?;
    Ok(id == 0)
}

// Whether every cell is air.
#[tactic(auto, using(config::specs::Answers::is_refused_by), unfolding(crate::specs::Calls::chunk_is_empty_does))]
pub fn is_empty(cells: &[u16], size: usize) -> Result<bool, Refusal>
    ensures { says_flag result ≡ chunk_is_empty_does size cells.now }
{
    chunk::refuse_chunk(size, cells.len())?;
    Ok(grid::count_non_air(cells) == 0)
}

// Whether no cell is air.
#[tactic(auto, using(config::specs::Answers::is_refused_by), unfolding(crate::specs::Calls::chunk_is_solid_does))]
pub fn is_solid(cells: &[u16], size: usize) -> Result<bool, Refusal>
    ensures { says_flag result ≡ chunk_is_solid_does size cells.now }
{
    chunk::refuse_chunk(size, cells.len())?;
    Ok(grid::count_non_air(cells) == cells.len())
}
