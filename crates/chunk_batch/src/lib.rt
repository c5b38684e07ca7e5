// The bare batch: groups of four numbers, any number of them, of which those in the chunk are laid on in their order.
#![tactic(auto)]

ghost use Rattle.std.specs.Prelude.{◌≡◌};
ghost use Rattle.config.specs.Answers.{cells_outcome};
ghost use Rattle.chunk_batch.specs.Replies.{says_written};
ghost use Rattle.chunk_batch.specs.Calls.{chunk_batch_does};

use config::Refusal;

// How many groups a batch has written, and the count of non-air cells after them.
#[derive(Clone, Copy)]
pub struct Batched {
    pub written: usize,
    pub count: u32,
}

// A batch of any length on bare cells, laid on whole or refused whole: its net change is known before a
// cell is written. Groups outside are skipped, one that repeats a cell's id is written like any other.
#[tactic(auto, using(chunk::specs::Moves::edit_refused), unfolding(crate::specs::Calls::chunk_batch_does))]
pub fn set_blocks(
    cells: &mut [u16],
    size: usize,
    count: u32,
    edits: &[u32],
) -> Result<Batched, Refusal>
    ensures { cells_outcome (says_written result) cells.new ≡ chunk_batch_does size count cells.old edits.now }
{
    chunk::refuse_chunk(size, cells.len())?;
    let change = chunk_trial::any_change(cells, size, edits);
    chunk::refuse_change(size, count, change.before, change.after)?;
    let n = journal_write::count_inside(size, edits);
    chunk_groups::lay_groups(cells, size, edits);
    let total = (count as usize + change.after - change.before) as u32;
    Ok(Batched {
        written: n,
        count: total,
    })
}
