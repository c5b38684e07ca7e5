// The ids that a chunk holds, each with its number of cells.
#![tactic(auto)]

ghost use Rattle.std.specs.Prelude.{◌≡◌, ◌+◌, ◌≤◌, ◌<◌, ◌&&◌, ltb, length};
ghost use Rattle.std.proofs.lemmas.List.Edits.{sets};
ghost use Rattle.chunk_tally.specs.Ids.{list_if, bump_at, TableRoom, id_table, window_ids, window_counts, present_ids, present_counts};
ghost use Rattle.chunk_tally.specs.Spans.{Wrote};
ghost use Rattle.chunk_tally.specs.Tally.{says_listed, tally_outcome, chunk_tally_does};

use config::Refusal;

// Ids are counted by windows of this many, so that the table stays small on the stack.
const WINDOW: usize = 8192;

const WINDOWS: usize = 8;

// Counts one cell, where its id lies in the table's window.
#[tactic(auto, unfolding(crate::specs::Ids::bump_at))]
fn bump(table: &mut [u32], base: usize, id: u16)
    requires { TableRoom table.old }
    ensures { table.new ≡ bump_at base id table.old }
{
    let i = id as usize;
    if base <= i && i - base < table.len() {
        table[i - base] += 1;
    }
}

// For each id of a window, how many cells have it.
fn count_window(cells: &[u16], base: usize, table: &mut [u32])
    requires { (length table.old ≡ 8192) × (length cells.now ≤ 262144) }
    ensures { table.new ≡ id_table base cells.now }
{
    table.fill(0);
    for id in cells {
        bump(table, base, *id);
    }
}

// Whether an id is listed: not air, nor an id that no cell has.
fn is_listed(v: usize, n: u32) -> bool
    ensures { result ≡ (ltb 0 v && ltb 0 n) }
{
    v != 0 && n != 0
}

// How many ids of a window are listed.
fn window_len(table: &[u32], base: usize) -> usize
    requires { (length table.now ≡ 8192) × (base ≤ 57344) }
    ensures { result ≡ length (window_ids base table.now) }
{
    let mut len = 0;
    for (k, n) in table.iter().enumerate() {
        len += usize::from(is_listed(base + k, *n));
    }
    len
}

// How many ids the cells have.
fn count_ids(cells: &[u16], table: &mut [u32]) -> usize
    requires { (length table.old ≡ 8192) × (length cells.now ≤ 262144) }
    ensures { (result ≡ length (present_ids cells.now)) × (length table.new ≡ 8192) }
{
    let mut n = 0;
    for w in 0..WINDOWS {
        count_window(cells, w * WINDOW, table);
        n += window_len(table, w * WINDOW);
    }
    n
}

// Writes an id that is listed, and its number of cells, and says where the next one goes.
fn note(ids: &mut [u16], counts: &mut [u32], at: usize, id: usize, n: u32) -> usize
    requires { (id < 65536) × (at + length (list_if id n id) ≤ length ids.old) × (at + length (list_if id n id) ≤ length counts.old) }
    ensures { Wrote at ids.old counts.old (list_if id n id) (list_if id n n) ids.new counts.new result }
{
    if id == 0 {
        return at;
    }
    if n == 0 {
        return at;
    }
    ids[at] = id as u16;
    counts[at] = n;
    at + 1
}

// Writes the ids of a window that are listed, from a place on, and says where the next one goes.
fn write_window(
    table: &[u32],
    base: usize,
    ids: &mut [u16],
    counts: &mut [u32],
    start: usize,
) -> usize
    requires { (length table.now ≡ 8192)
        × (base ≤ 57344)
        × (start + length (window_ids base table.now) ≤ length ids.old)
        × (start + length (window_ids base table.now) ≤ length counts.old) }
    ensures { Wrote start ids.old counts.old
        (window_ids base table.now) (window_counts base table.now)
        ids.new counts.new result }
{
    let mut at = start;
    for (k, n) in table.iter().enumerate() {
        at = note(ids, counts, at, base + k, *n);
    }
    at
}

// Writes the n ids that the cells have, upward, each with its number of cells. To count a window takes a walk over all
// cells, so none is counted once the last id is written: the windows that are left have no id to list.
fn list_ids(cells: &[u16], n: usize, ids: &mut [u16], counts: &mut [u32], table: &mut [u32])
    requires { (length table.old ≡ 8192)
        × (length cells.now ≤ 262144)
        × (n ≡ length (present_ids cells.now))
        × (length (present_ids cells.now) ≤ length ids.old)
        × (length (present_ids cells.now) ≤ length counts.old) }
    ensures { (ids.new ≡ sets ids.old 0 (present_ids cells.now))
        × (counts.new ≡ sets counts.old 0 (present_counts cells.now)) }
{
    let mut at = 0;
    for w in 0..WINDOWS {
        if at < n {
            count_window(cells, w * WINDOW, table);
            at = write_window(table, w * WINDOW, ids, counts, at);
        }
    }
}

// The tally, with a table to count in.
#[tactic(auto, using(crate::proofs::Does::tally_refused))]
fn tally_in(
    cells: &[u16],
    size: usize,
    ids: &mut [u16],
    counts: &mut [u32],
    table: &mut [u32],
) -> Result<usize, Refusal>
    requires { length table.old ≡ 8192 }
    ensures { tally_outcome (says_listed result) ids.new counts.new
        ≡ chunk_tally_does size cells.now ids.old counts.old }
{
    chunk::refuse_chunk(size, cells.len())?;
    let n = count_ids(cells, table);
    if ids.len() < n || counts.len() < n {
        return Err(Refusal::TallyLists);
    }
    list_ids(cells, n, ids, counts, table);
    Ok(n)
}

// Lists the ids that the cells have, but air, upward, each with its number of cells, and answers how many.
pub fn tally(
    cells: &[u16],
    size: usize,
    ids: &mut [u16],
    counts: &mut [u32],
) -> Result<usize, Refusal>
    ensures { tally_outcome (says_listed result) ids.new counts.new
        ≡ chunk_tally_does size cells.now ids.old counts.old }
{
    let mut table = [0u32; WINDOW];
    tally_in(cells, size, ids, counts, &mut table)
}
