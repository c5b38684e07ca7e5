// The groups of a batch: what they change, found before a cell is written, and laid on in their order.
#![tactic(auto)]

ghost use Rattle.std.specs.Prelude.{◌≡◌, ◌+◌, ◌*◌, ◌/◌, ◌%◌, ◌≤◌, length};
ghost use Rattle.grid.specs.Cube.{Cube, see_at};
ghost use Rattle.grid.specs.Differing.{differing};
ghost use Rattle.chunk.specs.Tests.{Inside};
ghost use Rattle.grid_edits.specs.Edits.{group, group_inside, inside_groups, batch_groups, batch_cells};
ghost use Rattle.journal_write.specs.Groups.{group_of};
ghost use Rattle.chunk_groups.specs.Laid.{laid, id_over};
ghost use Rattle.chunk_groups.specs.Net.{Net};

use config::bounds::IDS;

// One group of a batch.
#[derive(Clone, Copy)]
pub struct BlockEdit {
    pub x: usize,
    pub y: usize,
    pub z: usize,
    pub id: u16,
}

// How many cells were not air before an edit and after it, as far as its own cells go.
#[derive(Clone, Copy)]
pub struct Change {
    pub before: usize,
    pub after: usize,
}

// An id is taken modulo 65,536.
fn id_of(n: u32) -> u16
    ensures { result ≡ n % 65536 }
{
    (n % IDS) as u16
}

// Group k of a batch.
#[tactic(auto, unfolding(journal_write::specs::Groups::group_of))]
pub fn group_at(edits: &[u32], k: usize) -> BlockEdit
    requires { 4 * k + 4 ≤ length edits.now }
    ensures { group result.x result.y result.z result.id ≡ group_of edits.now (4 * k) }
{
    let i = 4 * k;
    BlockEdit {
        x: edits[i] as usize,
        y: edits[i + 1] as usize,
        z: edits[i + 2] as usize,
        id: id_of(edits[i + 3]),
    }
}

// Whether a group lies in the chunk.
pub fn is_inside(size: usize, g: BlockEdit) -> bool
    ensures { result ≡ group_inside size (group g.x g.y g.z g.id) }
{
    g.x < size && g.y < size && g.z < size
}

// The id that a cell holds once a group is laid on, where it held v.
#[tactic(auto, unfolding(crate::specs::Laid::id_over))]
fn id_over(g: BlockEdit, x: usize, y: usize, z: usize, v: u16) -> u16
    ensures { result ≡ id_over (group g.x g.y g.z g.id) x y z v }
{
    if g.x == x && g.y == y && g.z == z {
        g.id
    } else {
        v
    }
}

// The id that a cell would hold with the first k groups laid on, found without laying them: the latest of them on the cell says it.
fn id_after(
    cells: &[u16],
    size: usize,
    edits: &[u32],
    k: usize,
    x: usize,
    y: usize,
    z: usize,
) -> u16
    requires { Cube size cells.now × Inside size x y z × (4 * k ≤ length edits.now) }
    ensures { result ≡ see_at size x y z (laid size edits.now k cells.now) }
{
    let mut v = grid::see(cells, size, x, y, z);
    for j in 0..k {
        v = id_over(group_at(edits, j), x, y, z, v);
    }
    v
}

// The change that group k makes once those before it are laid on.
fn group_change(cells: &[u16], size: usize, edits: &[u32], k: usize) -> Change
    requires { Cube size cells.now × (4 * k + 4 ≤ length edits.now) }
    ensures { Net (laid size edits.now k cells.now) (laid size edits.now (k + 1) cells.now) 1 result }
{
    let g = group_at(edits, k);
    if !is_inside(size, g) {
        return Change {
            before: 0,
            after: 0,
        };
    }
    let old = id_after(cells, size, edits, k, g.x, g.y, g.z);
    Change {
        before: grid::non_air(old) as usize,
        after: grid::non_air(g.id) as usize,
    }
}

// The change that the whole batch makes, found before a cell is written.
pub fn batch_change(cells: &[u16], size: usize, edits: &[u32]) -> Change
    requires { Cube size cells.now }
    ensures { Net cells.now
        (batch_cells size (inside_groups size (batch_groups edits.now)) cells.now) (length edits.now / 4) result }
{
    let groups = edits.len() / 4;
    let mut before: usize = 0;
    let mut after: usize = 0;
    for k in 0..groups {
        let c = group_change(cells, size, edits, k);
        before += c.before;
        after += c.after;
    }
    Change { before, after }
}

// How many cells hold another id with the first k + 1 groups laid on than in `cells`, where it is `altered` with the first k.
fn group_altered(cells: &[u16], size: usize, edits: &[u32], k: usize, altered: usize) -> usize
    requires { Cube size cells.now × (4 * k + 4 ≤ length edits.now) × (altered ≡ differing cells.now (laid size edits.now k cells.now)) }
    ensures { result ≡ differing cells.now (laid size edits.now (k + 1) cells.now) }
{
    let g = group_at(edits, k);
    if !is_inside(size, g) {
        return altered;
    }
    let held = grid::see(cells, size, g.x, g.y, g.z);
    let latest = id_after(cells, size, edits, k, g.x, g.y, g.z);
    altered + grid::apart(held, g.id) - grid::apart(held, latest)
}

// How many cells hold another id after the whole batch, found before a cell is written: a cell set and set back counts for nothing.
pub fn batch_altered(cells: &[u16], size: usize, edits: &[u32]) -> usize
    requires { Cube size cells.now }
    ensures { result ≡ differing cells.now
        (batch_cells size (inside_groups size (batch_groups edits.now)) cells.now) }
{
    let mut altered: usize = 0;
    for k in 0..edits.len() / 4 {
        altered = group_altered(cells, size, edits, k, altered);
    }
    altered
}

// Lays the groups on in their order; those outside change nothing.
pub fn lay_groups(cells: &mut [u16], size: usize, edits: &[u32])
    requires { Cube size cells.old }
    ensures { cells.new ≡ batch_cells size (inside_groups size (batch_groups edits.now)) cells.old }
{
    for k in 0..edits.len() / 4 {
        let g = group_at(edits, k);
        grid::put(cells, size, g.x, g.y, g.z, g.id);
    }
}
