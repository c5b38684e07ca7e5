// Replays calls on cells at and around their limits. Each line of the input has seven numbers: the
// call (its kind times 65,536, plus an id), a size, how many cells are lent, a count, and three
// arguments. The cells hold 0, 1, 2, 3, 4 in turn; the first one of a tally holds the id. The program
// writes a line for each: the number of the refusal or 0, the answer, and a checksum of what was lent
// to be written, or of a tally every place of both lists. The expected output was made by the Rust
// original, or from SCOPE 5 where the original takes no such call.
#![tactic(auto)]

ghost use Rattle.std.specs.Prelude.{◌≤◌, ◌≡◌, length};

use chunk_batch::Batched;
use chunk_border::Face;
use config::Refusal;
use std::io;
use std::io::Print;
use test_vectors::{checksum, room, show_all, show_next};

// The numbers of a line, behind the call's kind.
#[derive(Drop)]
struct Asked {
    id: u16,
    size: usize,
    count: u32,
    face: Face,
    a: usize,
    b: usize,
    c: usize,
}

fn small(n: usize) -> u16
    requires { n ≤ 65535 }
{
    n as u16
}

// Fills cells with 0, 1, 2, 3, 4 in turn.
fn fill(cells: &mut [u16]) {
    for (i, cell) in cells.iter_mut().enumerate() {
        *cell = small(i % 5);
    }
}

// The number of a refusal, or 0, and the value, or 0.
fn numbers<T: Into<u64>>(answer: Result<T, Refusal>) -> (u32, u64) {
    match answer {
        Ok(value) => (0, value.into()),
        Err(refusal) => (refusal.number(), 0),
    }
}

// One line of the output.
fn said<T: Into<u64>>(rt: &impl Print, answer: Result<T, Refusal>, lent: &[u16]) -> io::Result<()> {
    let (number, value) = numbers(answer);
    let sum = checksum(lent);
    println!(rt; "{number} {value} {sum}")
}

fn questions(rt: &impl Print, kind: u32, q: Asked, cells: &[u16]) -> io::Result<()> {
    match kind {
        1 => said(rt, chunk_look::get(cells, q.size, q.a, q.b, q.c), cells),
        2 => said(rt, chunk_look::is_air(cells, q.size, q.a, q.b, q.c), cells),
        3 => said(rt, chunk_look::is_empty(cells, q.size), cells),
        _ => said(rt, chunk_look::is_solid(cells, q.size), cells),
    }
}

// Replaces the cells by the first a of zeros.
fn replaced(rt: &impl Print, q: Asked, cells: &mut [u16]) -> io::Result<()> {
    let blocks = room();
    let n = q.a;
    if n <= 262144 {
        let answer = chunk_edit::replace_blocks(cells, q.size, &blocks[..n]);
        return said(rt, answer, cells);
    }
    Ok(())
}

fn set(rt: &impl Print, q: Asked, cells: &mut [u16]) -> io::Result<()> {
    let answer = chunk_edit::set(cells, q.size, q.count, q.a, q.b, q.c, q.id);
    said(rt, answer, cells)
}

fn column(rt: &impl Print, q: Asked, cells: &mut [u16]) -> io::Result<()> {
    let answer = chunk_edit::fill_column(cells, q.size, q.count, q.a, q.b, q.c, q.id);
    said(rt, answer, cells)
}

fn extract(rt: &impl Print, q: Asked, cells: &[u16], border: &mut [u16]) -> io::Result<()> {
    let answer = chunk_border::extract_border(cells, q.size, q.face, border);
    said(rt, answer.map(|_| 0u32), border)
}

// The border of face a, into b places.
fn bordered(rt: &impl Print, q: Asked, cells: &[u16]) -> io::Result<()> {
    let mut border = room();
    let n = q.b;
    if n <= 262144 {
        return extract(rt, q, cells, &mut border[..n]);
    }
    Ok(())
}

// The line of a tally: the refusal or 0, how many ids, and every place of both lists.
fn listed(
    rt: &impl Print,
    q: Asked,
    cells: &[u16],
    ids: &mut [u16],
    counts: &mut [u32],
) -> io::Result<()> {
    let answer = chunk_tally::tally(cells, q.size, ids, counts);
    let (number, n) = numbers(answer.map(|n| n as u64));
    print!(rt; "{number}")?;
    show_next(rt, n)?;
    show_all(rt, ids)?;
    show_all(rt, counts)?;
    println!(rt)
}

// The tally into lists of a and b places, each of which holds 9.
fn tallied(rt: &impl Print, q: Asked, cells: &[u16]) -> io::Result<()> {
    let mut ids = [9u16; 16];
    let mut counts = [9u32; 16];
    let n = q.a;
    let m = q.b;
    if n <= 16 && m <= 16 {
        return listed(rt, q, cells, &mut ids[..n], &mut counts[..m]);
    }
    Ok(())
}

// The tally of cells the first of which holds the id, so that they need not hold their ids upward.
fn tallied_with(rt: &impl Print, q: Asked, cells: &mut [u16]) -> io::Result<()> {
    if let [first, ..] = cells {
        *first = q.id;
    }
    tallied(rt, q, cells)
}

// A batch of two groups, at (a, b, c) and (c, b, a), and two numbers left over. The call's number
// stands for the id, so that an id is above 65,535. It says the number of groups written, too.
fn batch(rt: &impl Print, list: &[u32; 7], cells: &mut [u16]) -> io::Result<()> {
    let [k, size, _, count, a, b, c] = *list;
    let edits = [a, b, c, k, c, b, a, k, a, b];
    match chunk_batch::set_blocks(cells, size as usize, count, &edits) {
        Ok(Batched { written, count }) => {
            let sum = checksum(cells);
            println!(rt; "0 {written} {count} {sum}")
        }
        Err(refusal) => said::<u32>(rt, Err(refusal), cells),
    }
}

// Makes the call of one line, on as many cells as it says.
fn row(rt: &impl Print, list: &[u32; 7]) -> io::Result<()> {
    let mut cells = room();
    let n = list[2] as usize;
    if n > 262144 {
        return Ok(());
    }
    let cells = &mut cells[..n];
    fill(cells);
    let q = Asked {
        id: (list[0] % 65536) as u16,
        size: list[1] as usize,
        count: list[3],
        face: Face::try_from(list[4]).unwrap_or(Face::NegZ),
        a: list[4] as usize,
        b: list[5] as usize,
        c: list[6] as usize,
    };
    match list[0] / 65536 {
        5 => replaced(rt, q, cells),
        6 => set(rt, q, cells),
        7 => column(rt, q, cells),
        8 => batch(rt, list, cells),
        9 => bordered(rt, q, cells),
        kind if kind < 5 => questions(rt, kind, q, cells),
        _ => tallied_with(rt, q, cells),
    }
}

fn main(rt: HostRuntime) -> io::Result<()> {
    let mut text = test_vectors::text_room();
    let n = test_vectors::read_text(&rt, &mut text)?;
    test_vectors::each_line(&text[..n], |list| row(&rt, list))
}
