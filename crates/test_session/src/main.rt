// Replays presses of a session on eight cells of water (5), most of all those that alter nothing (SCOPE 7.9). The journal holds at first what an
// older session wrote, in which such presses have lines. Each line of the input has seven numbers, a kind and a to f:
//   1  set: (a, b, c) to d
//   2  column: (a, b) up to c, with d
//   3  batch: (a, b, c) to d, a cell outside, (a, b, c) to e; f is left over
//   4  batch: (0, 0, 0) to 0, 17 times
//   5  undo
//   6  sets of (0, 0, 0) to 9 and 5 in turn, a of them, each made twice
//   7  reopening of the first a bytes
//   8  the first a bytes of the journal
// Each but 8 writes a line: number, line, written, previous, altered (of 6 and 7 the last three are 0); the record's count, used bytes and active edits;
// the cells. The expected output was worked out from SCOPE, without the library.
#![tactic(auto)]

use host_starts::reopen_start;
use session_calls::{Reply, Session};
use std::io;
use std::io::Print;
use test_vectors::{each_line, show_all, show_next};

// As long as the first line's 23 bytes, 258 sets of one cell and three undos: then it is full.
const JOURNAL: usize = 23 + 258 * 10 + 3 * 2;

fn index(n: u32) -> usize {
    n as usize
}

fn low(n: u32) -> u16 {
    (n % 65536) as u16
}

// What a call told, and the record and the cells after it.
fn show(rt: &impl Print, reply: Reply, session: &Session, cells: &[u16; 8]) -> io::Result<()> {
    let refusal = reply.refusal;
    print!(rt; "{refusal}")?;
    show_next(rt, reply.line)?;
    show_next(rt, reply.written)?;
    show_next(rt, reply.previous)?;
    show_next(rt, reply.altered)?;
    show_next(rt, session.count)?;
    show_next(rt, session.used)?;
    show_next(rt, session.active)?;
    show_all(rt, cells)?;
    println!(rt)
}

// The first n bytes of the journal, and a line's end.
fn show_text(rt: &impl Print, journal: &[u8], n: usize) -> io::Result<()> {
    if n <= journal.len() {
        rt.write_all(&journal[..n])?;
        println!(rt)?;
    }
    Ok(())
}

// An answer that tells nothing.
fn untold(refusal: u32, line: usize) -> Reply {
    Reply {
        refusal,
        line,
        written: 0,
        previous: 0,
        altered: 0,
    }
}

fn batch(
    session: &mut Session,
    cells: &mut [u16; 8],
    journal: &mut [u8; JOURNAL],
    list: &[u32; 7],
) -> Reply {
    let a = list[1];
    let b = list[2];
    let c = list[3];
    let edits = [a, b, c, list[4], 2, 0, 0, 1, a, b, c, list[5], list[6]];
    Reply::from(session_batch::set_blocks(session, cells, journal, &edits))
}

// Presses on (0, 0, 0), each made once more. Some are refused.
fn press_in_turn(
    session: &mut Session,
    cells: &mut [u16; 8],
    journal: &mut [u8; JOURNAL],
    n: usize,
) -> Reply {
    for i in 0..n {
        let id = if i % 2 == 0 { 9 } else { 5 };
        let _ = session_edit::set(session, cells, journal, 0, 0, 0, id);
        let _ = session_edit::set(session, cells, journal, 0, 0, 0, id);
    }
    untold(0, 0)
}

fn edit(
    kind: u32,
    session: &mut Session,
    cells: &mut [u16; 8],
    journal: &mut [u8; JOURNAL],
    list: &[u32; 7],
) -> Reply {
    if kind == 3 {
        return batch(session, cells, journal, list);
    }
    let a = index(list[1]);
    let b = index(list[2]);
    let c = index(list[3]);
    let id = low(list[4]);
    Reply::from(if kind == 1 {
        session_edit::set(session, cells, journal, a, b, c, id)
    } else {
        session_edit::fill_column(session, cells, journal, a, b, c, id)
    })
}

// Where it is refused the record is all zeros.
fn reopen(
    session: &mut Session,
    cells: &mut [u16; 8],
    journal: &[u8; JOURNAL],
    held: usize,
) -> Reply {
    let start = reopen_start(session_reopen::reopen(cells, journal, held));
    *session = start.session;
    untold(start.number, start.line)
}

fn other(
    kind: u32,
    session: &mut Session,
    cells: &mut [u16; 8],
    journal: &mut [u8; JOURNAL],
    a: usize,
) -> Reply {
    match kind {
        4 => Reply::from(session_batch::set_blocks(session, cells, journal, &[0; 68])),
        5 => Reply::from(session_undo::undo(session, cells, journal)),
        6 => press_in_turn(session, cells, journal, a),
        _ => reopen(session, cells, journal, a),
    }
}

// Makes the call that a line says, and shows what it told.
fn row(
    rt: &impl Print,
    session: &mut Session,
    cells: &mut [u16; 8],
    journal: &mut [u8; JOURNAL],
    list: &[u32; 7],
) -> io::Result<()> {
    let kind = list[0];
    let a = index(list[1]);
    if kind == 8 {
        return show_text(rt, journal, a);
    }
    let reply = if kind < 4 {
        edit(kind, session, cells, journal, list)
    } else {
        other(kind, session, cells, journal, a)
    };
    show(rt, reply, session, cells)
}

// An older journal: of its five edits only the second alters a cell. Its last line was cut off.
fn store(journal: &mut [u8]) {
    let text =
        b"G\t0\t4096\t256\t2\t0\t128\t0\nS\t0\t0\t0\t5\nS\t0\t0\t0\t0\nC\t0\t0\t1\t0\nC\t1\t1\t0\t7\nB\t2\t1\t1\t1\t8\t1\t1\t1\t5\nS\t1";
    if text.len() <= journal.len() {
        journal[..text.len()].copy_from_slice(text);
    }
}

// There is no record before the first reopening: its numbers are 0.
fn replay(rt: &impl Print, text: &[u8]) -> io::Result<()> {
    let mut cells = [0u16; 8];
    let mut journal = [0u8; JOURNAL];
    store(&mut journal);
    let mut session = reopen_start(session_reopen::reopen(&mut cells, &journal, 0)).session;
    each_line(
        text,
        |list| row(rt, &mut session, &mut cells, &mut journal, list),
    )
}

fn main(rt: HostRuntime) -> io::Result<()> {
    let mut text = [0u8; 4096];
    let n = test_vectors::read_text(&rt, &mut text)?;
    replay(&rt, &text[..n])
}
