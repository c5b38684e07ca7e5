// Checkpoints and restores on eight cells of water (5): a list of calls in one map, until its journal is full, and the next tablet. Among them is
// every refusal that the two calls can get. A call is a word, a kind and what it takes:
//   S:xyzi  set: (x, y, z) to i, each a digit
//   U:      undo
//   M:name  checkpoint
//   R:name  restore
//   F:name  restore, lent seven cells
//   A:i     no call: the record has i active edits from here on
//   C:i     no call: the record has a count of i from here on
// Each call, a fresh session and reopening write a line: number, altered (0 for the last two); the record's count, used bytes and active edits;
// the cells. The journal's text stands at the end. The expected output was worked out from SCOPE, without the library.
#![tactic(auto)]

use config::{ChunkPos, Refusal, TerrainConfig};
use host_starts::{fresh_start, reopen_start};
use session_calls::{Reply, Session, Told};
use std::io;
use std::io::Print;
use test_vectors::{show_all, show_next};

// As long as the lines of all accepted calls.
const JOURNAL: usize = 248;

// What a call told, and the record and the cells after it.
fn show(
    rt: &impl Print,
    number: u32,
    altered: usize,
    session: &Session,
    cells: &[u16; 8],
) -> io::Result<()> {
    print!(rt; "{number}")?;
    show_next(rt, altered)?;
    show_next(rt, session.count)?;
    show_next(rt, session.used)?;
    show_next(rt, session.active)?;
    show_all(rt, cells)?;
    println!(rt)
}

// The digit at a place, or 0.
fn digit(text: &[u8], i: usize) -> u32 {
    text.get(i).map_or(0, |b| u32::from(*b) & 15)
}

fn index(n: u32) -> usize {
    n as usize
}

fn low(n: u32) -> u16 {
    (n % 65536) as u16
}

fn put(
    session: &mut Session,
    cells: &mut [u16; 8],
    journal: &mut [u8; JOURNAL],
    text: &[u8],
) -> Result<Told, Refusal> {
    let x = index(digit(text, 0));
    let y = index(digit(text, 1));
    let z = index(digit(text, 2));
    session_edit::set(session, cells, journal, x, y, z, low(digit(text, 3)))
}

fn few(session: &mut Session, journal: &mut [u8; JOURNAL], name: &[u8]) -> Result<Told, Refusal> {
    let mut cells = [5u16; 7];
    session_restore::restore(session, &mut cells, journal, name)
}

fn make(
    kind: u8,
    session: &mut Session,
    cells: &mut [u16; 8],
    journal: &mut [u8; JOURNAL],
    text: &[u8],
) -> Result<Told, Refusal> {
    match kind {
        b'S' => put(session, cells, journal, text),
        b'U' => session_undo::undo(session, cells, journal),
        b'M' => session_checkpoint::checkpoint(session, journal, text),
        b'R' => session_restore::restore(session, cells, journal, text),
        _ => few(session, journal, text),
    }
}

// Makes the call that a word says, and shows what it told.
fn call(
    rt: &impl Print,
    kind: u8,
    session: &mut Session,
    cells: &mut [u16; 8],
    journal: &mut [u8; JOURNAL],
    text: &[u8],
) -> io::Result<()> {
    if kind == b'A' {
        session.active = index(digit(text, 0));
        return Ok(());
    }
    if kind == b'C' {
        session.count = digit(text, 0);
        return Ok(());
    }
    let reply = Reply::from(make(kind, session, cells, journal, text));
    show(rt, reply.refusal, reply.altered, session, cells)
}

// The words of a text, one after the other.
fn run(
    rt: &impl Print,
    text: &[u8],
    session: &mut Session,
    cells: &mut [u16; 8],
    journal: &mut [u8; JOURNAL],
) -> io::Result<()> {
    for word in text.split(|b| *b == b' ') {
        if let [kind, _, name @ ..] = word {
            call(rt, *kind, session, cells, journal, name)?;
        }
    }
    Ok(())
}

fn begin(
    rt: &impl Print,
    cells: &mut [u16; 8],
    journal: &mut [u8; JOURNAL],
) -> io::Result<Session> {
    let config = TerrainConfig {
        seed: 0,
        sea_level: 4096,
        world_height_blocks: 256,
        chunk_size: 2,
    };
    let pos = ChunkPos {
        cx: 0,
        cy: 128,
        cz: 0,
    };
    let start = fresh_start(session_fresh::fresh(config, pos, cells, journal));
    show(rt, start.number, 0, &start.session, cells)?;
    Ok(start.session)
}

// The calls in the first map.
const CALLS: [&str; 6] = [
    // The second restore alters nothing; the undo takes back the last edit that came back with it.
    "M:g0 S:0001 S:1001 M:walls S:0108 S:1100 R:walls R:walls U:",
    // A checkpoint after a restore; the bare ground, with nothing to undo; a name that is moved; names that a restore to an older one leaves.
    "S:1019 M:roof1 R:g0 U: R:roof1 M:g0 U: R:g0 R:walls R:roof1",
    // An unknown name; no byte, a capital letter, 17 bytes.
    "R:roof M: R: M:Roof1 R:Roof1 M:a0z9a0z9a0z9a0z9a R:a0z9a0z9a0z9a0z9a",
    // Another number of active edits: found behind a bad name, before an unknown one. A count above 8, seven cells: found before a bad name.
    "A:9 M:walls R:walls M:Roof1 R:roof A:2 C:9 M:Roof1 R:Roof1 C:8 F:Roof1 F:walls",
    // Thirteen names beside the three that there are, and one too many.
    "M:a0z9a0z9a0z9a0z9 M:a M:b M:c M:d M:e M:f M:g M:h M:i M:j M:k M:l M:m",
    // One of the 16 is moved. Then four bytes are left, too few for a name of two: found behind 27 and 26. The last restore fills the journal.
    "S:0017 M:b S:1110 M:g0 R:g0 M:m2 R:m2 R:b M:a R:a S:0113",
];

fn calls(
    rt: &impl Print,
    session: &mut Session,
    cells: &mut [u16; 8],
    journal: &mut [u8; JOURNAL],
) -> io::Result<()> {
    for text in CALLS {
        run(rt, text.as_bytes(), session, cells, journal)?;
    }
    Ok(())
}

// The next tablet holds all but the last two bytes: the last restore is lost, and another made.
fn take_over(rt: &impl Print, journal: &mut [u8; JOURNAL]) -> io::Result<()> {
    let mut cells = [0u16; 8];
    let start = reopen_start(session_reopen::reopen(&mut cells, journal, JOURNAL - 2));
    let mut session = start.session;
    show(rt, start.number, 0, &session, &cells)?;
    run(rt, b"R:c", &mut session, &mut cells, journal)?;
    rt.write_all(journal)
}

fn main(rt: HostRuntime) -> io::Result<()> {
    let mut cells = [0u16; 8];
    let mut journal = [0u8; JOURNAL];
    let mut session = begin(&rt, &mut cells, &mut journal)?;
    calls(&rt, &mut session, &mut cells, &mut journal)?;
    take_over(&rt, &mut journal)
}
