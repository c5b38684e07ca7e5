// What the programs share that open a map (SCOPE 11): standard input is read to its end, or to one byte more than a journal may have, `report`
// makes the text, and it is written whole.
// A read or a write that fails is reported in a line on standard error (SCOPE 11.5); of a journal that was not read to its end nothing is opened.
#![tactic(auto)]

use config::bounds::JOURNAL_MOST;
use openmap_io::{Failure, read_journal, write_text};
use openmap_report::{CELLS, TEXT_BYTES};
use std::io::{Eprint, Input, Print};

// One byte more than a journal may have, so that a longer one shows.
const JOURNAL_BYTES: usize = JOURNAL_MOST + 1;

// A line on standard error, with the system's words. Where that cannot be written either, there is nobody to tell.
fn tell(rt: &impl Eprint, stream: &str, failure: Failure) {
    let _ = eprintln!(rt; "openmap: standard {stream}: {failure}");
}

// Prints the map of a journal: what was read is the journal, and all of it is held.
pub fn print_map(rt: &(impl Print + Eprint), journal: &[u8]) {
    let mut cells = [0; CELLS];
    let mut text = [0; TEXT_BYTES];
    let n = openmap_report::report(journal, journal.len(), &mut cells, &mut text);
    if let Err(failure) = write_text(rt, &text[..n]) {
        tell(rt, "output", failure);
    }
}

// Opens the map whose journal comes on standard input.
pub fn open_map(rt: &(impl Input + Print + Eprint)) {
    let mut journal = [0; JOURNAL_BYTES];
    match read_journal(rt, &mut journal) {
        Ok(n) => print_map(rt, &journal[..n]),
        Err(failure) => tell(rt, "input", failure),
    }
}
