// The text of a reopened map, as the program prints it (SCOPE 11.2, 11.3): written into a borrowed buffer, piece behind piece.
#![tactic(auto)]

ghost use Rattle.std.specs.Prelude.{◌≡◌, ◌≤◌, nat_abs, leb};
ghost use Rattle.basics.specs.Bools.{pick};
ghost use Rattle.session_calls.specs.Answers.{says_reopened};
ghost use Rattle.session_calls.specs.Record.{cube};
ghost use Rattle.config.specs.Limits.{limit_refusal};
ghost use Rattle.openmap_report.specs.Text.{answer_text};
ghost use Rattle.openmap_lines.specs.Appended.{Appended};
ghost use Rattle.openmap_report.specs.Fits.{Printable};
ghost use Rattle.openmap_report.specs.Report.{lent_cells, reported, report_does};

use config::bounds::NUMBERS_MOST;
use config::{Header, Refused};
use session_calls::Opened;

// The greatest size that is printed. With a greater one all cells are lent, which are too few for it.
const PRINTED_MOST: usize = 16;

// Cells and bytes that `report` asks for. A text has at most 24,919 bytes.
pub const CELLS: usize = PRINTED_MOST * PRINTED_MOST * PRINTED_MOST;

pub const TEXT_BYTES: usize = 25000;

// The text of an answer, with the cells that the reopening left.
fn put_answer(out: &mut [u8], cells: &[u16], answer: Result<Opened, Refused>) -> usize
    requires { Printable (says_reopened answer) cells.now out.old }
    ensures { Appended out.old 0 (answer_text (says_reopened answer) cells.now) out.new result }
{
    match answer {
        Ok(opened) => {
            let session = opened.session;
            let size = session.config.chunk_size;
            let p = openmap_lines::put_opened(
                out,
                opened.lines,
                session.active,
                session.count,
                opened.trailing,
            );
            openmap_rows::put_map(out, p, cells, size)
        }
        Err(refused) => openmap_lines::put_refused(out, refused.refusal.number(), refused.line),
    }
}

// How many cells are lent, from a size within its limits.
fn lent_for(header: Header) -> usize
    requires { limit_refusal header ≡ 0 }
    ensures { result ≡ pick (leb (nat_abs header.chunk_size) 16) (cube (nat_abs header.chunk_size)) 4096 }
{
    let size = header.chunk_size as usize;
    if size <= PRINTED_MOST {
        return size * size * size;
    }
    CELLS
}

// How many cells are lent, from the journal's first line.
fn lent_cells(journal: &[u8], held: usize) -> usize
    ensures { (result ≡ lent_cells journal.now held) × (result ≤ 4096) }
{
    let mut words = [0u64; NUMBERS_MOST];
    match journal_open::open_journal(journal, held, &mut words) {
        Ok(opening) => lent_for(opening.header),
        Err(_) => CELLS,
    }
}

// Reopens a journal over borrowed cells and writes what the program prints to the front of `out`; answers the text's length.
// It asks for 4,096 cells and 25,000 bytes; with less it does nothing and answers 0.
pub fn report(journal: &[u8], held: usize, cells: &mut [u16], out: &mut [u8]) -> usize
    ensures { reported result cells.new out.new ≡ report_does journal.now held cells.old out.old }
{
    if cells.len() < CELLS {
        return 0;
    }
    if out.len() < TEXT_BYTES {
        return 0;
    }
    let n = lent_cells(journal, held);
    let answer = session_reopen::reopen(&mut cells[..n], journal, held);
    put_answer(out, &cells[..n], answer)
}
