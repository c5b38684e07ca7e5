// Standard input read to its end (SCOPE 11.1), and a text written whole to standard output. A call that a signal interrupted is made again, one that
// moved a part goes on behind it, and one that failed is not taken for the end of the input (SCOPE 11.5).
#![tactic(auto)]

ghost use Rattle.std.specs.Prelude.{◌≡◌, ◌+◌, ◌<◌, length};
ghost use Rattle.openmap_io.specs.declared.Failure.TheVariants.{Call};
ghost use Rattle.openmap_io.specs.Steps.{Moved, step_of, reading_of, Reaches, ReadOn, Held};

use std::fmt::Write;
use std::io::{ErrorKind, Input, Print, Read};
use std::{fmt, io};

// Why a reading or a writing failed: by the error of a call, or because the calls came to nothing, as a write that took no byte.
#[derive(Clone, Copy)]
pub enum Failure {
    Call(io::Error),
    Stuck,
}

impl From<io::Error> for Failure {
    ghost from_gives = { λ error failure. failure ≡ Call error };

    fn from(error: io::Error) -> Failure {
        Failure::Call(error)
    }
}

// The system's words for an error alone: the number that std writes behind them is left out.
#[derive(Drop)]
struct Words<'a, W> {
    to: &'a mut fmt::Formatter<W>,
    ended: bool,
}

impl<W: fmt::Write> fmt::Write for Words<'_, W> {
    fn write_str(&mut self, s: &str) -> fmt::Result {
        if s == " (os error " {
            self.ended = true;
        }
        if self.ended {
            return Ok(());
        }
        self.to.write_str(s)
    }
}

impl fmt::Display for Failure {
    fn fmt<W: fmt::Write>(&self, f: &mut fmt::Formatter<W>) -> fmt::Result {
        match self {
            Failure::Call(error) => {
                let mut words = Words {
                    to: f,
                    ended: false,
                };
                write!(words, "{error}")
            }
            // the system's words where no call failed
            Failure::Stuck => write!(f, "Success"),
        }
    }
}

// By the answer of a call on the part of a buffer that begins at `at`: where to go on, or None where the call moved nothing.
// An interrupted call is made again.
fn step_by(at: usize, answer: io::Result<usize>, part: &[u8]) -> io::Result<Option<usize>>
    requires moved { Moved (length part.now) answer }
    requires part_bound { at + length part.now < 9223372036854775808 }
    ensures { result ≡ step_of at answer }
{
    match answer {
        Err(error) if error.kind() == ErrorKind::Interrupted => Ok(Some(at)),
        Err(error) => Err(error),
        Ok(0) => Ok(None),
        Ok(n) => Ok(Some(at + n)),
    }
}

// One call of read, into the bytes from `at` on; those before stay.
fn read_some<R: Read>(input: &mut R, journal: &mut [u8], at: usize) -> io::Result<Option<usize>>
    requires { at < length journal.old }
    ensures { ReadOn journal.old at result journal.new }
{
    let part = &mut journal[at..];
    let answer = input.read(part);
    step_by(at, answer, part)
}

// What a reading came to whose last call left it so, with `at` bytes read.
fn reading_by(at: usize, step: io::Result<Option<usize>>) -> Result<usize, Failure>
    ensures { result ≡ reading_of at step }
{
    match step? {
        None => Ok(at),
        Some(_) => Err(Failure::Stuck),
    }
}

// Reads until the input ends or the room is full, and answers how many bytes came. Nothing says that calls move bytes, so they are
// counted, up to a number that no run reaches; a run that did would have failed.
pub fn read_journal(rt: &impl Input, journal: &mut [u8]) -> Result<usize, Failure>
    ensures { Held result journal.new }
{
    let mut input = rt.reader();
    let mut at = 0;
    for _ in 0..u64::MAX {
        if at == journal.len() {
            break;
        }
        let step = read_some(&mut input, journal, at);
        let Ok(Some(next)) = step else {
            return reading_by(at, step);
        };
        at = next;
    }
    if at < journal.len() {
        return Err(Failure::Stuck);
    }
    Ok(at)
}

// One call of write, of the bytes from `at` on.
fn write_some(rt: &impl Print, text: &[u8], at: usize) -> io::Result<Option<usize>>
    requires { at < length text.now }
    ensures { Reaches at (length text.now) result }
{
    let part = &text[at..];
    let answer = rt.write_some(part);
    step_by(at, answer, part)
}

// Writes all of the text; or fails where a write failed or took nothing.
pub fn write_text(rt: &impl Print, text: &[u8]) -> Result<(), Failure> {
    let mut at = 0;
    for _ in 0..u64::MAX {
        if at == text.len() {
            return Ok(());
        }
        let Some(next) = write_some(rt, text, at)? else {
            return Err(Failure::Stuck);
        };
        at = next;
    }
    if at < text.len() {
        return Err(Failure::Stuck);
    }
    Ok(())
}
