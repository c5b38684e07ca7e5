// What programs share that replay a list of answers: reading the numbers of their input, lines of
// decimal numbers separated by one byte, each taken modulo 2^32 so that no input is refused; cells to
// work on, their checksum, and showing them.
#![tactic(auto)]

ghost use Rattle.std.specs.Prelude.{◌≡◌, ◌≤◌, IfOk, length};

use openmap_io::{Failure, read_journal};
use std::fmt::Display;
use std::io;
use std::io::{ErrorKind, Input, Print};

// The digits at the front of a text as a number's bits, and what stands behind them.
fn digits(text: &[u8]) -> (u32, &[u8]) {
    let n = text
        .iter()
        .position(|b| !b.is_ascii_digit())
        .unwrap_or(text.len());
    let (digits, behind) = text.split_at(n);
    let bits = digits.iter().fold(0u32, |bits, b| {
        bits.wrapping_mul(10).wrapping_add(u32::from(*b) & 15)
    });
    (bits, behind)
}

// The number at the front of a text, a minus before it or not, and what stands behind it.
pub fn number(text: &[u8]) -> (u32, &[u8]) {
    if let [b'-', behind @ ..] = text {
        let (bits, behind) = digits(behind);
        (0u32.wrapping_sub(bits), behind)
    } else {
        digits(text)
    }
}

// The text behind its first byte, or the empty text where it has none.
pub fn past(text: &[u8]) -> &[u8] {
    if let [_, behind @ ..] = text {
        behind
    } else {
        text
    }
}

// Puts the next seven numbers into a list, and answers the text behind them.
pub fn seven<'a>(text: &'a [u8], list: &mut [u32; 7]) -> &'a [u8] {
    let mut rest = text;
    for place in list.iter_mut() {
        let (bits, behind) = number(rest);
        *place = bits;
        rest = past(behind);
    }
    rest
}

// Hands the seven numbers of each line to a function, until one fails.
pub fn each_line<F: FnMut(&[u32; 7]) -> io::Result<()>>(
    text: &[u8],
    mut answer: F,
) -> io::Result<()>
    requires { F.IsAlwaysCallable answer }
{
    let mut list = [0u32; 7];
    let mut rest = text;
    while !rest.is_empty() {
        let behind = seven(rest, &mut list);
        answer(&list)?;
        if behind.len() >= rest.len() {
            return Ok(());
        }
        rest = behind;
    }
    Ok(())
}

// Room for a text.
pub fn text_room() -> [u8; 65536]
    ensures { 65536 ≡ length result }
{
    [0; 65536]
}

// Reads standard input until it ends or the room is full, and answers how many bytes it put at the start of the room.
pub fn read_text(rt: &impl Input, text: &mut [u8]) -> io::Result<usize>
    ensures { IfOk result (λ n. n ≤ length text.new) }
{
    read_journal(rt, text).map_err(|failure| match failure {
        Failure::Call(error) => error,
        Failure::Stuck => io::Error::from(ErrorKind::TimedOut),
    })
}

// Room for the cells of the largest chunk.
pub fn room() -> [u16; 262144]
    ensures { 262144 ≡ length result }
{
    [0; 262144]
}

// Each id is added to 16,777,619 times what came before, modulo 2^32.
pub fn checksum(cells: &[u16]) -> u32 {
    cells.iter().fold(0u32, |sum, id| {
        sum.wrapping_mul(16777619).wrapping_add(u32::from(*id))
    })
}

// Writes a blank and a number.
pub fn show_next<N: Display + Drop>(rt: &impl Print, n: N) -> io::Result<()> {
    print!(rt; " {n}")
}

// Writes a blank and a number for each place.
pub fn show_all<N: Display + Drop>(rt: &impl Print, numbers: &[N]) -> io::Result<()> {
    for n in numbers {
        print!(rt; " {n}")?;
    }
    Ok(())
}
