// The lines that the program prints (SCOPE 11.2 to 11.4), piece behind piece into a borrowed buffer: fields, and the first line.
#![tactic(auto)]

ghost use Rattle.std.specs.Prelude.{[], ◌∷◌, ◌≤◌, length};
ghost use Rattle.text.specs.Decimal.{decimal};
ghost use Rattle.openmap_lines.specs.Text.{ok_text, no_text};
ghost use Rattle.openmap_lines.specs.Appended.{Appended};
ghost use Rattle.openmap_lines.specs.Separated.{separated};
ghost use Rattle.openmap_lines.specs.Fits.{Fits};

use text::LineBuffer;

// A fixed text.
fn put_text(out: &mut [u8], at: usize, t: &[u8]) -> usize
    requires { Fits out.old at t.now }
    ensures { Appended out.old at t.now out.new result }
{
    let end = at + t.len();
    out[at..end].copy_from_slice(t);
    end
}

pub fn put_byte(out: &mut [u8], at: usize, b: u8) -> usize
    requires { Fits out.old at (b ∷ []) }
    ensures { Appended out.old at (b ∷ []) out.new result }
{
    out[at] = b;
    at + 1
}

// A number's digits.
fn put_number(out: &mut [u8], at: usize, n: u64) -> usize
    requires { Fits out.old at (decimal n) }
    ensures { Appended out.old at (decimal n) out.new result }
{
    let mut digits = LineBuffer::new();
    text::put_number(&mut digits, n);
    put_text(out, at, &digits)
}

// A number behind a tab.
fn put_field(out: &mut [u8], at: usize, n: u64) -> usize
    requires { Fits out.old at (9 ∷ decimal n) }
    ensures { Appended out.old at (9 ∷ decimal n) out.new result }
{
    let p = put_byte(out, at, b'\t');
    put_number(out, p, n)
}

// Field x of a line: a tab separates it from the one before.
pub fn put_separated(out: &mut [u8], at: usize, x: usize, n: u64) -> usize
    requires { Fits out.old at (separated x (decimal n)) }
    ensures { Appended out.old at (separated x (decimal n)) out.new result }
{
    if x == 0 {
        return put_number(out, at, n);
    }
    put_field(out, at, n)
}

// The first line of an opened map (SCOPE 11.2): OK, whole lines, active edits, non-air count, trailing bytes.
pub fn put_opened(out: &mut [u8], lines: usize, active: usize, count: u32, trailing: usize) -> usize
    requires { 87 ≤ length out.old }
    ensures { Appended out.old 0 (ok_text lines active count trailing) out.new result
        × (length (ok_text lines active count trailing) ≤ 87) }
{
    let a = put_text(out, 0, b"OK");
    let b = put_field(out, a, lines as u64);
    let c = put_field(out, b, active as u64);
    let d = put_field(out, c, count as u64);
    let e = put_field(out, d, trailing as u64);
    put_byte(out, e, b'\n')
}

// The line of a refusal (SCOPE 11.3): NO, its number, its line.
pub fn put_refused(out: &mut [u8], number: u32, line: usize) -> usize
    requires { 45 ≤ length out.old }
    ensures { Appended out.old 0 (no_text number line) out.new result }
{
    let a = put_text(out, 0, b"NO");
    let b = put_field(out, a, number as u64);
    let c = put_field(out, b, line as u64);
    put_byte(out, c, b'\n')
}
