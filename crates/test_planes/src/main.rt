// The planes of chunks of size 1, 2 and 4, and back again, and refusals of both calls. A line has the size, the number of the refusal or 0, and
// all of 128 bytes, or of 64 cells, whose front was lent: before the call each byte is 170, and each cell 43,690. The cell with index i of those
// that are copied holds 1,031 i + 7. The expected output was worked out from SCOPE 5.12 and 10.4, without the library.
#![tactic(auto)]

ghost use Rattle.std.specs.Prelude.{◌≤◌};

use config::Refusal;
use std::io;
use std::io::Print;
use test_vectors::{show_all, show_next};

fn id(n: usize) -> u16 {
    (n % 65536) as u16
}

fn fill(cells: &mut [u16]) {
    for (i, cell) in cells.iter_mut().enumerate() {
        *cell = id(1031 * (i % 64) + 7);
    }
}

// The size, and the number of an answer.
fn show(rt: &impl Print, size: usize, answer: Result<(), Refusal>) -> io::Result<()> {
    print!(rt; "{size}")?;
    show_next(rt, answer.map_or_else(|refusal| refusal.number(), |_| 0))
}

// Both ways, on n cells and m bytes.
fn both(rt: &impl Print, size: usize, n: usize, m: usize) -> io::Result<()>
    requires cells { n ≤ 64 }
    requires bytes { m ≤ 128 }
{
    let mut cells = [43690; 64];
    let mut bytes = [170; 128];
    fill(&mut cells);
    show(
        rt,
        size,
        planes_write::to_planes(&cells[..n], size, &mut bytes[..m]),
    )?;
    show_all(rt, &bytes)?;
    println!(rt)?;
    cells = [43690; 64];
    show(
        rt,
        size,
        planes_read::from_planes(&bytes[..m], size, &mut cells[..n]),
    )?;
    show_all(rt, &cells)?;
    println!(rt)
}

fn main(rt: HostRuntime) -> io::Result<()> {
    both(&rt, 1, 1, 2)?;
    both(&rt, 2, 8, 16)?;
    both(&rt, 4, 64, 128)?;
    // No size with planes, whatever the lengths.
    both(&rt, 0, 0, 0)?;
    both(&rt, 3, 27, 54)?;
    both(&rt, 3, 7, 5)?;
    both(&rt, 128, 2, 4)?;
    // Other cells than the size has, also with other bytes; other bytes.
    both(&rt, 2, 7, 16)?;
    both(&rt, 2, 9, 18)?;
    both(&rt, 64, 8, 16)?;
    both(&rt, 1, 0, 2)?;
    both(&rt, 2, 8, 15)?;
    both(&rt, 2, 8, 17)?;
    both(&rt, 1, 1, 0)
}
