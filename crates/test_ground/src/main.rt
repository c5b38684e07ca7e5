// Replays answers of the Rust original's ground. Each line of the input has seed, sea level,
// world height, size and the three numbers of a place. The program lays that chunk and writes a
// line: the number of cells that are not air, a checksum of the cells, and all cells of a small
// chunk. The expected output was made by the original.
#![tactic(auto)]

ghost use Rattle.std.specs.Prelude.{◌≤◌};

use config::{ChunkPos, TerrainConfig};
use std::io;
use std::io::Print;

// The line of a chunk. Sizes up to 5 have at most 125 cells.
fn answer(rt: &impl Print, count: u32, cells: &[u16]) -> io::Result<()> {
    print!(rt; "{count}")?;
    test_vectors::show_next(rt, test_vectors::checksum(cells))?;
    if cells.len() <= 125 {
        test_vectors::show_all(rt, cells)?;
    }
    println!(rt)
}

fn lay(rt: &impl Print, config: TerrainConfig, pos: ChunkPos, cells: &mut [u16]) -> io::Result<()> {
    match ground::generate(config, pos, cells) {
        Ok(n) => answer(rt, n, cells),
        Err(_) => refused(rt),
    }
}

fn refused(rt: &impl Print) -> io::Result<()> {
    println!(rt; "refused")
}

fn volume(size: usize) -> usize
    requires { size ≤ 64 }
    ensures { result ≤ 262144 }
{
    size * size * size
}

// Lays a chunk in the first n cells of a fresh array.
fn lay_in(rt: &impl Print, config: TerrainConfig, pos: ChunkPos, n: usize) -> io::Result<()>
    requires { n ≤ 262144 }
{
    let mut cells = test_vectors::room();
    lay(rt, config, pos, &mut cells[..n])
}

// Lays the chunk of one line.
fn chunk(rt: &impl Print, list: &[u32; 7]) -> io::Result<()> {
    let [seed, sea_level, world_height, size, cx, cy, cz] = *list;
    let size = size as usize;
    if size > 64 {
        return refused(rt);
    }
    let config = TerrainConfig {
        seed,
        sea_level: sea_level.cast_signed(),
        world_height_blocks: world_height.cast_signed(),
        chunk_size: size,
    };
    let pos = ChunkPos {
        cx: cx.cast_signed(),
        cy: cy.cast_signed(),
        cz: cz.cast_signed(),
    };
    lay_in(rt, config, pos, volume(size))
}

fn main(rt: HostRuntime) -> io::Result<()> {
    let mut text = test_vectors::text_room();
    let n = test_vectors::read_text(&rt, &mut text)?;
    test_vectors::each_line(&text[..n], |list| chunk(&rt, list))
}
