// Replays answers of the Rust original's noise. Each line of the input has three whole numbers,
// the bits of three f32 numbers and a number of octaves. The program writes a line for each: the
// bits of hash2, hash3, noise2d, noise3d, fbm2d and fbm3d there. The expected output was made by
// the original.
#![tactic(auto)]

use std::io;
use std::io::Print;

// The bits of a float, those of one NaN for all: Rust does not fix a NaN's.
fn bits(v: f32) -> u32 {
    if v == v { f32::to_bits(v) } else { 0x7fc0_0000 }
}

// The float that has these bits, or 0 where they are a NaN's: no input line has one.
fn float(n: u32) -> f32 {
    if n % 0x8000_0000 <= 0x7f80_0000 {
        f32::from_bits(n)
    } else {
        0.0
    }
}

fn show(rt: &impl Print, v: f32, after: char) -> io::Result<()> {
    let n = bits(v);
    print!(rt; "{n}{after}")
}

fn hashes(rt: &impl Print, x: i32, y: i32, z: i32) -> io::Result<()> {
    show(rt, noise::hash2(x, y), ' ')?;
    show(rt, noise::hash3(x, y, z), ' ')
}

fn noises(rt: &impl Print, x: f32, y: f32, z: f32, octaves: u32) -> io::Result<()> {
    show(rt, noise::noise2d(x, y), ' ')?;
    show(rt, noise::noise3d(x, y, z), ' ')?;
    show(rt, noise::fbm2d(x, y, octaves), ' ')?;
    show(rt, noise::fbm3d(x, y, z, octaves), '\n')
}

// Answers one line.
fn row(rt: &impl Print, list: &[u32; 7]) -> io::Result<()> {
    let [x, y, z, fx, fy, fz, octaves] = *list;
    hashes(rt, x.cast_signed(), y.cast_signed(), z.cast_signed())?;
    noises(rt, float(fx), float(fy), float(fz), octaves)
}

fn main(rt: HostRuntime) -> io::Result<()> {
    let mut text = test_vectors::text_room();
    let n = test_vectors::read_text(&rt, &mut text)?;
    test_vectors::each_line(&text[..n], |list| row(&rt, list))
}
