// The rows of a map, as the program prints them (SCOPE 11.2): into a borrowed buffer, row behind row.
#![tactic(auto)]

ghost use Rattle.openmap_lines.specs.Text.{row_text, layer_text, map_text};
ghost use Rattle.openmap_lines.specs.Appended.{Appended};
ghost use Rattle.openmap_rows.specs.Lays.{Lays};

// The ids along x.
fn put_row(out: &mut [u8], at: usize, cells: &[u16], size: usize, z: usize, y: usize) -> usize
    requires { Lays size cells.now out.old at (row_text size cells.now z y) }
    ensures { Appended out.old at (row_text size cells.now z y) out.new result }
{
    let mut p = at;
    for x in 0..size {
        p = openmap_lines::put_separated(out, p, x, grid::see(cells, size, x, y, z) as u64);
    }
    openmap_lines::put_byte(out, p, b'\n')
}

// A row for each y.
fn put_layer(out: &mut [u8], at: usize, cells: &[u16], size: usize, z: usize) -> usize
    requires { Lays size cells.now out.old at (layer_text size cells.now z) }
    ensures { Appended out.old at (layer_text size cells.now z) out.new result }
{
    let mut p = at;
    for y in 0..size {
        p = put_row(out, p, cells, size, z, y);
    }
    p
}

// Then the next z.
pub fn put_map(out: &mut [u8], at: usize, cells: &[u16], size: usize) -> usize
    requires { Lays size cells.now out.old at (map_text size cells.now) }
    ensures { Appended out.old at (map_text size cells.now) out.new result }
{
    let mut p = at;
    for z in 0..size {
        p = put_layer(out, p, cells, size, z);
    }
    p
}
