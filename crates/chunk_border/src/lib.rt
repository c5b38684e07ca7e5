// The outermost layer of a chunk's cells on one of its six sides.
#![tactic(auto)]

ghost use Rattle.std.specs.Prelude.{◌≡◌, ◌≤◌, ◌<◌, ◌*◌, length};
ghost use Rattle.grid.specs.Cube.{Cube};
ghost use Rattle.config.specs.Numbers.{refusal_in};
ghost use Rattle.chunk_border.specs.Faces.{face_of, face_or};
ghost use Rattle.chunk_border.specs.Border.{border_source, border_of, border_refusal, says_extracted, bordered, chunk_border_does};

use config::Refusal;

// The six sides of a chunk, by the names of the Rust original.
#[derive(Clone, Copy, PartialEq, Eq)]
pub enum Face {
    PosX,
    NegX,
    PosY,
    NegY,
    PosZ,
    NegZ,
}

// The face of a number, 0 to 5 in the order of the Rust.
impl TryFrom<u32> for Face {
    type Error = Refusal;

    ghost try_from_gives = { λ n result. result ≡ face_or (face_of n) };

    fn try_from(n: u32) -> Result<Face, Refusal> {
        match n {
            0 => Ok(Face::PosX),
            1 => Ok(Face::NegX),
            2 => Ok(Face::PosY),
            3 => Ok(Face::NegY),
            4 => Ok(Face::PosZ),
            5 => Ok(Face::NegZ),
            _ => Err(Refusal::Face),
        }
    }
}

// Where the k-th block of a border stands among the cells.
#[tactic(auto, unfolding(crate::specs::Border::border_source))]
fn source(face: Face, size: usize, k: usize) -> usize
    requires { (size ≤ 64) × (k < size * size) }
    ensures { result ≡ border_source face size k }
{
    let last = size - 1;
    let (u, v) = (k % size, k / size);
    let (x, y, z) = match face {
        Face::PosX => (last, v, u),
        Face::NegX => (0, v, u),
        Face::PosY => (u, last, v),
        Face::NegY => (u, 0, v),
        Face::PosZ => (u, v, last),
        Face::NegZ => (u, v, 0),
    };
    grid::cell_index(size, x, y, z)
}

// Refusal 1 or 6 of the cells and of the border's slice.
#[tactic(auto, using(chunk::specs::Tests::behind, grid::specs::Grid::cube), unfolding(crate::specs::Border::border_refusal, config::specs::Refusals::refusal))]
fn refuse_border(size: usize, n: usize, m: usize) -> Result<(), Refusal>
    ensures { refusal_in result ≡ border_refusal size n m }
{
    chunk::refuse_chunk(size, n)?;
    if m != size * size {
        return Err(Refusal::Length);
    }
    Ok(())
}

// Copies the layer.
fn copy_border(cells: &[u16], size: usize, face: Face, border: &mut [u16])
    requires { Cube size cells.now × (length border.old ≡ size * size) }
    ensures { border.new ≡ border_of face size cells.now }
{
    for (k, place) in border.iter_mut().enumerate() {
        *place = cells[source(face, size, k)];
    }
}

// Hands the layer on one side out: X sides at z + y * size, Y sides at x + z * size, Z sides at x + y * size.
#[tactic(auto, using(config::specs::Answers::is_refused_by), unfolding(crate::specs::Border::chunk_border_does))]
pub fn extract_border(
    cells: &[u16],
    size: usize,
    face: Face,
    border: &mut [u16],
) -> Result<(), Refusal>
    ensures { bordered (says_extracted result) border.new ≡ chunk_border_does face size cells.now border.old }
{
    refuse_border(size, cells.len(), border.len())?;
    copy_border(cells, size, face, border);
    Ok(())
}
