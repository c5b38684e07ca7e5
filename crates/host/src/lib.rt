// The C boundary: include/perillahinge.h says what each function is for. Each hands its arguments to the library's call and answers in numbers:
// a refusal's number (SCOPE 10), 0 where the call is accepted, its line, and its values. The session's edits, over a record lent by reference,
// are in `by_reference`.
#![tactic(auto, using(host_answers::proofs::InC::in_c))]

ghost use Rattle.std.specs.Prelude.{◌≡◌, length};
ghost use Rattle.noise.specs.Hash.{hash2₃₂, hash3₃₂};
ghost use Rattle.noise.specs.Noise.{noise2d₃₂, noise3d₃₂, fbm2d₃₂, fbm3d₃₂};
ghost use Rattle.ground.specs.Ground.{generate_does};
ghost use Rattle.chunk_look.specs.Calls.{chunk_get_does, chunk_is_air_does, chunk_is_empty_does, chunk_is_solid_does};
ghost use Rattle.chunk_edit.specs.Calls.{chunk_replace_does, chunk_set_does, chunk_fill_does};
ghost use Rattle.chunk_batch.specs.Calls.{chunk_batch_does};
ghost use Rattle.chunk_tally.specs.Tally.{chunk_tally_does};
ghost use Rattle.planes.specs.Planes.{to_planes_does, from_planes_does};
ghost use Rattle.session_calls.specs.Calls.{session_fresh_does, session_reopen_does};
ghost use Rattle.journal_prefix.specs.Prefix.{committed_part};
ghost use Rattle.host_answers.specs.Answers.{answer_of, answered, edit_in_c, batch_answered, batch_in_c, border_answered, border_in_c_does};
ghost use Rattle.host_answers.specs.Answers.{tally_answered, tally_in_c};
ghost use Rattle.host_answers.specs.Answers.{planes_answered, planes_in_c};
ghost use Rattle.host_starts.specs.Sessions.{begun_in_c, fresh_in_c, resumed_in_c, reopen_in_c};

mod by_reference;

use config::{ChunkPos, TerrainConfig};
use host_answers::{Answer, BatchAnswer};
use host_starts::Start;

#[unsafe(no_mangle)]
pub extern "C" fn pl_hash2(x: i32, y: i32) -> f32
    ensures { result ≡ hash2₃₂ x y }
{
    noise::hash2(x, y)
}

#[unsafe(no_mangle)]
pub extern "C" fn pl_hash3(x: i32, y: i32, z: i32) -> f32
    ensures { result ≡ hash3₃₂ x y z }
{
    noise::hash3(x, y, z)
}

#[unsafe(no_mangle)]
pub extern "C" fn pl_noise2d(x: f32, y: f32) -> f32
    ensures { result ≡ noise2d₃₂ x y }
{
    noise::noise2d(x, y)
}

#[unsafe(no_mangle)]
pub extern "C" fn pl_noise3d(x: f32, y: f32, z: f32) -> f32
    ensures { result ≡ noise3d₃₂ x y z }
{
    noise::noise3d(x, y, z)
}

#[unsafe(no_mangle)]
pub extern "C" fn pl_fbm2d(x: f32, y: f32, octaves: u32) -> f32
    ensures { result ≡ fbm2d₃₂ x y octaves }
{
    noise::fbm2d(x, y, octaves)
}

#[unsafe(no_mangle)]
pub extern "C" fn pl_fbm3d(x: f32, y: f32, z: f32, octaves: u32) -> f32
    ensures { result ≡ fbm3d₃₂ x y z octaves }
{
    noise::fbm3d(x, y, z, octaves)
}

#[unsafe(no_mangle)]
pub extern "C" fn pl_generate(config: TerrainConfig, pos: ChunkPos, cells: &mut [u16]) -> Answer
    ensures { answered result cells.new ≡ edit_in_c (generate_does config pos cells.old) }
{
    Answer::from(ground::generate(config, pos, cells))
}

#[unsafe(no_mangle)]
pub extern "C" fn pl_get(cells: &[u16], size: usize, x: usize, y: usize, z: usize) -> Answer
    ensures { result ≡ answer_of (chunk_get_does size cells.now x y z) }
{
    Answer::from(chunk_look::get(cells, size, x, y, z))
}

#[unsafe(no_mangle)]
pub extern "C" fn pl_is_air(cells: &[u16], size: usize, x: usize, y: usize, z: usize) -> Answer
    ensures { result ≡ answer_of (chunk_is_air_does size cells.now x y z) }
{
    Answer::from(chunk_look::is_air(cells, size, x, y, z))
}

#[unsafe(no_mangle)]
pub extern "C" fn pl_is_empty(cells: &[u16], size: usize) -> Answer
    ensures { result ≡ answer_of (chunk_is_empty_does size cells.now) }
{
    Answer::from(chunk_look::is_empty(cells, size))
}

#[unsafe(no_mangle)]
pub extern "C" fn pl_is_solid(cells: &[u16], size: usize) -> Answer
    ensures { result ≡ answer_of (chunk_is_solid_does size cells.now) }
{
    Answer::from(chunk_look::is_solid(cells, size))
}

#[unsafe(no_mangle)]
pub extern "C" fn pl_replace_blocks(cells: &mut [u16], size: usize, blocks: &[u16]) -> Answer
    ensures { answered result cells.new ≡ edit_in_c (chunk_replace_does size cells.old blocks.now) }
{
    Answer::from(chunk_edit::replace_blocks(cells, size, blocks))
}

#[unsafe(no_mangle)]
pub extern "C" fn pl_set(
    cells: &mut [u16],
    size: usize,
    count: u32,
    x: usize,
    y: usize,
    z: usize,
    id: u16,
) -> Answer
    ensures { answered result cells.new ≡ edit_in_c (chunk_set_does size count cells.old x y z id) }
{
    Answer::from(chunk_edit::set(cells, size, count, x, y, z, id))
}

#[unsafe(no_mangle)]
pub extern "C" fn pl_fill_column(
    cells: &mut [u16],
    size: usize,
    count: u32,
    x: usize,
    z: usize,
    height: usize,
    id: u16,
) -> Answer
    ensures { answered result cells.new ≡ edit_in_c (chunk_fill_does size count cells.old x z height id) }
{
    Answer::from(chunk_edit::fill_column(cells, size, count, x, z, height, id))
}

#[unsafe(no_mangle)]
pub extern "C" fn pl_set_blocks(
    cells: &mut [u16],
    size: usize,
    count: u32,
    edits: &[u32],
) -> BatchAnswer
    ensures { batch_answered result cells.new ≡ batch_in_c (chunk_batch_does size count cells.old edits.now) }
{
    BatchAnswer::from(chunk_batch::set_blocks(cells, size, count, edits))
}

// SCOPE 10.6: a number above 5 names no face: 99.
#[unsafe(no_mangle)]
pub extern "C" fn pl_extract_border(
    cells: &[u16],
    size: usize,
    n: u32,
    border: &mut [u16],
) -> Answer
    ensures { border_answered result border.new ≡ border_in_c_does n size cells.now border.old }
{
    Answer::from(host_answers::extract_border(cells, size, n, border))
}

#[unsafe(no_mangle)]
pub extern "C" fn pl_tally(
    cells: &[u16],
    size: usize,
    ids: &mut [u16],
    counts: &mut [u32],
) -> Answer
    ensures { tally_answered result ids.new counts.new
        ≡ tally_in_c (chunk_tally_does size cells.now ids.old counts.old) }
{
    Answer::from(chunk_tally::tally(cells, size, ids, counts))
}

#[unsafe(no_mangle)]
pub extern "C" fn pl_to_planes(cells: &[u16], size: usize, bytes: &mut [u8]) -> Answer
    ensures { planes_answered result bytes.new ≡ planes_in_c (to_planes_does size cells.now bytes.old) }
{
    Answer::from(planes_write::to_planes(cells, size, bytes))
}

#[unsafe(no_mangle)]
pub extern "C" fn pl_from_planes(bytes: &[u8], size: usize, cells: &mut [u16]) -> Answer
    ensures { answered result cells.new ≡ edit_in_c (from_planes_does size bytes.now cells.old) }
{
    Answer::from(planes_read::from_planes(bytes, size, cells))
}

#[unsafe(no_mangle)]
pub extern "C" fn pl_session_fresh(
    config: TerrainConfig,
    pos: ChunkPos,
    cells: &mut [u16],
    journal: &mut [u8],
) -> Start
    ensures { begun_in_c result cells.new journal.new
        ≡ fresh_in_c (session_fresh_does config pos cells.old journal.old) }
{
    host_starts::fresh_start(session_fresh::fresh(config, pos, cells, journal))
}

#[unsafe(no_mangle)]
pub extern "C" fn pl_session_reopen(cells: &mut [u16], journal: &[u8], held: usize) -> Start
    ensures { resumed_in_c result cells.new ≡ reopen_in_c (session_reopen_does cells.old journal.now held) }
{
    host_starts::reopen_start(session_reopen::reopen(cells, journal, held))
}

// The length of a journal's committed prefix (SCOPE 9.4).
#[unsafe(no_mangle)]
pub extern "C" fn pl_committed_len(journal: &[u8], held: usize) -> usize
    ensures { result ≡ length (committed_part journal.now held) }
{
    let part = journal_prefix::committed_prefix(journal, held);
    part.len()
}
