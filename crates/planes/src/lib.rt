// A chunk's cells as two planes of bytes in Morton order: what the calls answer, and the tests that they begin with.
#![tactic(auto)]

ghost use Rattle.std.specs.Prelude.{◌≡◌};
ghost use Rattle.config.specs.Numbers.{refusal_in};
ghost use Rattle.planes.specs.Planes.{power_size, planes_refusal};

use config::Refusal;

// Whether a chunk of this size has planes.
#[tactic(auto, unfolding(crate::specs::Planes::power_size))]
fn power_size(size: usize) -> bool
    ensures { result ≡ power_size size }
{
    matches!(size, 1 | 2 | 4 | 8 | 16 | 32 | 64)
}

// Refusal 28, 6 or 29 of a size, n cells and m bytes.
pub fn refuse_planes(size: usize, n: usize, m: usize) -> Result<(), Refusal>
    ensures { refusal_in result ≡ planes_refusal size n m }
{
    if !power_size(size) {
        return Err(Refusal::PlanesSize);
    }
    let volume = size * size * size;
    if n != volume {
        return Err(Refusal::Length);
    }
    if m != 2 * volume {
        return Err(Refusal::PlanesBytes);
    }
    Ok(())
}
