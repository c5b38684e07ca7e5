// Sums of octaves of value noise, and the hashes and the noise below them: the port of noise.rs. Every f32 operation
// stands in its order.
#![tactic(auto)]

ghost use Rattle.std.specs.Prelude.{◌≡◌, Float};
ghost use Rattle.noise.specs.Noise.{fbm, fbm2d₃₂, fbm3d₃₂};

pub use noise_hash::{hash2, hash3, unit};
pub use noise_lattice::{lerp, noise2d, noise3d, smooth};

// The sum of octaves of a noise, which is given by the frequency: amplitude halved and frequency doubled for each octave.
fn fbm<F: Fn(f32) -> f32>(noise: F, octaves: u32) -> f32
    requires { F.IsAlwaysCallable noise }
    ensures { (at : Float → Float) → ((freq val : Float) → F.post noise freq val → val ≡ at freq) → result ≡ fbm at octaves }
{
    if octaves == 0 {
        return 0.5;
    }
    let mut val: f32 = 0.0;
    let mut amp: f32 = 1.0;
    let mut freq: f32 = 1.0;
    let mut max: f32 = 0.0;
    for _ in 0..octaves {
        val += noise(freq) * amp;
        max += amp;
        amp *= 0.5;
        freq *= 2.0;
    }
    val / max
}

// 2D fractional Brownian motion.
pub fn fbm2d(x: f32, y: f32, octaves: u32) -> f32
    ensures { result ≡ fbm2d₃₂ x y octaves }
{
    fbm(|freq| noise2d(x * freq, y * freq), octaves)
}

// 3D fractional Brownian motion.
pub fn fbm3d(x: f32, y: f32, z: f32, octaves: u32) -> f32
    ensures { result ≡ fbm3d₃₂ x y z octaves }
{
    fbm(|freq| noise3d(x * freq, y * freq, z * freq), octaves)
}
