// A column's climate and relief, read from rows of noise.
#![tactic(auto)]

ghost use Rattle.std.specs.Prelude.{◌≡◌, ◌<◌};
ghost use Rattle.column_read.specs.Read.{climate_in, relief_in};

use column::{Column, Relief, plateau, ridges_of, with_climate};
use noise_tables::PLACES;

// The noise of a row of columns, at each place.
#[derive(Drop)]
pub struct Noise {
    pub temp: [f32; PLACES],
    pub moisture: [f32; PLACES],
    pub continent: [f32; PLACES],
    pub detail: [f32; PLACES],
    pub micro: [f32; PLACES],
    pub ridge1: [f32; PLACES],
    pub ridge2: [f32; PLACES],
    pub steps: [f32; PLACES],
    pub dune: [f32; PLACES],
    pub hill: [f32; PLACES],
}

impl Noise {
    // The climate at place i.
    #[tactic(auto, unfolding(crate::specs::Read::climate_in))]
    pub fn climate(&self, i: usize) -> Column
        requires { i < 64 }
        ensures { result ≡ climate_in self.now.temp self.now.moisture i }
    {
        with_climate(self.temp[i], self.moisture[i])
    }

    // The relief at place i.
    #[tactic(auto, unfolding(crate::specs::Read::relief_in))]
    pub fn relief(&self, i: usize) -> Relief
        requires { i < 64 }
        ensures { result ≡ relief_in self.now.continent self.now.detail self.now.micro self.now.ridge1
            self.now.ridge2 self.now.steps self.now.dune self.now.hill i }
    {
        let ridges = ridges_of(self.ridge1[i], self.ridge2[i]);
        let plateau = plateau(self.steps[i]);
        Relief {
            continent: self.continent[i],
            detail: self.detail[i],
            micro: self.micro[i],
            ridges,
            plateau,
            dune: self.dune[i],
            hill_factor: self.hill[i],
        }
    }
}
