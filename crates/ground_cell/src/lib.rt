// A cell of the ground, with the blocks and caves that decide it re-exported.
#![tactic(auto)]

pub mod block;
pub mod cave;
pub mod world;
