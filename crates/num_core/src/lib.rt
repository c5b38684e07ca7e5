// Numbers: floor of an f32 here; `num_float` and `num_wrap` re-exported.
#![tactic(auto)]

pub mod float;
pub mod wrap;
