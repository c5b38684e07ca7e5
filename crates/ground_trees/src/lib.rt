// Trees, and the boulders of `ground_boulders` re-exported: what is put on the laid ground.
#![tactic(auto)]

pub mod boulder;
pub mod tree;
