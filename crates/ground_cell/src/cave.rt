// Where the ground is hollow: `cave_plain` re-exported.
pub use cave_plain::{cave, ravine_with};
