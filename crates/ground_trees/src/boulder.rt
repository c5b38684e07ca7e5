// Boulders, the second pass of terrain.rs: `ground_boulders` re-exported.
pub use ground_boulders::place_boulders;
