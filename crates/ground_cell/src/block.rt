// Block ids, and which block a cell below the surface is: `ground_blocks` re-exported.
pub use ground_blocks::{
    AIR, DIRT, GRASS, GRAVEL, LEAVES, LOG, SAND, SNOW, STONE, WATER, gap, select_block,
};
