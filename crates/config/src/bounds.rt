// The limits by name; include/perillahinge.h has those that a host needs. (`limits` is the function that tests them.)

// The cells of a chunk along an axis, at most.
pub const SIZE_MOST: usize = 64;

// The columns of a chunk, at most.
pub const COLUMNS_MOST: usize = SIZE_MOST * SIZE_MOST;

pub const SEED_MOST: i64 = 10000000;

pub const SEA_LEAST: i64 = -4096;

pub const SEA_MOST: i64 = 4096;

// World height, in blocks.
pub const HEIGHT_LEAST: i64 = 2;

pub const HEIGHT_MOST: i64 = 4096;

// Between these the cells of a chunk lie along an axis.
pub const PLACE_LEAST: i64 = -1000000;

pub const PLACE_MOST: i64 = 1000000;

// The ids, of which the greatest is one less; a batch's id is taken modulo their number.
pub const IDS: u32 = 65536;

pub const ID_MOST: u64 = 65535;

// The bytes of a journal, at most.
pub const JOURNAL_MOST: usize = 32768;

// The edits that are active, at most.
pub const ACTIVE_MOST: usize = 256;

// The groups of a session's batch, at most.
pub const GROUPS_MOST: usize = 16;

// The numbers of a journal's line, at most: a batch's has one for the groups and four for each of them.
pub const NUMBERS_MOST: usize = 1 + 4 * GROUPS_MOST;

// The bytes of a checkpoint's name, at most.
pub const NAME_MOST: usize = 16;

// The names of a journal's checkpoints, at most.
pub const NAMES_MOST: usize = 16;
