// The limits of a job and of its text.
// bytes of a text
pub const MOST_BYTES: usize = 16384;
// the size of a coefficient, either way
pub const MOST_SIZE: u64 = 32;

pub const MOST_LABELS: usize = 8;
// labels in a subdivision
pub const MOST_PARTS: usize = 8;
// steps of an outline
pub const LEAST_STEPS: usize = 3;

pub const MOST_STEPS: usize = 12;

pub const MOST_TILES: usize = 8;
// children of one tile
pub const MOST_CHILDREN: usize = 16;

pub const MOST_DEPTH: u32 = 12;

pub const MOST_SEEDS: usize = 16;
