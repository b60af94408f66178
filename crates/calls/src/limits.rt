// The limit of a piece list.

// Records of a sheet: places of a list beyond these are never used.
pub const MOST_PIECES: usize = 4096;
