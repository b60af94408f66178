// The rows of a job, whose elements are lists of coefficients: numbers only, with no meaning in a ring.
pub use job_rows::{Part, Step};

// An edge label, with its length as coefficients and its subdivision.
pub type Label = job_rows::Label<Vec<i64>>;

// A child or a seed tile, with its place as coefficients.
pub type Placed = job_rows::Placed<Vec<i64>>;

// A tile with its outline and its children.
pub type Tile = job_rows::Tile<Vec<i64>>;

// The factor, the labels and the tiles.
pub type Book = job_rows::Book<Vec<i64>>;
