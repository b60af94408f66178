// Rows over a ring. Labels and tiles go by their numbers, directions and turns by n-ths of a circle.
pub use job_rows::{Book, Label, Part, Placed, Step, Tile};

// A label in a direction from a start.
#[derive(Debug, Clone, Copy, PartialEq)]
pub struct Edge<R> {
    pub label: usize,
    pub direction: u32,
    pub start: R,
}

// An edge that is counted by +1, or by -1 where it is taken back.
#[derive(Debug, Clone, Copy, PartialEq)]
pub struct Counted<R> {
    pub edge: Edge<R>,
    pub back: bool,
}

// What a step counts, and where it ends.
#[derive(Debug, Clone, Copy, PartialEq)]
pub struct Stepped<R> {
    pub counted: Counted<R>,
    pub end: R,
}
