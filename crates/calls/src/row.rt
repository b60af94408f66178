// The rows of a caller's piece list.
use job_rows::Placed;

// A record: the descents since the start or the record before it and, for a laid piece, where it lies; None for a node set aside.
// Plain data: the place's coefficients have no bound here, and become a position only after a check.
#[derive(Clone, Copy)]
pub struct Row<C> {
    pub descents: u8,
    pub laid: Option<Placed<C>>,
}
