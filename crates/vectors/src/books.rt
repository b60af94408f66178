// The texts of jobs, each with a book that the cases work over.

// One chair, cut into four.
pub const CHAIR: &str = concat!(
    "R 4\nI 2 0\nL 0 1 0\nS 0 1 0 1\n",
    "T 0 1 0 0 1 0 0 1 1 0 1 2 0 1 1 0 1 2 0 1 3 0 1 3\n",
    "C 0 0 0 0 0\nC 0 0 0 1 1\nC 0 1 0 4 0\nC 0 3 0 0 4\n",
    "D 1\nP 0 0 0 0 0\n",
);

// Penrose's half kite.
pub const PENROSE: &str = concat!(
    "R 10\nI 1 0 1 -1\nL 1 1 0 1 -1\nL 1 1 0 0 0\nS 0 1 1 1\nS 0 1\n",
    "T 0 0 0 1 1 3 0 0 6\nC 0 4 1 2 0 1 -1\nC 0 4 0 2 0 1 -1\nC 1 1 1 0 0 0 0\n",
    "T 0 1 0 1 1 4 1 1 6\nC 0 1 1 0 0 0 0\nC 1 4 0 2 0 1 -1\n",
    "D 1\nP 0 0 0 0 0 0 0\n",
);

// A square of side 1, cut into sixteen when enlarged fourfold, with a seed so far out that its descendants leave the plane.
pub const FAR_SQUARE: &str = concat!(
    "R 4\nI 4 0\nL 0 1 0\nS 0 1 0 1 0 1 0 1\nT 0 1 0 0 1 1 0 1 2 0 1 3\n",
    "C 0 0 0 0 0\nC 0 0 0 1 0\nC 0 0 0 2 0\nC 0 0 0 3 0\n",
    "C 0 0 0 0 1\nC 0 0 0 1 1\nC 0 0 0 2 1\nC 0 0 0 3 1\n",
    "C 0 0 0 0 2\nC 0 0 0 1 2\nC 0 0 0 2 2\nC 0 0 0 3 2\n",
    "C 0 0 0 0 3\nC 0 0 0 1 3\nC 0 0 0 2 3\nC 0 0 0 3 3\n",
    "D 12\nP 0 0 0 16 0\n",
);
