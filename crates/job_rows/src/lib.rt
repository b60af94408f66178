// The rows of a rule book and of its job, whatever stands for an element: a list of coefficients, as a text gives it, or a value of
// a ring. Labels and tiles go by their numbers, directions and turns by n-ths of a circle.
#![tactic(auto)]

ghost use Rattle.std.specs.Prelude.{◌≤◌, vec_len};
ghost use Rattle.job_rows.specs.Limits.{most_parts, most_steps, most_children};

// A label with a sense, in a subdivision.
#[derive(Debug, Clone, Copy, PartialEq, Eq)]
pub struct Part {
    pub label: usize,
    pub forward: bool,
}

// A step of an outline: a label with a sense, and a direction in parts of a turn.
#[derive(Debug, Clone, Copy, PartialEq, Eq)]
pub struct Step {
    pub label: usize,
    pub forward: bool,
    pub direction: u32,
}

// A tile by its number, mirrored first where the mark says so, then turned, then brought to a place: a child, or a seed tile.
#[derive(Clone, Copy, Drop)]
pub struct Placed<E> {
    pub tile: usize,
    pub turn: u32,
    pub mirrored: bool,
    pub place: E,
}

// An edge label: its length, whether it is arrowed, and what an edge of it becomes when inflated.
#[derive(Drop)]
pub struct Label<E> {
    pub arrowed: bool,
    pub length: E,
    pub subdivision: Vec<Part>,
    ghost short: { vec_len subdivision ≤ most_parts },
}

// A tile: its outline from 0, and the children that it is cut into when inflated.
#[derive(Drop)]
pub struct Tile<E> {
    pub outline: Vec<Step>,
    pub children: Vec<Placed<E>>,
    ghost few: { vec_len outline ≤ most_steps },
    ghost family: { vec_len children ≤ most_children },
}

// A rule book: the inflation factor, the labels and the tiles.
#[derive(Drop)]
pub struct Book<E> {
    pub factor: E,
    pub labels: Vec<Label<E>>,
    pub tiles: Vec<Tile<E>>,
}
