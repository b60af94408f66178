// A job over a ring.
ghost use Rattle.std.specs.Prelude.{[], ◌≤◌, vec_len};
ghost use Rattle.job_rows.specs.Shapes.{numbers_with};
ghost use Rattle.jobs.specs.Limits.{most_seeds};
ghost use Rattle.ring_jobs.specs.Shapes.{Branching};

use edges::rows::{Book, Placed};

// A job whose lists of coefficients have become values of a ring. It keeps the order n and the rank d that its text names:
// whether they are the ring's is judged by the check. (Numbers and no enum of named rings: a job may be laid over any ring.)
// Its type says that one can go down from each node above the depth, and that seed tiles are few enough to be numbered.
#[derive(Drop)]
pub struct RingJob<R> {
    pub order: u32,
    pub rank: usize,
    pub book: Book<R>,
    pub depth: u32,
    pub seeds: Vec<Placed<R>>,
    ghost branching: { ∥ Branching (numbers_with (λ _. []) order rank book depth seeds.items) ∥₁ },
    ghost few: { vec_len seeds ≤ most_seeds },
}
