// Where a cursor goes.
ghost use Rattle.std.specs.Prelude.{◌≡◌, ◌+◌};
ghost use Rattle.chains.specs.Addresses.{seed_on, advance, child_address};
ghost use Rattle.jobs.specs.Limits.{most_depth};
ghost use Rattle.nodes.specs.Views.{address_view};
ghost use Rattle.ring_jobs.specs.RingJobs.{job_numbers};
ghost use Rattle.std.specs.Prelude.{MatchOption};
ghost use Rattle.calls.specs.Sheets.{come_to};
ghost use Rattle.calls.specs.Views.{cursor_view, cursor_at};

use crate::cursor::Cursor;
use nodes::address::Address;
use nodes::advancing::{advanced, first_seed};
use ring_jobs::job::RingJob;
use rings::ring::Ring;

impl Cursor {
    // At a node, with no descent yet.
    pub fn at(node: Address) -> Cursor
        ensures { (address_view result.node ≡ address_view node) × (result.descents ≡ 0) }
    {
        Cursor { node, descents: 0 }
    }

    // At a job's first seed tile.
    pub fn first<R: Ring>(job: &RingJob<R>) -> Option<Cursor>
        ensures { cursor_at result ≡ come_to (seed_on (job_numbers R.exact R.value job.now) 0) }
    {
        first_seed(job).map(Cursor::at)
    }

    // At the next node after this one.
    pub fn advanced<R: Ring>(&self, job: &RingJob<R>) -> Option<Cursor>
        ensures { cursor_at result ≡ come_to (advance (job_numbers R.exact R.value job.now) (address_view self.now.node)) }
    {
        advanced(job, &self.node).map(Cursor::at)
    }

    // At the first child of its node; None below the last level that a path has room for.
    pub fn descended(&self) -> Option<Cursor>
        ensures { MatchOption result
            (self.now.node.level ≡ most_depth)
            (λ c. (address_view c.node ≡ child_address (address_view self.now.node) 0) × (c.descents ≡ self.now.descents + 1)) }
    {
        let node = self.node.first_child()?;
        Some(Cursor {
            node,
            descents: self.descents + 1,
        })
    }
}
