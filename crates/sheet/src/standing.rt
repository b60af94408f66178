// How an open sheet stands.
ghost use Rattle.std.specs.Prelude.{◌≡◌};
ghost use Rattle.ring_jobs.specs.RingJobs.{job_numbers};

use crate::open::Open;
use calls::cursor::Cursor;
use placer::placer::Placer;
use ring_jobs::job::RingJob;

impl<P: Placer> Open<P> {
    // Where the cursor stands: None when nothing is left.
    pub fn cursor(&self) -> Option<Cursor>
        ensures { result ≡ self.now.cursor }
    {
        self.cursor
    }

    // How many records the list has.
    pub fn count(&self) -> usize
        ensures { result ≡ self.now.count }
    {
        self.count
    }

    // The job, as its placer has it.
    pub fn job(&self) -> &RingJob<P::R>
        ensures { job_numbers P.R.Ring.exact P.R.Ring.value result.now ≡ P.Placer.plan self.now.placer }
    {
        self.placer.job()
    }
}
