// What is left of a finished sheet.
ghost use Rattle.std.specs.Prelude.{◌≡◌};
ghost use Rattle.ring_jobs.specs.RingJobs.{job_numbers};

use crate::open::Finished;
use placer::placer::Placer;
use ring_jobs::job::RingJob;

impl<P: Placer> Finished<P> {
    // The placer again, for another sheet.
    pub fn into_placer(self) -> P
        ensures { result ≡ self.placer }
    {
        let Finished { placer, count: _ } = self;
        placer
    }

    // How many records the list has.
    pub fn count(&self) -> usize
        ensures { result ≡ self.now.count }
    {
        self.count
    }

    // The job, as its placer has it.
    pub fn job(&self) -> &RingJob<P::R>
        ensures { job_numbers P.R.Ring.exact P.R.Ring.value result.now ≡ P.Placer.plan self.now.placer }
    {
        self.placer.job()
    }
}
