// The placer that goes down from the seed at each question. It remembers nothing.
ghost use Rattle.std.specs.Prelude.{◌≡◌, refl};
ghost use Rattle.ring_jobs.specs.RingJobs.{job_numbers};
ghost use Rattle.ring_jobs.proofs.Branches.{branching};

use crate::placer::Placer;
use edges::rows::Placed;
use nodes::address::Address;
use nodes::fault::PlaceFault;
use nodes::placing::placement;
use ring_jobs::job::RingJob;
use rings::ring::Ring;

#[derive(Drop)]
pub struct Descent<R: Ring> {
    job: RingJob<R>,
}

impl<R: Ring> Descent<R> {
    pub fn new(job: RingJob<R>) -> Self
        ensures { result.job ≡ job }
    {
        Descent { job }
    }

    pub fn into_job(self) -> RingJob<R>
        ensures { result ≡ self.job }
    {
        let Descent { job } = self;
        job
    }
}

impl<R: Ring> Placer for Descent<R> {
    type R = R;

    ghost plan = { λ d. job_numbers R.Ring.exact R.Ring.value d.job };

    ghost sound = { λ _. Unit {0} };

    ghost branching = { λ d. branching R.Ring.exact R.Ring.value d.job };

    ghost soundable = { λ p. ∣ (p, (tt, refl)) ∣₁ };

    fn job(&self) -> &RingJob<R> {
        &self.job
    }

    fn place(&mut self, at: &Address) -> Result<Placed<R>, PlaceFault> {
        placement(&self.job, at)
    }
}
