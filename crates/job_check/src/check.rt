// Whether a job may be used.
ghost use Rattle.std.specs.Prelude.{◌≡◌, MatchResult};
ghost use Rattle.jobs.specs.Jobs.{numbers};
ghost use Rattle.ring_jobs.specs.RingJobs.{job_numbers};
ghost use Rattle.job_check.specs.Checks.{Passes, Fails, Judged, NotUsable};

use crate::fault::CheckFault;
use book::check::check;
use jobs::job::Job;
use ring_jobs::job::RingJob;
use ring_jobs::making::over;
use rings::ring::Ring;
use rings::sizes::SmallRing;
use std::alloc::Global;

// The check of a job over a ring: 13 where the ring's n or d is not the job's, and then the check of its book.
pub fn check_job<R: Ring>(heap: Global, job: &RingJob<R>) -> Result<(), CheckFault<R>>
    ensures { MatchResult result
        (λ _. Passes R.exact (job_numbers R.exact R.value job.now))
        (Fails R.exact (job_numbers R.exact R.value job.now) R.value) }
{
    if job.order != R::N {
        return Err(CheckFault::WrongRing);
    }
    if job.rank != R::D {
        return Err(CheckFault::WrongRing);
    }
    check(heap, &job.book)?;
    Ok(())
}

// A job that was read, over a ring whose operations enlarge coefficients little, where its book is accepted.
// A job's coefficients are small, so no value leaves the plane: exactly the accepted books pass.
pub fn judged<R: SmallRing>(heap: Global, job: &Job) -> Result<RingJob<R>, CheckFault<R>>
    ensures { MatchResult result
        (λ j. (job_numbers R.Ring.exact R.Ring.value j ≡ numbers job.now) × Judged R.Ring.exact (numbers job.now))
        (NotUsable R.Ring.exact (numbers job.now) R.Ring.value) }
{
    let over = over(heap, job)?;
    check_job(heap, &over)?;
    Ok(over)
}
