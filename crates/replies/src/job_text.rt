// From a job's text to what is printed for it.
ghost use Rattle.std.specs.Prelude.{◌≡◌, ℕ, true, false, MatchResult};
ghost use Rattle.jobs.specs.Jobs.{numbers};
ghost use Rattle.jobs.specs.Ranges.{InRange};
ghost use Rattle.ring_jobs.specs.RingJobs.{OfTheRing};
ghost use Rattle.replies.specs.Replies.{refused_line, Tells, JobReply, TextReply};

use floors::floor::cutting_list_of;
use gaussian::Gaussian;
use jobs::job::Job;
use jobs::reading::read;
use jobs::ring::NamedRing;
use refusals::Fault;
use rings::sizes::SmallRing;
use std::alloc::{AllocError, Global};
use tenfold::Tenfold;

// What is printed for a text.
#[derive(Drop)]
pub struct Reply {
    pub text: Vec<u8>,
    // Whether it tells a refusal; else it is a cutting list.
    pub refused: bool,
}

// The line of a refusal; want of memory has none.
fn refusal<F: Fault>(heap: Global, fault: &F) -> Result<Reply, AllocError>
    ensures { MatchResult result
        (λ r. (r.refused ≡ true) × ((n p : ℕ) × Tells (F.refusal fault.now) n p × (r.text.items ≡ refused_line n p)))
        (λ _. Unit {0}) }
{
    let place = fault.place();
    match fault.number() {
        Some(number) => {
            let line = format!(in heap; "refused {number} {place}\n")?;
            Ok(Reply {
                text: line.into_bytes(),
                refused: true,
            })
        }
        None => Err(AllocError),
    }
}

// The reply to a job, over the ring that it names.
fn reply_over<R: SmallRing>(heap: Global, job: &Job) -> Result<Reply, AllocError>
    requires ring { OfTheRing R.Ring.exact (numbers job.now) }
    requires range { InRange (numbers job.now) }
    ensures { MatchResult result
        (λ r. JobReply R.Ring.exact (numbers job.now) R.Ring.value r.refused r.text.items)
        (λ _. Unit {0}) }
{
    match cutting_list_of::<R>(heap, job) {
        Ok(text) => Ok(Reply {
            text,
            refused: false,
        }),
        Err(fault) => refusal(heap, &fault),
    }
}

// The reply to a text: the cutting list of the job that it spells, or the line of its refusal. Refused by memory alone.
pub fn reply_to(heap: Global, text: &[u8]) -> Result<Reply, AllocError>
    ensures { MatchResult result (λ r. TextReply text.now r.refused r.text.items) (λ _. Unit {0}) }
{
    match read(heap, text) {
        Ok(job) => match job.ring {
            NamedRing::Gaussian => reply_over::<Gaussian>(heap, &job),
            NamedRing::Tenfold => reply_over::<Tenfold>(heap, &job),
        },
        Err(fault) => refusal(heap, &fault),
    }
}
