// A floor: a whole job, laid, finished and listed.
ghost use Rattle.std.specs.Prelude.{◌≡◌, ◌≤◌, ◌++◌, length, drop, MatchResult};
ghost use Rattle.jobs.specs.Jobs.{numbers};
ghost use Rattle.ring_jobs.specs.Fitted.{fitted_job};
ghost use Rattle.ring_jobs.specs.RingJobs.{job_numbers};
ghost use Rattle.calls.specs.Limits.{usable, most_pieces};
ghost use Rattle.floors.specs.Floors.{floor_list, AllLaid, NoList, NoFloor};
ghost use Rattle.floors.specs.declared.fault.FloorFault.TheVariants.{Memory};

use crate::fault::FloorFault;
use calls::limits::MOST_PIECES;
use calls::row::Row;
use cutting::list::cutting_list;
use jobs::job::Job;
use placer::descent::Descent;
use placer::memo::Memo;
use ring_jobs::job::RingJob;
use ring_jobs::making::over;
use rings::ring::Ring;
use sheet::fault::SheetFault;
use std::alloc::{AllocError, Global};
use whole_jobs::job::{Stopped, lay_job};

// The bytes that are lent for a cutting list. They are enough: a line of a piece in a named ring has at most 42.
const MOST_BYTES: usize = 262144;

// The job over a ring. Its coefficients are small, so only memory can be wanting.
fn over_ring<R: Ring>(heap: Global, job: &Job) -> Result<RingJob<R>, FloorFault<R>>
    ensures { MatchResult result
        (λ j. job_numbers R.exact R.value j ≡ fitted_job R.exact.d (numbers job.now))
        (λ f. f ≡ Memory) }
{
    match over::<R>(heap, job) {
        Ok(over) => Ok(over),
        Err(_) => Err(FloorFault::Memory),
    }
}

// Lays the whole job over a memo, finishes it, and writes its cutting list to the text; it answers the list's length.
fn listed<R: Ring>(
    heap: Global,
    job: RingJob<R>,
    list: &mut [Row<R::Plain>],
    text: &mut [u8],
) -> Result<usize, SheetFault<R>>
    ensures { let E = R.exact in let N = job_numbers E R.value job in MatchResult result
        (λ n. AllLaid E N (usable (length list.old)) × (n ≡ length (floor_list E N)) × (n ≤ length text.old) × (text.new ≡ floor_list E N ++ drop n text.old))
        (λ f. NoList E N R.value (usable (length list.old)) (length text.old) f) }
{
    let placer = Memo::new(Descent::new(job));
    match lay_job(heap, placer, list) {
        Ok(finished) => {
            let length = cutting_list(&finished, list, text);
            let _ = finished.into_placer();
            length
        }
        Err(stopped) => {
            let Stopped { placer: _, fault } = stopped;
            Err(fault)
        }
    }
}

// The cutting list of a whole job: a line for each piece, in order.
pub fn cutting_list_of<R: Ring>(heap: Global, job: &Job) -> Result<Vec<u8>, FloorFault<R>>
    ensures { let E = R.exact in MatchResult result
        (λ text. AllLaid E (numbers job.now) most_pieces × (text.items ≡ floor_list E (numbers job.now)))
        (λ f. NoFloor E (fitted_job E.d (numbers job.now)) R.value most_pieces f) }
{
    let over = over_ring::<R>(heap, job)?;
    let empty = Row {
        descents: 0,
        laid: None,
    };
    let mut list = vec![in heap; empty; MOST_PIECES]?;
    let mut text = vec![in heap; 0; MOST_BYTES]?;
    let length = listed(heap, over, list.as_mut_slice(), text.as_mut_slice())?;
    text.truncate(length);
    Ok(text)
}
