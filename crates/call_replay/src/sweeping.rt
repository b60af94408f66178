// What the laid pieces of a finished sheet sweep over, read off their edges.
use crate::replay::tell_refused;
use calls::row::Row;
use meters::rows::reading_of_rows;
use meters::sweeping::SweepMeter;
use placer::placer::Placer;
use ring_jobs::job::RingJob;
use rings::ring::Ring;
use sheet::open::{Open, Unfinished};
use std::fmt;
use std::fmt::Display;

// A sweep's coefficients, spaced singly.
#[derive(Drop)]
struct Swept<R: Ring>(R::Sweep);

impl<R: Ring> Display for Swept<R> {
    fn fmt<W: fmt::Write>(&self, f: &mut fmt::Formatter<W>) -> fmt::Result {
        for k in 0..R::D {
            if k > 0 {
                write!(f, " ")?;
            }
            let c = R::sweep_coefficient(self.0, k);
            write!(f, "{c}")?;
        }
        Ok(())
    }
}

fn tell_swept<R: Ring>(
    rt: &HostRuntime,
    job: &RingJob<R>,
    list: &[Row<R::Plain>],
    count: usize,
) -> anyhow::Result<()> {
    match reading_of_rows(job, &SweepMeter, list, count) {
        Ok(sweep) => {
            let swept = Swept::<R>(sweep);
            println!(rt; "swept: {swept}")?;
            Ok(())
        }
        Err(fault) => tell_refused(rt, &fault),
    }
}

// Finishes a sheet of which nothing is left, and tells what its pieces sweep over; with a node pending nothing is told.
pub(crate) fn tell_finished<P: Placer>(
    rt: &HostRuntime,
    sheet: Open<P>,
    list: &[Row<<P::R as Ring>::Plain>],
) -> (P, anyhow::Result<()>) {
    match sheet.finish() {
        Ok(finished) => {
            let told = tell_swept(rt, finished.job(), list, finished.count());
            (finished.into_placer(), told)
        }
        Err(Unfinished { sheet, fault: _ }) => (sheet.into_placer(), Ok(())),
    }
}
