// Whole jobs, laid and read: the sweeps are those that a model in another language adds up over its own pieces.
use crate::replanted::job_of;
use calls::row::Row;
use gaussian::Gaussian;
use meters::sweeping::SweepMeter;
use placer::descent::Descent;
use placer::memo::Memo;
use refusals::Fault;
use rings::ring::Ring;
use std::alloc::Global;
use std::process::Abort;
use std::test::Fail;
use tenfold::Tenfold;
use vectors::books::{CHAIR, PENROSE};
use whole_jobs::job::Stopped;
use whole_jobs::measured::{Measured, lay_and_read};

// Lays the seeds over a book in a list of so many places: how many rows are in the list at the end, and the sweep or the refusal's number.
fn swept<R: Ring>(
    heap: Global,
    book: &str,
    seeds: &str,
    places: usize,
) -> Result<(usize, Result<R::Sweep, Option<u8>>), Fail> {
    let empty = Row {
        descents: 0,
        laid: None,
    };
    let mut list = vec![in heap; empty; places]?;
    let placer = Memo::new(Descent::new(job_of::<R>(heap, book, seeds)?));
    let sweep = match lay_and_read(heap, placer, &SweepMeter, list.as_mut_slice()) {
        Ok(Measured { sheet, reading }) => {
            let _ = sheet.into_placer();
            Ok(reading)
        }
        Err(Stopped { placer: _, fault }) => Err(fault.number()),
    };
    let rows = list.iter().filter(|row| row.laid.is_some()).count();
    Ok((rows, sweep))
}

fn sweeps_over<R: Ring>(
    rt: &impl Abort,
    heap: Global,
    job: (&str, &str),
    pieces: usize,
    sweep: &[i64],
) -> Result<(), Fail> {
    let (rows, read) = swept::<R>(heap, job.0, job.1, 512)?;
    let read = read.map_err(|_| Fail::new("refused"))?;
    assert!(rt; rows == pieces);
    for (k, c) in sweep.iter().enumerate() {
        assert!(rt; R::sweep_coefficient(read, k) == *c);
    }
    Ok(())
}

#[test]
fn whole_jobs_read_as_their_seeds(rt: HostRuntime) -> Result<(), Fail> {
    sweeps_over::<Gaussian>(
        &rt,
        rt.alloc(),
        (CHAIR, "D 3\nP 0 0 0 0 0\nP 0 1 1 5 -3\n"),
        128,
        &[0, 1536],
    )?;
    sweeps_over::<Tenfold>(
        &rt,
        rt.alloc(),
        (
            PENROSE,
            "D 4\nP 0 0 0 0 0 0 0\nP 1 3 0 1 0 0 0\nP 0 7 1 0 2 0 -1\nP 1 5 1 3 -1 0 2\n",
        ),
        178,
        &[-110, 220, 68, 288],
    )
}

#[test]
fn a_short_list_is_filled_and_refused(rt: HostRuntime) -> Result<(), Fail> {
    let (rows, read) = swept::<Gaussian>(rt.alloc(), CHAIR, "D 1\nP 0 0 0 0 0\n", 3)?;
    assert!(rt; rows == 3);
    assert!(rt; read.err() == Some(Some(9)));
    Ok(())
}

// Over the other ring nothing is laid.
#[test]
fn the_wrong_ring_is_refused(rt: HostRuntime) -> Result<(), Fail> {
    let (rows, read) = swept::<Tenfold>(rt.alloc(), CHAIR, "D 1\nP 0 0 0 0 0\n", 8)?;
    assert!(rt; rows == 0);
    assert!(rt; read.err() == Some(Some(13)));
    Ok(())
}
