// Runs of calls through the call whose contract holds the law of conservation.
use crate::replanted::job_of;
use calls::row::Row;
use conservation::answer::Answer;
use conservation::call::Call;
use conservation::law::Ended;
use conservation::memoized::perform_over_memo;
use edges::rows::Edge;
use gaussian::Gaussian;
use meters::count::Count;
use meters::meter::Meter;
use meters::sweeping::SweepMeter;
use meters::watch::Watch;
use placer::descent::Descent;
use placer::memo::Memo;
use refusals::Fault;
use rings::ring::Ring;
use sheet::open::{Unfinished, Unstarted};
use std::alloc::Global;
use std::process::Abort;
use std::test::Fail;
use tenfold::Tenfold;
use vectors::books::{CHAIR, PENROSE};

const ONE_CHAIR: &str = "D 1\nP 0 0 0 0 0\n";

// Descend, lay, lay and set aside, saved.
const CHAIR_FILE: &[u8] = &[
    1, 0, 3, 1, 0, 0, 0, 0, 0, 0, 0, 0, 0, 0, 0, 0, 0, 0, 1, 0, 0, 0, 1, 16, 0,
];

// What calls answered: the number of a refusal, a file's length, or 0.
fn told<R>(answer: &Answer<R>) -> usize {
    match answer {
        Answer::Went | Answer::Laid(_) => 0,
        Answer::Saved(bytes) => *bytes,
        Answer::Refused(fault) => fault.number().map_or(99, usize::from),
    }
}

// The count of a finished run's records and its reading; the sheet is given up.
fn end<R: Ring, V>(ended: Ended<Memo<Descent<R>>, V>) -> (Option<usize>, Option<V>) {
    let Ended { sheet, reading } = ended;
    match sheet {
        Ok(finished) => {
            let count = finished.count();
            let _ = finished.into_placer();
            (Some(count), reading)
        }
        Err(Unfinished { sheet, fault: _ }) => {
            let _ = sheet.into_placer();
            (None, reading)
        }
    }
}

// Makes the calls on one job, checks what they answered, and answers how many records there are at the end and what is read.
fn made<R: Ring, M: Meter<R>>(
    rt: &impl Abort,
    heap: Global,
    job: (&str, &str),
    meter: &M,
    calls: &[Call],
    answers: &[usize],
) -> Result<(Option<usize>, Option<M::Value>), Fail> {
    let (book, tail) = job;
    let empty = Row {
        descents: 0,
        laid: None,
    };
    let mut list = vec![in heap; empty; 8]?;
    let mut buffer = vec![in heap; 0; 64]?;
    let mut places = vec![in heap; Answer::Went; 16]?;
    let over = job_of::<R>(heap, book, tail)?;
    let run = perform_over_memo(
        heap,
        over,
        meter,
        calls,
        list.as_mut_slice(),
        buffer.as_mut_slice(),
        places.as_mut_slice(),
    );
    match run {
        Ok(ended) => {
            let end = end(ended);
            for (place, answer) in places.iter().zip(answers) {
                assert!(rt; told(place) == *answer);
            }
            Ok(end)
        }
        Err(
            Unstarted {
                placer: _,
                fault: _,
            },
        ) => Err(Fail::new("not started")),
    }
}

// Four chairs sweep over what one chair inflated once does: 48.
#[test]
fn a_whole_chair_reads_as_its_seed(rt: HostRuntime) -> Result<(), Fail> {
    let calls = [
        Call::Descend,
        Call::Lay,
        Call::Lay,
        Call::Save,
        Call::Descend,
        Call::Lay,
        Call::Lay,
        Call::Lay,
    ];
    let (count, reading) = made::<Gaussian, SweepMeter>(
        &rt,
        rt.alloc(),
        (CHAIR, ONE_CHAIR),
        &SweepMeter,
        &calls,
        &[0, 0, 0, 24, 10, 0, 0, 11],
    )?;
    let swept = reading.ok_or("not read")?;
    assert!(rt; count == Some(4));
    assert!(rt; Gaussian::sweep_coefficient(swept, 0) == 0);
    assert!(rt; Gaussian::sweep_coefficient(swept, 1) == 48);
    Ok(())
}

// Penrose's tile 0, unmirrored, inflated once.
#[test]
fn a_whole_penrose_tile_reads_as_its_seed(rt: HostRuntime) -> Result<(), Fail> {
    let calls = [Call::Descend, Call::Lay, Call::Lay, Call::Lay];
    let (count, reading) = made::<Tenfold, SweepMeter>(
        &rt,
        rt.alloc(),
        (PENROSE, "D 1\nP 0 0 0 0 0 0 0\n"),
        &SweepMeter,
        &calls,
        &[0, 0, 0, 0],
    )?;
    let swept = reading.ok_or("not read")?;
    assert!(rt; count == Some(3));
    for (k, c) in [-2, 4, 1, 5].iter().enumerate() {
        assert!(rt; Tenfold::sweep_coefficient(swept, k) == *c);
    }
    Ok(())
}

// A resumed sheet goes on where the file's calls end: three chairs are laid, and one is set aside.
#[test]
fn a_resumed_chair_goes_on(rt: HostRuntime) -> Result<(), Fail> {
    let calls = [
        Call::Descend,
        Call::Resume(CHAIR_FILE),
        Call::Resume(&[1]),
        Call::Save,
        Call::Lay,
    ];
    let (count, reading) = made::<Gaussian, SweepMeter>(
        &rt,
        rt.alloc(),
        (CHAIR, ONE_CHAIR),
        &SweepMeter,
        &calls,
        &[0, 0, 12, 25, 0],
    )?;
    let swept = reading.ok_or("not read")?;
    assert!(rt; count == Some(4));
    assert!(rt; Gaussian::sweep_coefficient(swept, 1) == 36);
    Ok(())
}

// What a watch reads of one edge, from (x, y) to the right, over the whole chair cut once.
fn watched(rt: &impl Abort, heap: Global, x: i64, y: i64) -> Result<i64, Fail> {
    let start = Gaussian::make(&[x, y]).map_err(|_| Fail::new("off the plane"))?;
    let edge = Edge {
        label: 0,
        direction: 0,
        start,
    };
    let calls = [Call::Descend, Call::Lay, Call::Lay, Call::Lay, Call::Lay];
    let (_, reading) = made::<Gaussian, Watch<Gaussian>>(
        rt,
        heap,
        (CHAIR, ONE_CHAIR),
        &Watch { edge },
        &calls,
        &[0, 0, 0, 0, 0],
    )?;
    let Count { at } = reading.ok_or("not read")?;
    Ok(at)
}

// An edge on the rim counts 1, one between two chairs 0.
#[test]
fn inner_edges_cancel(rt: HostRuntime) -> Result<(), Fail> {
    assert!(rt; watched(&rt, rt.alloc(), 0, 0)? == 1);
    assert!(rt; watched(&rt, rt.alloc(), 1, 1)? == 0);
    Ok(())
}
