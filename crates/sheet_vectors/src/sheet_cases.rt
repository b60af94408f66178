// Sheets: what they lay and print, and what they refuse.
use crate::replanted::{job_of, text_of};
use calls::row::Row;
use cutting::list::cutting_list;
use floors::fault::FloorFault;
use floors::floor::cutting_list_of;
use gaussian::Gaussian;
use jobs::reading::read;
use placer::descent::Descent;
use placer::memo::Memo;
use refusals::Fault;
use rings::ring::Ring;
use rings::rows::{Coefficients, Row as Plain};
use sheet::fault::SheetFault;
use sheet::open::{Finished, Open, Unfinished, Unstarted};
use std::alloc::Global;
use std::process::Abort;
use std::test::Fail;
use tenfold::Tenfold;
use vectors::books::{CHAIR, FAR_SQUARE, PENROSE};
use whole_jobs::laying::lay_all;

// A job's depth, and of its cutting list the number of lines and the bytes' FNV-1a sum of 64 bits, as a model in another language has them.
type Listed = (&'static str, usize, u64);

const PENROSE_SEEDS: &str =
    "P 0 0 0 0 0 0 0\nP 1 3 0 1 0 0 0\nP 0 7 1 0 2 0 -1\nP 1 5 1 3 -1 0 2\n";

const PENROSE_LISTS: [Listed; 7] = [
    ("D 0\n", 4, 0x8fae3b53e3a8ff8a),
    ("D 1\n", 10, 0xd79a0e6162448daf),
    ("D 2\n", 26, 0x89f02ace1d7dc750),
    ("D 3\n", 68, 0xda06a7450cd93190),
    ("D 4\n", 178, 0x3001887c2cae36b7),
    ("D 5\n", 466, 0x1c189a2621af4d3f),
    ("D 6\n", 1220, 0x0910e67a372e4e3f),
];

const CHAIR_SEEDS: &str = "P 0 0 0 0 0\nP 0 1 1 5 -3\n";

const CHAIR_LISTS: [Listed; 6] = [
    ("D 0\n", 2, 0xe52b5c1460a24698),
    ("D 1\n", 8, 0x7a0548569d5c8995),
    ("D 2\n", 32, 0x01474890d7b9bd3f),
    ("D 3\n", 128, 0x04f8c020a972eb94),
    ("D 4\n", 512, 0x5eccff785f7446b0),
    ("D 5\n", 2048, 0x673d6749b9abbc7d),
];

fn sum_of(bytes: &[u8]) -> u64 {
    let mut sum: u64 = 0xcbf29ce484222325;
    for b in bytes {
        sum = (sum ^ u64::from(*b)).wrapping_mul(0x100000001b3);
    }
    sum
}

fn lines_of(bytes: &[u8]) -> usize {
    bytes.iter().filter(|b| **b == b'\n').count()
}

// The cutting list of a book with another depth and other seeds.
fn list_of<R: Ring>(
    heap: Global,
    book: &str,
    depth: &str,
    seeds: &str,
) -> Result<Result<Vec<u8>, FloorFault<R>>, Fail> {
    let mut tail = String::new(heap);
    tail.push_str(depth)?;
    tail.push_str(seeds)?;
    let text = text_of(heap, book, tail.as_str())?;
    let job = read(heap, text.as_bytes())?;
    Ok(cutting_list_of::<R>(heap, &job))
}

fn listed<R: Ring>(
    rt: &impl Abort,
    heap: Global,
    book: &str,
    seeds: &str,
    lists: &[Listed],
) -> Result<(), Fail> {
    for (depth, lines, sum) in lists {
        let list = list_of::<R>(heap, book, depth, seeds)?.map_err(|_| Fail::new("refused"))?;
        assert!(rt; lines_of(list.as_slice()) == *lines);
        assert!(rt; sum_of(list.as_slice()) == *sum);
    }
    Ok(())
}

#[test]
fn whole_jobs_are_listed_as_computed(rt: HostRuntime) -> Result<(), Fail> {
    listed::<Gaussian>(&rt, rt.alloc(), CHAIR, CHAIR_SEEDS, &CHAIR_LISTS)?;
    listed::<Tenfold>(&rt, rt.alloc(), PENROSE, PENROSE_SEEDS, &PENROSE_LISTS)
}

#[test]
fn the_chair_is_cut_into_four(rt: HostRuntime) -> Result<(), Fail> {
    let list = list_of::<Gaussian>(rt.alloc(), CHAIR, "D 1\n", "P 0 0 0 0 0\n")?.map_err(
        |_| Fail::new("refused"),
    )?;
    assert!(rt; list.as_slice() == b"0 0 0 0 0\n0 0 0 1 1\n0 1 0 4 0\n0 3 0 0 4\n".as_slice());
    Ok(())
}

#[test]
fn one_chair_fills_all_places_at_depth_six(rt: HostRuntime) -> Result<(), Fail> {
    let list = list_of::<Gaussian>(rt.alloc(), CHAIR, "D 6\n", "P 0 0 0 0 0\n")?.map_err(
        |_| Fail::new("refused"),
    )?;
    assert!(rt; lines_of(list.as_slice()) == 4096);
    let fault = list_of::<Gaussian>(rt.alloc(), CHAIR, "D 7\n", "P 0 0 0 0 0\n")?
        .err()
        .ok_or("laid")?;
    assert!(rt; fault.number() == Some(9) && fault.place() == 0);
    Ok(())
}

// ---- single calls
type Placer = Memo<Descent<Gaussian>>;

type Rows = Vec<Row<Plain<2>>>;

fn empty_list(heap: Global, places: usize) -> Result<Rows, Fail> {
    let empty = Row {
        descents: 0,
        laid: None,
    };
    Ok(vec![in heap; empty; places]?)
}

fn sheet_of(heap: Global, book: &str, tail: &str) -> Result<Open<Placer>, Fail> {
    let placer = Memo::new(Descent::new(job_of(heap, book, tail)?));
    match Open::start(heap, placer) {
        Ok(sheet) => Ok(sheet),
        Err(
            Unstarted {
                placer: _,
                fault: _,
            },
        ) => Err(Fail::new("not started")),
    }
}

// The number of a refusal, none where the call was accepted.
fn refusal(answer: Result<(), SheetFault<Gaussian>>) -> Option<u8> {
    answer.err().and_then(|f| f.number())
}

fn lay(sheet: &mut Open<Placer>, list: &mut Rows) -> Option<u8> {
    refusal(sheet.lay(list.as_mut_slice()).map(|_| ()))
}

fn set_aside(sheet: &mut Open<Placer>, list: &mut Rows) -> Option<u8> {
    refusal(sheet.set_aside(list.as_mut_slice()))
}

// One chair cut once: each refusal in its place, and nothing is changed by it.
fn refused_in_order(rt: &impl Abort, heap: Global, sheet: &mut Open<Placer>) -> Result<(), Fail> {
    let mut none = empty_list(heap, 0)?;
    let mut list = empty_list(heap, 4)?;
    assert!(rt; lay(sheet, &mut none) == Some(10));
    assert!(rt; set_aside(sheet, &mut none) == Some(9));
    assert!(rt; refusal(sheet.descend()) == None);
    assert!(rt; refusal(sheet.descend()) == Some(10));
    assert!(rt; lay(sheet, &mut none) == Some(9));
    assert!(rt; sheet.count() == 0);
    assert!(rt; lay(sheet, &mut list) == None && lay(sheet, &mut list) == None);
    assert!(rt; set_aside(sheet, &mut list) == None && lay(sheet, &mut list) == None);
    assert!(rt; sheet.count() == 4 && sheet.cursor().is_none());
    assert!(rt; refusal(sheet.descend()) == Some(11));
    assert!(rt; lay(sheet, &mut none) == Some(11));
    assert!(rt; set_aside(sheet, &mut none) == Some(11));
    Ok(())
}

#[test]
fn calls_are_refused_in_order(rt: HostRuntime) -> Result<(), Fail> {
    let mut sheet = sheet_of(rt.alloc(), CHAIR, "D 1\nP 0 0 0 0 0\n")?;
    let done = refused_in_order(&rt, rt.alloc(), &mut sheet);
    let _ = sheet.into_placer();
    done
}

// A square whose seed lies so far out that a node eight levels down is off the plane: it can be set aside, and not laid.
fn beyond_the_plane(rt: &impl Abort, heap: Global, sheet: &mut Open<Placer>) -> Result<(), Fail> {
    let mut none = empty_list(heap, 0)?;
    let mut list = empty_list(heap, 1)?;
    for _ in 0..8 {
        assert!(rt; refusal(sheet.descend()) == None);
    }
    assert!(rt; lay(sheet, &mut none) == Some(9));
    assert!(rt; lay(sheet, &mut list) == Some(8));
    assert!(rt; set_aside(sheet, &mut list) == None);
    Ok(())
}

#[test]
fn nodes_off_the_plane_are_not_laid(rt: HostRuntime) -> Result<(), Fail> {
    let mut sheet = sheet_of(rt.alloc(), FAR_SQUARE, "D 8\nP 0 0 0 16 0\n")?;
    let done = beyond_the_plane(&rt, rt.alloc(), &mut sheet);
    let _ = sheet.into_placer();
    done
}

// ---- a finished sheet's list, altered behind its back
fn finished(heap: Global, list: &mut Rows) -> Result<Finished<Placer>, Fail> {
    let mut sheet = sheet_of(heap, CHAIR, "D 1\nP 0 0 0 0 0\n")?;
    let _ = lay_all(&mut sheet, list.as_mut_slice());
    match sheet.finish() {
        Ok(finished) => Ok(finished),
        Err(Unfinished { sheet, fault: _ }) => {
            let _ = sheet.into_placer();
            Err(Fail::new("not finished"))
        }
    }
}

// The number of the refusal of a cutting list into so many bytes, which stay 7 each.
fn unprinted(
    rt: &impl Abort,
    heap: Global,
    sheet: &Finished<Placer>,
    list: &Rows,
    bytes: usize,
) -> Result<Option<u8>, Fail> {
    let mut buffer = vec![in heap; 7u8; bytes]?;
    let answer = cutting_list(sheet, list.as_slice(), buffer.as_mut_slice());
    let number = refusal(answer.map(|_| ()));
    assert!(rt; number == None || buffer.iter().all(|b| *b == 7));
    Ok(number)
}

// Writes a row to the list's first place.
fn put_first(list: &mut Rows, row: Row<Plain<2>>) {
    if list.len() > 0 {
        list[0] = row;
    }
}

fn refused_lists(
    rt: &impl Abort,
    heap: Global,
    sheet: &Finished<Placer>,
    list: &mut Rows,
) -> Result<(), Fail> {
    assert!(rt; unprinted(rt, heap, sheet, list, 40)? == None);
    assert!(rt; unprinted(rt, heap, sheet, list, 39)? == Some(15));
    let first = *list.first().ok_or("no row")?;
    put_first(
        list,
        Row {
            descents: 13,
            ..first
        },
    );
    assert!(rt; unprinted(rt, heap, sheet, list, 40)? == Some(3));
    put_first(
        list,
        Row {
            laid: first.laid.map(|p| edges::rows::Placed { tile: 1, ..p }),
            ..first
        },
    );
    assert!(rt; unprinted(rt, heap, sheet, list, 40)? == Some(3));
    let far = Plain::<2>::read(&[1048577, 0]);
    put_first(
        list,
        Row {
            laid: first.laid.map(|p| edges::rows::Placed { place: far, ..p }),
            ..first
        },
    );
    assert!(rt; unprinted(rt, heap, sheet, list, 0)? == Some(8));
    list.truncate(3);
    assert!(rt; unprinted(rt, heap, sheet, list, 40)? == Some(15));
    Ok(())
}

#[test]
fn altered_lists_are_not_printed(rt: HostRuntime) -> Result<(), Fail> {
    let mut list = empty_list(rt.alloc(), 4)?;
    let sheet = finished(rt.alloc(), &mut list)?;
    let done = refused_lists(&rt, rt.alloc(), &sheet, &mut list);
    let _ = sheet.into_placer();
    done
}

#[test]
fn a_pending_sheet_is_not_finished(rt: HostRuntime) -> Result<(), Fail> {
    let sheet = sheet_of(rt.alloc(), CHAIR, "D 1\nP 0 0 0 0 0\n")?;
    match sheet.finish() {
        Ok(finished) => {
            let _ = finished.into_placer();
            Err(Fail::new("finished"))
        }
        Err(Unfinished { sheet, fault }) => {
            let number = fault.number();
            let _ = sheet.into_placer();
            assert!(rt; number == Some(14));
            Ok(())
        }
    }
}
