// Saved files: which are resumed from, which are refused and where, and what is saved.
use crate::file_tables::{
    CHAIR_FILES, DEEP_CHAIR_FILES, FAR_FILES, FAR_RHOMBUS_FILES, FARTHER_FILES, File,
    MIRRORED_FILES, MIRRORED_RHOMBUS_FILES, PENROSE_FILES, RHOMBUS, TWO_CHAIRS_FILES,
    UNCUT_CHAIRS_FILES, WIDE_SQUARE, WIDE_SQUARE_FILES,
};
use crate::replanted::job_of;
use calls::row::Row;
use gaussian::Gaussian;
use nodes::address::Address;
use placer::descent::Descent;
use placer::memo::Memo;
use refusals::Fault;
use rings::ring::Ring;
use sheet::fault::SheetFault;
use sheet::open::{Open, Unstarted};
use std::alloc::Global;
use std::process::Abort;
use std::test::Fail;
use tenfold::Tenfold;
use vectors::books::{CHAIR, FAR_SQUARE, PENROSE};

type Sheet<R> = Open<Memo<Descent<R>>>;

type Rows<R> = Vec<Row<<R as Ring>::Plain>>;

// The most places that a list may have of use.
const PLACES: usize = 4096;

// The descents of a row that no call wrote.
const UNWRITTEN: u8 = 99;

fn sheet_of<R: Ring>(heap: Global, book: &str, tail: &str) -> Result<Sheet<R>, Fail> {
    let placer = Memo::new(Descent::new(job_of(heap, book, tail)?));
    match Open::start(heap, placer) {
        Ok(sheet) => Ok(sheet),
        Err(
            Unstarted {
                placer: _,
                fault: _,
            },
        ) => Err(Fail::new("not started")),
    }
}

fn unwritten_list<R: Ring>(heap: Global, places: usize) -> Result<Rows<R>, Fail> {
    let row = Row {
        descents: UNWRITTEN,
        laid: None,
    };
    Ok(vec![in heap; row; places]?)
}

// How many rows no call wrote.
fn unwritten<R: Ring>(list: &Rows<R>) -> usize {
    list.iter()
        .filter(|row| row.descents == UNWRITTEN && row.laid.is_none())
        .count()
}

// Where a sheet is: its records, the node at its cursor, and the descents to it.
fn stand<R: Ring>(sheet: &Sheet<R>) -> (usize, Option<Address>, u8) {
    let cursor = sheet.cursor();
    let node = cursor.map(|c| c.node);
    (sheet.count(), node, cursor.map_or(0, |c| c.descents))
}

fn is_refused<R: Ring, T: Drop>(
    answer: Result<T, SheetFault<R>>,
    number: u8,
    place: usize,
) -> bool {
    answer
        .err()
        .is_some_and(|f| f.number() == Some(number) && f.place() == place)
}

// The bytes that hexadecimal digits spell.
fn bytes_of(heap: Global, digits: &str) -> Result<Vec<u8>, Fail> {
    let mut bytes = Vec::new(heap);
    let mut high = None;
    for c in digits.chars() {
        let digit = c.to_digit(16).ok_or("no digit")?;
        let digit = u8::try_from(digit).map_err(|_| Fail::new("no digit"))?;
        match high {
            None => high = Some(digit),
            Some(first) => {
                bytes.push(first << 4 | digit)?;
                high = None;
            }
        }
    }
    Ok(bytes)
}

// The file of a sheet.
fn saved<R: Ring>(heap: Global, sheet: &Sheet<R>, list: &Rows<R>) -> Result<Vec<u8>, Fail> {
    let mut buffer = vec![in heap; 7u8; 4 + 18 * PLACES]?;
    let length = sheet
        .save(list.as_slice(), buffer.as_mut_slice())
        .map_err(|_| Fail::new("not saved"))?;
    assert_untouched(buffer.as_slice(), length)?;
    buffer.truncate(length);
    Ok(buffer)
}

// A buffer behind what was written to it.
fn assert_untouched(buffer: &[u8], length: usize) -> Result<(), Fail> {
    if buffer.iter().skip(length).all(|b| *b == 7) {
        return Ok(());
    }
    Err(Fail::new("written beyond the file"))
}

// ---- the tables
// A lawful save is resumed from, and saved again as it was.
fn is_resumed<R: Ring>(
    rt: &impl Abort,
    heap: Global,
    sheet: &mut Sheet<R>,
    file: &[u8],
    note: &str,
) -> Result<(), Fail> {
    let mut list = unwritten_list::<R>(heap, PLACES)?;
    assert!(rt; sheet.resume(list.as_mut_slice(), file).is_ok(), "{note}");
    assert!(rt; unwritten::<R>(&list) == PLACES.saturating_sub(sheet.count()));
    assert!(rt; saved(heap, sheet, &list)?.as_slice() == file);
    Ok(())
}

// Another file is refused; the sheet stays where it was, and no row is written.
fn is_refused_at<R: Ring>(
    rt: &impl Abort,
    heap: Global,
    sheet: &mut Sheet<R>,
    file: &[u8],
    place: usize,
    note: &str,
) -> Result<(), Fail> {
    let mut list = unwritten_list::<R>(heap, PLACES)?;
    let _ = sheet.descend();
    let before = stand(sheet);
    assert!(rt;
        is_refused(sheet.resume(list.as_mut_slice(), file), 12, place),
        "{note}"
    );
    assert!(rt; stand(sheet) == before);
    assert!(rt; unwritten::<R>(&list) == PLACES);
    Ok(())
}

// Each file of a table, on a new sheet of the job.
fn judged<R: Ring>(
    rt: &impl Abort,
    heap: Global,
    book: &str,
    tail: &str,
    files: &[File],
) -> Result<(), Fail> {
    for (place, note, digits) in files {
        let file = bytes_of(heap, digits)?;
        let mut sheet = sheet_of::<R>(heap, book, tail)?;
        let done = match *place {
            None => is_resumed(rt, heap, &mut sheet, file.as_slice(), note),
            Some(place) => is_refused_at(rt, heap, &mut sheet, file.as_slice(), place, note),
        };
        let _ = sheet.into_placer();
        done?;
    }
    Ok(())
}

#[test]
fn files_of_chairs_are_judged(rt: HostRuntime) -> Result<(), Fail> {
    let once = "D 1\nP 0 0 0 0 0\n";
    let twice = "D 2\nP 0 0 0 0 0\nP 0 1 1 5 -3\n";
    let uncut = "D 0\nP 0 0 0 0 0\nP 0 1 1 5 -3\n";
    let deep = "D 12\nP 0 0 0 0 0\n";
    judged::<Gaussian>(&rt, rt.alloc(), CHAIR, once, &CHAIR_FILES)?;
    judged::<Gaussian>(&rt, rt.alloc(), CHAIR, twice, &TWO_CHAIRS_FILES)?;
    judged::<Gaussian>(&rt, rt.alloc(), CHAIR, uncut, &UNCUT_CHAIRS_FILES)?;
    judged::<Gaussian>(&rt, rt.alloc(), CHAIR, deep, &DEEP_CHAIR_FILES)
}

#[test]
fn files_of_half_kites_and_darts_are_judged(rt: HostRuntime) -> Result<(), Fail> {
    let four = "D 2\nP 0 0 0 0 0 0 0\nP 1 3 0 1 0 0 0\nP 0 7 1 0 2 0 -1\nP 1 5 1 3 -1 0 2\n";
    let mirrored = "D 4\nP 0 7 1 0 2 0 -1\n";
    judged::<Tenfold>(&rt, rt.alloc(), PENROSE, four, &PENROSE_FILES)?;
    judged::<Tenfold>(&rt, rt.alloc(), PENROSE, mirrored, &MIRRORED_FILES)
}

#[test]
fn files_of_far_pieces_are_judged(rt: HostRuntime) -> Result<(), Fail> {
    let far = "D 8\nP 0 0 0 16 0\n";
    let farther = "D 9\nP 0 0 0 16 0\n";
    let wide = "D 8\nP 0 2 0 17 0\n";
    let below = "D 8\nP 0 0 1 0 0 0 -16\n";
    let above = "D 8\nP 0 0 1 0 0 0 16\n";
    judged::<Gaussian>(&rt, rt.alloc(), FAR_SQUARE, far, &FAR_FILES)?;
    judged::<Gaussian>(&rt, rt.alloc(), FAR_SQUARE, farther, &FARTHER_FILES)?;
    judged::<Gaussian>(&rt, rt.alloc(), WIDE_SQUARE, wide, &WIDE_SQUARE_FILES)?;
    judged::<Tenfold>(&rt, rt.alloc(), RHOMBUS, below, &MIRRORED_RHOMBUS_FILES)?;
    judged::<Tenfold>(&rt, rt.alloc(), RHOMBUS, above, &FAR_RHOMBUS_FILES)
}

// ---- what is saved, and into how many places it is resumed
const ONE_CHAIR: &str = "D 1\nP 0 0 0 0 0\n";

// A chair cut once: its first two children laid, the third set aside.
fn save_chair(rt: &impl Abort, heap: Global, sheet: &mut Sheet<Gaussian>) -> Result<(), Fail> {
    let mut list = unwritten_list::<Gaussian>(heap, 3)?;
    assert!(rt; sheet.descend().is_ok());
    assert!(rt; sheet.lay(list.as_mut_slice()).is_ok() && sheet.lay(list.as_mut_slice()).is_ok());
    assert!(rt; sheet.set_aside(list.as_mut_slice()).is_ok());
    let file = bytes_of(heap, "01000301000000000000000000000000000001000000011000")?;
    assert!(rt; saved(heap, sheet, &list)?.as_slice() == file.as_slice());
    let mut short = [7; 24];
    assert!(rt; is_refused(sheet.save(list.as_slice(), &mut short), 15, 0));
    assert!(rt; short == [7; 24]);
    let mut just = [7; 25];
    assert!(rt; sheet.save(list.as_slice(), &mut just).is_ok());
    assert!(rt; just.as_slice() == file.as_slice());
    Ok(())
}

#[test]
fn a_sheet_is_saved(rt: HostRuntime) -> Result<(), Fail> {
    let mut sheet = sheet_of(rt.alloc(), CHAIR, ONE_CHAIR)?;
    let done = save_chair(&rt, rt.alloc(), &mut sheet);
    let _ = sheet.into_placer();
    done
}

// Three records, for a list of two places.
fn resume_into_two(rt: &impl Abort, heap: Global, sheet: &mut Sheet<Gaussian>) -> Result<(), Fail> {
    let mut list = unwritten_list::<Gaussian>(heap, 2)?;
    let file = bytes_of(heap, "01000301000000000000000000000000000001000000011000")?;
    assert!(rt; sheet.descend().is_ok());
    let before = stand(sheet);
    assert!(rt; is_refused(sheet.resume(list.as_mut_slice(), file.as_slice()), 9, 0));
    assert!(rt; stand(sheet) == before && unwritten::<Gaussian>(&list) == 2);
    let wrong = bytes_of(heap, "01000301000000000000000000000000000001000000021000")?;
    assert!(rt; is_refused(sheet.resume(list.as_mut_slice(), wrong.as_slice()), 12, 13));
    assert!(rt; stand(sheet) == before && unwritten::<Gaussian>(&list) == 2);
    Ok(())
}

#[test]
fn a_short_list_is_refused_and_left_alone(rt: HostRuntime) -> Result<(), Fail> {
    let mut sheet = sheet_of(rt.alloc(), CHAIR, ONE_CHAIR)?;
    let done = resume_into_two(&rt, rt.alloc(), &mut sheet);
    let _ = sheet.into_placer();
    done
}

// The children six levels below the first of two chairs set aside, which fill all places; the second chair is pending.
fn fill(rt: &impl Abort, sheet: &mut Sheet<Gaussian>, list: &mut Rows<Gaussian>) {
    for _ in 0..PLACES {
        for _ in 0..6 {
            if sheet.cursor().is_some_and(|c| c.node.level < 6) {
                assert!(rt; sheet.descend().is_ok());
            }
        }
        assert!(rt; sheet.set_aside(list.as_mut_slice()).is_ok());
    }
}

// The last byte of a file, replaced.
fn ended_by(heap: Global, file: &[u8], last: u8) -> Result<Vec<u8>, Fail> {
    let mut bytes = file.to_vec(heap)?;
    let _ = bytes.pop();
    bytes.push(last)?;
    Ok(bytes)
}

fn resume_full(rt: &impl Abort, heap: Global, sheet: &mut Sheet<Gaussian>) -> Result<(), Fail> {
    let mut list = unwritten_list::<Gaussian>(heap, PLACES + 1)?;
    fill(rt, sheet, &mut list);
    assert!(rt; is_refused(sheet.set_aside(list.as_mut_slice()), 9, 0));
    let file = saved(heap, sheet, &list)?;
    assert!(rt; file.len() == 4100);
    is_resumed(rt, heap, sheet, file.as_slice(), "full")?;
    is_resumed(
        rt,
        heap,
        sheet,
        ended_by(heap, file.as_slice(), 7)?.as_slice(),
        "full, at the depth",
    )?;
    is_refused_at(
        rt,
        heap,
        sheet,
        ended_by(heap, file.as_slice(), 8)?.as_slice(),
        4099,
        "full, beyond the depth",
    )?;
    is_refused_at(
        rt,
        heap,
        sheet,
        ended_by(heap, file.as_slice(), 16)?.as_slice(),
        4099,
        "full, beyond the depth",
    )?;
    let mut few = unwritten_list::<Gaussian>(heap, PLACES - 1)?;
    assert!(rt; is_refused(sheet.resume(few.as_mut_slice(), file.as_slice()), 9, 0));
    assert!(rt; unwritten::<Gaussian>(&few) == PLACES - 1);
    Ok(())
}

#[test]
fn a_full_list_is_saved_and_resumed(rt: HostRuntime) -> Result<(), Fail> {
    let mut sheet = sheet_of(rt.alloc(), CHAIR, "D 7\nP 0 0 0 0 0\nP 0 1 1 5 -3\n")?;
    let done = resume_full(&rt, rt.alloc(), &mut sheet);
    let _ = sheet.into_placer();
    done
}

// ---- a walk of calls
const WALKED: &str = "D 2\nP 0 0 0 0 0 0 0\nP 0 7 1 0 2 0 -1\n";

// Calls of a walk, and its saves.
const CALLS: usize = 400;

// What a walk has of files: that of the new sheet, the last one, how many were saved, and the FNV-1a sum of their bytes.
#[derive(Drop)]
struct Files {
    first: Vec<u8>,
    last: Vec<u8>,
    count: usize,
    sum: u64,
}

// The next of a linear congruential generator's numbers.
fn following(number: u64) -> u64 {
    number
        .wrapping_mul(6364136223846793005)
        .wrapping_add(1442695040888963407)
}

fn added(sum: u64, bytes: &[u8]) -> u64 {
    let mut sum = sum;
    for b in bytes {
        sum = (sum ^ u64::from(*b)).wrapping_mul(0x100000001b3);
    }
    sum
}

// Resumes from a file, and saves it again.
fn comes_back<R: Ring>(
    rt: &impl Abort,
    heap: Global,
    sheet: &mut Sheet<R>,
    list: &mut Rows<R>,
    file: &[u8],
) -> Result<(), Fail> {
    assert!(rt; sheet.resume(list.as_mut_slice(), file).is_ok());
    assert!(rt; saved(heap, sheet, list)?.as_slice() == file);
    Ok(())
}

// One call: which one a number from 0 to 15 tells. Where nothing is left it resumes from the first file.
fn step<R: Ring>(
    rt: &impl Abort,
    heap: Global,
    sheet: &mut Sheet<R>,
    list: &mut Rows<R>,
    files: &mut Files,
    call: u64,
) -> Result<(), Fail> {
    match call {
        0..=4 => {
            let _ = sheet.descend();
        }
        5..=10 => {
            let _ = sheet.lay(list.as_mut_slice());
        }
        11..=12 => {
            let _ = sheet.set_aside(list.as_mut_slice());
        }
        13..=14 => {
            let file = saved(heap, sheet, list)?;
            comes_back(rt, heap, sheet, list, file.as_slice())?;
            files.sum = added(files.sum, file.as_slice());
            files.count = files.count.saturating_add(1);
            files.last = file;
        }
        _ if sheet.cursor().is_none() => {
            comes_back(rt, heap, sheet, list, files.first.as_slice())?;
        }
        _ => comes_back(rt, heap, sheet, list, files.last.as_slice())?,
    }
    Ok(())
}

fn walk<R: Ring>(rt: &impl Abort, heap: Global, sheet: &mut Sheet<R>) -> Result<(), Fail> {
    let mut list = unwritten_list::<R>(heap, 40)?;
    let mut files = Files {
        first: saved(heap, sheet, &list)?,
        last: saved(heap, sheet, &list)?,
        count: 0,
        sum: 0xcbf29ce484222325,
    };
    let mut number = 1;
    for _ in 0..CALLS {
        number = following(number);
        step(rt, heap, sheet, &mut list, &mut files, number >> 60)?;
    }
    assert!(rt; files.count == WALK_SAVES && files.sum == WALK_SUM);
    Ok(())
}

// The saves of the walk and their sum, as tools/sheet_model.py has them.
const WALK_SAVES: usize = 53;

const WALK_SUM: u64 = 0x17a7c5e12d1e4c65;

#[test]
fn a_walk_comes_back(rt: HostRuntime) -> Result<(), Fail> {
    let mut sheet = sheet_of::<Tenfold>(rt.alloc(), PENROSE, WALKED)?;
    let done = walk(&rt, rt.alloc(), &mut sheet);
    let _ = sheet.into_placer();
    done
}
