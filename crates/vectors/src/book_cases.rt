// Jobs with one line of their text put otherwise: what the check of their book tells.
use crate::books::{CHAIR, PENROSE};
use book::fault::{BookFault, Difference};
use edges::rows::Edge;
use gaussian::Gaussian;
use job_check::check::judged;
use job_check::fault::CheckFault;
use jobs::reading::read;
use refusals::{Fault, Layer};
use rings::sizes::SmallRing;
use std::alloc::{AllocError, Global};
use std::process::Abort;
use std::test::Fail;
use tenfold::Tenfold;

// Each row: the refusal's number and place, how many lines stand before the one that is put otherwise, and what it is.
const DAMAGED_CHAIR: [(u8, usize, usize, &str); 10] = [
    (4, 1, 1, "I 2 1"),
    (4, 1, 1, "I 1 0"),
    (4, 1, 1, "I -2 0"),
    (4, 0, 2, "L 0 0 1"),
    (4, 0, 2, "L 0 -1 0"),
    (5, 0, 3, "S 0 1"),
    (5, 0, 3, "S 0 1 0 1 0 1"),
    // not closed; closed, but clockwise; closed, with no area
    (6, 0, 4, "T 0 1 0 0 1 0 0 1 1 0 1 2 0 1 1 0 1 2 0 1 3 0 1 2"),
    (6, 0, 4, "T 0 1 0 0 1 0 0 1 3 0 1 2 0 1 3 0 1 2 0 1 1 0 1 1"),
    (6, 0, 4, "T 0 1 0 0 1 2 0 1 1 0 1 3"),
];

const DAMAGED_PENROSE: [(u8, usize, usize, &str); 9] = [
    (4, 2, 1, "I 1 0 0 0"),
    (4, 2, 1, "I 0 1 0 0"),
    (4, 1, 3, "L 1 0 0 0 0"),
    (4, 1, 3, "L 1 0 1 0 0"),
    (4, 0, 2, "L 1 1 0 1 0"),
    (5, 0, 4, "S 1 1 1 1"),
    // a plain label whose subdivision reads otherwise from its other end
    (5, 1, 3, "L 0 1 0 0 0"),
    (6, 1, 10, "T 0 1 0 1 1 4 1 1 7"),
    (6, 0, 6, "T 0 0 0 1 1 7 0 0 4"),
];

// Each row: a tile, the first edge that its children count otherwise than its inflated outline (label, direction, start), and the
// children's count less the outline's; how many lines stand before the one that is put otherwise, and what it is.
type Unbalanced<const D: usize> = (usize, usize, u32, [i64; D], i64, usize, &'static str);

const UNBALANCED_CHAIR: [Unbalanced<2>; 5] = [
    (0, 0, 0, [1, 1], 2, 5, "C 0 0 0 1 1"),
    (0, 0, 0, [1, 1], -2, 6, "C 0 0 1 1 1"),
    (0, 0, 1, [2, 0], 1, 7, "C 0 1 1 4 0"),
    (0, 0, 1, [1, 1], 1, 8, "C 0 3 0 0 3"),
    (0, 0, 0, [0, 0], 1, 8, "C 0 0 0 0 0"),
];

const UNBALANCED_PENROSE: [Unbalanced<4>; 6] = [
    // the mark of a mirror dropped or put
    (0, 0, 9, [1, 0, 1, 0], -2, 7, "C 0 4 0 2 0 1 -1"),
    (0, 0, 9, [1, 0, 1, 0], 2, 8, "C 0 4 1 2 0 1 -1"),
    (0, 1, 7, [1, 0, 1, 0], 1, 9, "C 1 1 0 0 0 0 0"),
    (1, 0, 6, [1, 0, 1, 0], -2, 11, "C 0 1 0 0 0 0 0"),
    (1, 1, 8, [1, 0, 1, 0], -1, 12, "C 1 4 1 2 0 1 -1"),
    // the other tile
    (1, 1, 8, [1, 0, 1, 0], -1, 12, "C 0 4 0 2 0 1 -1"),
];

// The text with one line put otherwise, the one that `before` lines stand before.
fn put_otherwise(heap: Global, text: &str, before: usize, own: &str) -> Result<String, AllocError> {
    let mut altered = String::new(heap);
    for (i, line) in text.split_inclusive('\n').enumerate() {
        if i == before {
            altered.push_str(own)?;
            altered.push('\n')?;
        } else {
            altered.push_str(line)?;
        }
    }
    Ok(altered)
}

// What refuses the job over its ring.
fn fault_of<R: SmallRing>(
    heap: Global,
    text: &str,
    before: usize,
    own: &str,
) -> Result<CheckFault<R>, Fail> {
    let altered = put_otherwise(heap, text, before, own)?;
    let job = read(heap, altered.as_bytes())?;
    Ok(judged::<R>(heap, &job).err().ok_or("accepted")?)
}

fn damaged<R: SmallRing>(
    rt: &impl Abort,
    heap: Global,
    text: &str,
    cases: &[(u8, usize, usize, &str)],
) -> Result<(), Fail> {
    for (number, place, before, own) in cases {
        let f = fault_of::<R>(heap, text, *before, own)?;
        assert!(rt;
            f.number() == Some(*number) && f.place() == *place && f.layer() == Layer::Book,
            "{own}"
        );
    }
    Ok(())
}

fn unbalanced<R: SmallRing, const D: usize>(
    rt: &impl Abort,
    heap: Global,
    text: &str,
    cases: &[Unbalanced<D>],
) -> Result<(), Fail> {
    for (tile, label, direction, start, amount, before, own) in cases {
        let edge = Edge {
            label: *label,
            direction: *direction,
            start: R::make(start)?,
        };
        let difference = Difference {
            edge,
            amount: *amount,
        };
        let f = fault_of::<R>(heap, text, *before, own)?;
        assert!(rt;
            f.number() == Some(7) && f.place() == *tile && f.layer() == Layer::Book,
            "{own}"
        );
        assert!(rt;
            f == CheckFault::Book(BookFault::Unbalanced(*tile, difference)),
            "{own}"
        );
    }
    Ok(())
}

#[test]
fn damaged_books_are_refused(rt: HostRuntime) -> Result<(), Fail> {
    damaged::<Gaussian>(&rt, rt.alloc(), CHAIR, &DAMAGED_CHAIR)?;
    damaged::<Tenfold>(&rt, rt.alloc(), PENROSE, &DAMAGED_PENROSE)
}

#[test]
fn the_first_unbalanced_edge_is_told(rt: HostRuntime) -> Result<(), Fail> {
    unbalanced::<Gaussian, 2>(&rt, rt.alloc(), CHAIR, &UNBALANCED_CHAIR)?;
    unbalanced::<Tenfold, 4>(&rt, rt.alloc(), PENROSE, &UNBALANCED_PENROSE)
}
