// Jobs over a ring: their check, and where their nodes lie, asked of each placer.
use crate::books::{CHAIR, PENROSE};
use edges::rows::Placed;
use gaussian::Gaussian;
use job_check::check::judged;
use jobs::reading::read;
use nodes::address::Address;
use nodes::fault::PlaceFault;
use placer::descent::Descent;
use placer::memo::Memo;
use placer::placer::Placer;
use refusals::{Fault, Layer};
use ring_jobs::job::RingJob;
use rings::ring::Ring;
use rings::sizes::SmallRing;
use std::alloc::Global;
use std::process::Abort;
use std::test::Fail;
use tenfold::Tenfold;

fn judged_job<R: SmallRing>(heap: Global, text: &str) -> Result<RingJob<R>, Fail> {
    let job = read(heap, text.as_bytes())?;
    judged(heap, &job).map_err(|_| Fail::new("the job is refused"))
}

// The job may not be used over the ring: the refusal's number, place and layer are these.
fn refused<R: SmallRing>(
    rt: &impl Abort,
    heap: Global,
    text: &str,
    number: u8,
    place: usize,
    layer: Layer,
) -> Result<(), Fail> {
    let job = read(heap, text.as_bytes())?;
    let f = judged::<R>(heap, &job).err().ok_or("accepted")?;
    assert!(rt; f.number() == Some(number));
    assert!(rt; f.place() == place);
    assert!(rt; f.layer() == layer);
    Ok(())
}

// The seed tile's child k.
fn child(seed: u16, k: u8) -> Address {
    Address {
        seed,
        level: 1,
        path: [k, 0, 0, 0, 0, 0, 0, 0, 0, 0, 0, 0],
    }
}

// Whether an answer is this placement.
pub(crate) fn lies<R: Ring>(
    answer: Result<Placed<R>, PlaceFault>,
    tile: usize,
    turn: u32,
    mirrored: bool,
    place: &[i64],
) -> bool {
    let Ok(p) = answer else {
        return false;
    };
    p.tile == tile
        && p.turn == turn
        && p.mirrored == mirrored
        && place
            .iter()
            .enumerate()
            .all(|(k, c)| p.place.coefficient(k) == *c)
}

fn has_no_node<R: Ring>(answer: Result<Placed<R>, PlaceFault>) -> bool {
    answer.is_err_and(|f| f.number() == Some(3))
}

fn chair_children<P: Placer>(rt: &impl Abort, placer: &mut P) {
    assert!(rt; lies(placer.place(&Address::of_seed(0)), 0, 0, false, &[0, 0]));
    assert!(rt; lies(placer.place(&child(0, 3)), 0, 3, false, &[0, 4]));
    assert!(rt; lies(placer.place(&child(0, 1)), 0, 0, false, &[1, 1]));
    assert!(rt; lies(placer.place(&child(0, 0)), 0, 0, false, &[0, 0]));
    assert!(rt; lies(placer.place(&child(0, 2)), 0, 1, false, &[4, 0]));
    assert!(rt; has_no_node(placer.place(&child(0, 4))));
    assert!(rt; has_no_node(placer.place(&child(1, 0))));
    assert!(rt; lies(placer.place(&child(0, 2)), 0, 1, false, &[4, 0]));
}

fn penrose_children<P: Placer>(rt: &impl Abort, placer: &mut P) {
    assert!(rt; lies(placer.place(&child(0, 0)), 0, 4, true, &[2, 0, 1, -1]));
    assert!(rt; lies(placer.place(&child(0, 1)), 0, 4, false, &[2, 0, 1, -1]));
    assert!(rt; lies(placer.place(&child(0, 2)), 1, 1, true, &[0, 0, 0, 0]));
    assert!(rt; has_no_node(placer.place(&child(0, 3))));
}

#[test]
fn both_books_pass(rt: HostRuntime) -> Result<(), Fail> {
    let _ = judged_job::<Gaussian>(rt.alloc(), CHAIR)?;
    let _ = judged_job::<Tenfold>(rt.alloc(), PENROSE)?;
    refused::<Tenfold>(&rt, rt.alloc(), CHAIR, 13, 0, Layer::Sheet)?;
    refused::<Gaussian>(&rt, rt.alloc(), PENROSE, 13, 0, Layer::Sheet)
}

#[test]
fn placers_answer_alike(rt: HostRuntime) -> Result<(), Fail> {
    let mut plain = Descent::new(judged_job::<Gaussian>(rt.alloc(), CHAIR)?);
    chair_children(&rt, &mut plain);
    let mut memo = Memo::new(Descent::new(judged_job::<Gaussian>(rt.alloc(), CHAIR)?));
    chair_children(&rt, &mut memo);
    let mut twice = Memo::new(Memo::new(Descent::new(judged_job::<Gaussian>(rt.alloc(), CHAIR)?)));
    chair_children(&rt, &mut twice);
    let mut marked = Memo::new(Descent::new(judged_job::<Tenfold>(rt.alloc(), PENROSE)?));
    penrose_children(&rt, &mut marked);
    Ok(())
}
