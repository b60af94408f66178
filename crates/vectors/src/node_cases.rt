// Where the nodes of deeper jobs lie, asked of each placer in several orders.
use crate::books::{CHAIR, FAR_SQUARE, PENROSE};
use crate::job_cases::lies;
use crate::replanted::job_of;
use gaussian::Gaussian;
use jobs::reading::read;
use nodes::address::Address;
use placer::descent::Descent;
use placer::memo::Memo;
use placer::placer::Placer;
use refusals::Fault;
use ring_jobs::making::over;
use rings::ring::Ring;
use std::alloc::Global;
use std::process::Abort;
use std::test::Fail;
use tenfold::Tenfold;

// A node: its seed and the child numbers down to it; its tile, turn, mirror mark and place.
type Node = (u16, &'static [u8], usize, u32, bool, &'static [i64]);

// The depth and the seeds that stand in place of a book's own; mirrored ones too.
const CHAIR_SEEDS: &str = "D 3\nP 0 0 0 0 0\nP 0 1 1 3 -2\n";

const PENROSE_SEEDS: &str = "D 4\nP 0 0 0 0 0 0 0\nP 0 3 1 1 0 2 0\nP 1 9 1 0 0 0 -1\n";

const CHAIR_NODES: [Node; 15] = [
    (0, &[], 0, 0, false, &[0, 0]),
    (0, &[3], 0, 3, false, &[0, 4]),
    (0, &[3, 2], 0, 0, false, &[0, 4]),
    (0, &[3, 2, 1], 0, 0, false, &[1, 9]),
    (0, &[3, 2, 2], 0, 1, false, &[4, 8]),
    (0, &[1, 2, 2], 0, 2, false, &[12, 8]),
    (1, &[], 0, 1, true, &[3, -2]),
    (1, &[0], 0, 1, true, &[6, -4]),
    (1, &[2], 0, 0, true, &[6, 0]),
    (1, &[3], 0, 2, true, &[10, -4]),
    (1, &[3, 1], 0, 2, true, &[19, -7]),
    (1, &[2, 3], 0, 1, true, &[12, -4]),
    (1, &[2, 3, 3], 0, 2, true, &[28, -8]),
    (1, &[3, 3, 3], 0, 0, true, &[36, -8]),
    (0, &[2], 0, 1, false, &[4, 0]),
];

const PENROSE_NODES: [Node; 21] = [
    (0, &[], 0, 0, false, &[0, 0, 0, 0]),
    (0, &[0], 0, 4, true, &[2, 0, 1, -1]),
    (0, &[0, 0], 0, 0, false, &[1, 1, 1, 0]),
    (0, &[0, 2], 1, 3, false, &[3, 0, 2, -2]),
    (0, &[0, 2, 1], 1, 7, false, &[4, 1, 3, -1]),
    (0, &[0, 2, 1, 0], 0, 8, true, &[6, 2, 5, -2]),
    (0, &[1, 2, 1, 1], 1, 7, true, &[6, 1, 4, -3]),
    (0, &[2, 0], 0, 0, false, &[0, 0, 0, 0]),
    (1, &[], 0, 3, true, &[1, 0, 2, 0]),
    (1, &[0], 0, 9, false, &[0, 3, 1, 3]),
    (1, &[0, 0], 0, 3, true, &[2, 3, 4, 2]),
    (1, &[2], 1, 2, false, &[1, 2, 1, 1]),
    (1, &[2, 1], 1, 6, false, &[2, 3, 4, 2]),
    (1, &[2, 1, 0], 0, 7, true, &[3, 6, 5, 4]),
    (1, &[2, 1, 0, 2], 1, 6, false, &[5, 9, 9, 6]),
    (1, &[0, 0, 2, 1], 1, 6, false, &[5, 10, 10, 7]),
    (2, &[], 1, 9, true, &[0, 0, 0, -1]),
    (2, &[1], 1, 5, true, &[3, -2, 1, -3]),
    (2, &[1, 1, 1, 1], 1, 3, true, &[8, -6, 1, -11]),
    (2, &[0, 2, 0, 0], 0, 2, true, &[4, -4, 0, -7]),
    (0, &[1], 0, 4, false, &[2, 0, 1, -1]),
];

// Addresses that name no node: seed and child numbers.
const NO_CHAIR_NODES: [(u16, &[u8]); 5] = [
    (2, &[]),
    (0, &[4]),
    (1, &[3, 3, 4]),
    (0, &[0, 0, 0, 0]),
    (65535, &[0]),
];

fn address(seed: u16, children: &[u8]) -> Result<Address, Fail> {
    let mut path = [0; 12];
    for (to, k) in path.iter_mut().zip(children) {
        *to = *k;
    }
    let level = u8::try_from(children.len()).map_err(|_| Fail::new("too deep"))?;
    if level > 12 {
        return Err(Fail::new("too deep"));
    }
    Ok(Address { seed, level, path })
}

// Whether the placer answers a node as its row has it.
fn is_right<P: Placer>(placer: &mut P, node: &Node) -> Result<bool, Fail> {
    let (seed, children, tile, turn, mirrored, place) = node;
    let at = address(*seed, children)?;
    Ok(lies(placer.place(&at), *tile, *turn, *mirrored, place))
}

// In order, from the last to the first, and each beside the first.
fn asked<P: Placer>(rt: &impl Abort, placer: &mut P, nodes: &[Node]) -> Result<(), Fail> {
    for node in nodes {
        assert!(rt; is_right(placer, node)?);
    }
    for node in nodes.iter().rev() {
        assert!(rt; is_right(placer, node)?);
    }
    let first = nodes.first().ok_or("no node")?;
    for node in nodes {
        assert!(rt; is_right(placer, first)? && is_right(placer, node)?);
    }
    Ok(())
}

fn asked_of_each<R: Ring>(
    rt: &impl Abort,
    heap: Global,
    book: &str,
    seeds: &str,
    nodes: &[Node],
) -> Result<(), Fail> {
    asked(
        rt,
        &mut Descent::<R>::new(job_of(heap, book, seeds)?),
        nodes,
    )?;
    asked(
        rt,
        &mut Memo::new(Descent::<R>::new(job_of(heap, book, seeds)?)),
        nodes,
    )?;
    asked(
        rt,
        &mut Memo::new(Memo::new(Descent::<R>::new(job_of(heap, book, seeds)?))),
        nodes,
    )
}

#[test]
fn every_order_gives_the_table(rt: HostRuntime) -> Result<(), Fail> {
    asked_of_each::<Gaussian>(&rt, rt.alloc(), CHAIR, CHAIR_SEEDS, &CHAIR_NODES)?;
    asked_of_each::<Tenfold>(&rt, rt.alloc(), PENROSE, PENROSE_SEEDS, &PENROSE_NODES)
}

// The number of the refusal of an address.
fn refusal<P: Placer>(placer: &mut P, seed: u16, children: &[u8]) -> Result<Option<u8>, Fail> {
    let at = address(seed, children)?;
    Ok(placer.place(&at).err().and_then(|f| f.number()))
}

#[test]
fn no_node_is_placed(rt: HostRuntime) -> Result<(), Fail> {
    let mut memo = Memo::new(Descent::<Gaussian>::new(job_of(rt.alloc(), CHAIR, CHAIR_SEEDS)?));
    for (seed, children) in &NO_CHAIR_NODES {
        assert!(rt; refusal(&mut memo, *seed, children)? == Some(3));
        assert!(rt; is_right(&mut memo, &CHAIR_NODES[2])?);
    }
    Ok(())
}

// At level 8 the square's place is the last on the plane, and its other corners are beyond; below it there is nothing on the plane.
#[test]
fn far_nodes_are_off_the_plane(rt: HostRuntime) -> Result<(), Fail> {
    let job = read(rt.alloc(), FAR_SQUARE.as_bytes())?;
    let mut memo = Memo::new(Descent::<Gaussian>::new(over(rt.alloc(), &job).map_err(|_| Fail::new(
        "no memory",
    ))?));
    assert!(rt; is_right(&mut memo, &(0, &[0; 7], 0, 0, false, &[262144, 0]))?);
    assert!(rt; refusal(&mut memo, 0, &[0; 8])? == Some(8));
    assert!(rt; refusal(&mut memo, 0, &[0; 9])? == Some(8));
    assert!(rt; refusal(&mut memo, 0, &[0, 0, 0, 0, 0, 0, 0, 16])? == Some(3));
    assert!(rt; is_right(&mut memo, &(0, &[0; 7], 0, 0, false, &[262144, 0]))?);
    Ok(())
}
