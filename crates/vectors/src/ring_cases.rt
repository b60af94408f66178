// The rings at their edges, run.
use gaussian::Gaussian;
use refusals::{Fault, Layer};
use rings::fault::RingFault;
use rings::group::Group;
use rings::ring::Ring;
use std::process::Abort;
use std::test::Fail;
use tenfold::Tenfold;

const BOUND: i64 = 1048576;

// Whether z has these coefficients, and 0 behind them.
fn is<R: Ring>(z: R, expected: &[i64]) -> bool {
    (0..R::D).all(|k| z.coefficient(k) == expected.get(k).copied().unwrap_or(0))
        && z.coefficient(R::D) == 0
}

// Lists of any length are read, and the bound is the last that is.
fn bounds<R: Ring>(rt: &impl Abort) -> Result<(), Fail> {
    assert!(rt; is(R::make(&[])?, &[]));
    assert!(rt; is(R::make(&[7])?, &[7]));
    assert!(rt; is(R::make(&[1, 2, 3, 4, 5])?, &[1, 2, 3, 4]));
    assert!(rt; is(R::make(&[BOUND, -BOUND])?, &[BOUND, -BOUND]));
    assert!(rt; R::make(&[BOUND + 1]).is_err());
    assert!(rt; R::make(&[0, -BOUND - 1]).is_err());
    let edge = R::make(&[BOUND, 0])?;
    let one = R::unit(0);
    assert!(rt; edge.add(one).is_err());
    assert!(rt; is(edge.sub(one)?, &[BOUND - 1]));
    assert!(rt; edge.mul(edge).is_err());
    assert!(rt; is(R::from_plain(edge.plain())?, &[BOUND]));
    Ok(())
}

#[test]
fn the_bound_is_the_last_on_the_plane(rt: HostRuntime) -> Result<(), Fail> {
    bounds::<Gaussian>(&rt)?;
    bounds::<Tenfold>(&rt)
}

// n turns by one n-th are none, half of them the opposite; powers count modulo n.
fn turns<R: Ring>(rt: &impl Abort, list: &[i64]) -> Result<(), Fail> {
    let z = R::make(list)?;
    let mut w = z;
    for _ in 0..R::N {
        w = w.turn(1)?;
    }
    assert!(rt; w == z);
    assert!(rt; z.turn(R::N / 2)? == R::zero().sub(z)?);
    assert!(rt; z.turn(7)?.turn(5)? == z.turn(12)?);
    assert!(rt; z.turn(4294967295)? == z.turn(4294967295 % R::N)?);
    assert!(rt; z.conj()?.conj()? == z);
    Ok(())
}

#[test]
fn turns_come_round(rt: HostRuntime) -> Result<(), Fail> {
    turns::<Gaussian>(&rt, &[3, -5])?;
    turns::<Tenfold>(&rt, &[3, -5, 7, 11])
}

#[test]
fn products(rt: HostRuntime) -> Result<(), Fail> {
    let i = Gaussian::unit(1);
    assert!(rt; is(i.mul(i)?, &[-1, 0]));
    let golden = Tenfold::make(&[1, 0, 1, -1])?;
    assert!(rt; is(golden.mul(golden)?, &[2, 0, 1, -1]));
    let x = Tenfold::make(&[1, 2, 3, 4])?;
    let y = Tenfold::make(&[5, 6, 7, 8])?;
    assert!(rt; is(x.mul(y)?, &[-108, 45, -27, 121]));
    assert!(rt; is(x.conj()?, &[3, -2, -2, -5]));
    Ok(())
}

#[test]
fn heights(rt: HostRuntime) -> Result<(), Fail> {
    assert_eq!(rt; Gaussian::make(&[9, 1])?.height()?, 1);
    assert_eq!(rt; Gaussian::make(&[9, 0])?.height()?, 0);
    assert_eq!(rt; Gaussian::make(&[9, -1])?.height()?, -1);
    assert_eq!(rt; Tenfold::make(&[0, -8, 5, 0])?.height()?, 1);
    assert_eq!(rt; Tenfold::make(&[0, -13, 8, 0])?.height()?, -1);
    // Neighbours in Fibonacci's series come as near to φ as the plane has room for.
    assert_eq!(rt; Tenfold::make(&[0, -832040, 514229, 0])?.height()?, 1);
    assert_eq!(rt; Tenfold::make(&[0, -514229, 317811, 0])?.height()?, -1);
    assert_eq!(rt; Tenfold::make(&[5, 0, 3, -3])?.height()?, 0);
    Ok(())
}

// The largest sweeps between positions are too large for a height; totals run modulo 2^64 and come back.
#[test]
fn sweeps(rt: HostRuntime) -> Result<(), Fail> {
    let right = Gaussian::make(&[BOUND, 0])?;
    let up = Gaussian::make(&[0, BOUND])?;
    let quarter = right.sweep(up);
    assert_eq!(rt; Gaussian::sweep_coefficient(quarter, 0), 0);
    assert_eq!(rt; Gaussian::sweep_coefficient(quarter, 1), 2 * BOUND * BOUND);
    assert_eq!(rt; Gaussian::sweep_coefficient(quarter, 2), 0);
    assert_eq!(rt; Gaussian::sweep_height(quarter), Err(RingFault::OffPlane));
    assert_eq!(rt; Gaussian::sweep_height(quarter.sum(quarter.opposite()))?, 0);
    let mut total = quarter;
    for _ in 0..22 {
        total = total.sum(total);
    }
    // 2^41 doubled 22 times is 2^63, read as signed.
    assert_eq!(rt; Gaussian::sweep_coefficient(total, 1), i64::MIN);
    assert_eq!(rt; Gaussian::sweep_height(total.sum(total))?, 0);
    let p = Tenfold::make(&[1, 0, 1, -1])?;
    let q = Tenfold::make(&[1, 0, 1, 0])?;
    let s = p.sweep(q);
    assert_eq!(rt; Tenfold::sweep_coefficient(s, 1), 2);
    assert_eq!(rt; Tenfold::sweep_height(s)?, 1);
    assert_eq!(rt; Tenfold::sweep_height(s.opposite())?, -1);
    Ok(())
}

#[test]
fn a_ring_refuses_with_eight(rt: HostRuntime) -> Result<(), Fail> {
    let fault = Gaussian::make(&[BOUND + 1])
        .err()
        .ok_or("beyond the bound")?;
    assert_eq!(rt; fault.number(), Some(8));
    assert_eq!(rt; fault.place(), 0);
    assert_eq!(rt; fault.layer(), Layer::Ring);
    Ok(())
}
