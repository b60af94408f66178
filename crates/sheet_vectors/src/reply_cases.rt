// What is printed for texts.
use crate::replanted::text_of;
use replies::printing::print_reply;
use std::alloc::Global;
use std::process::Abort;
use std::test::Fail;
use vectors::books::{CHAIR, PENROSE};

// Prints the reply to a text behind what is printed already, and checks it, and whether it is told as a refusal.
fn answered(
    rt: &impl Abort,
    heap: Global,
    text: &[u8],
    refused: bool,
    reply: &[u8],
) -> Result<(), Fail> {
    let mut printed = Vec::new(heap);
    printed.push(b'>')?;
    let told = print_reply(heap, text, &mut printed).map_err(|_| Fail::new("not printed"))?;
    assert!(rt; told == refused);
    assert!(rt; printed.as_slice().first() == Some(&b'>'));
    assert!(rt; printed.as_slice().get(1..) == Some(reply));
    Ok(())
}

#[test]
fn jobs_are_answered(rt: HostRuntime) -> Result<(), Fail> {
    let heap = rt.alloc();
    let one = text_of(heap, CHAIR, "D 1\nP 0 0 0 0 0\n")?;
    let list = b"0 0 0 0 0\n0 0 0 1 1\n0 1 0 4 0\n0 3 0 0 4\n".as_slice();
    answered(&rt, heap, one.as_bytes(), false, list)?;
    let seed = text_of(heap, PENROSE, "D 0\nP 0 0 1 -32 0 0 32\n")?;
    answered(
        &rt,
        heap,
        seed.as_bytes(),
        false,
        b"0 0 1 -32 0 0 32\n".as_slice(),
    )?;
    let many = text_of(heap, CHAIR, "D 7\nP 0 0 0 0 0\n")?;
    answered(
        &rt,
        heap,
        many.as_bytes(),
        true,
        b"refused 9 0\n".as_slice(),
    )
}

#[test]
fn other_texts_are_answered(rt: HostRuntime) -> Result<(), Fail> {
    let heap = rt.alloc();
    answered(&rt, heap, b"".as_slice(), true, b"refused 2 1\n".as_slice())?;
    answered(
        &rt,
        heap,
        b"R 4\nI 2\n".as_slice(),
        true,
        b"refused 3 2\n".as_slice(),
    )?;
    answered(
        &rt,
        heap,
        b"R 4\nI 02 0\n".as_slice(),
        true,
        b"refused 1 2\n".as_slice(),
    )
}

fn overlong(rt: &impl Abort, heap: Global, bytes: usize) -> Result<(), Fail> {
    let text = vec![in heap; b'R'; bytes]?;
    answered(rt, heap, text.as_slice(), true, b"refused 3 0\n".as_slice())
}

// One byte more than a text may have, and many more.
#[test]
fn overlong_texts_are_answered(rt: HostRuntime) -> Result<(), Fail> {
    overlong(&rt, rt.alloc(), 16385)?;
    overlong(&rt, rt.alloc(), 40000)
}
