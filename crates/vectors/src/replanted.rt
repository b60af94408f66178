// A book with another depth and other seeds, as a text and as a job over a ring.
use jobs::reading::read;
use ring_jobs::job::RingJob;
use ring_jobs::making::over;
use rings::ring::Ring;
use std::alloc::{AllocError, Global};
use std::test::Fail;

pub(crate) fn job_of<R: Ring>(heap: Global, book: &str, seeds: &str) -> Result<RingJob<R>, Fail> {
    let text = text_of(heap, book, seeds)?;
    let job = read(heap, text.as_bytes())?;
    over(heap, &job).map_err(|_| Fail::new("no memory"))
}

pub(crate) fn text_of(heap: Global, book: &str, seeds: &str) -> Result<String, AllocError> {
    let mut text = String::new(heap);
    for line in book
        .split_inclusive('\n')
        .take_while(|l| !l.starts_with('D'))
    {
        text.push_str(line)?;
    }
    text.push_str(seeds)?;
    Ok(text)
}
