// From a source of text to what is printed.
ghost use Rattle.std.specs.Prelude.{List, ℕ, IfOk, IfSome};
ghost use Rattle.std.specs.Io.KnownBytes.{Appends};
ghost use Rattle.replies.specs.Replies.{TextReply};

use crate::job_text::reply_to;
use std::alloc::Global;
use std::io::{Read, Result, Write};

// One byte more than a text may have is enough to refuse it.
const MOST_READ: u64 = 16385;

// Reads a text, and prints the reply to it and nothing else; it answers whether the text is refused.
pub fn print_reply<R: Read + Drop, W: Write>(heap: Global, source: R, sink: &mut W) -> Result<bool>
    ensures { IfOk result (λ refused. IfSome (R.remaining source) (λ text. (out : List ℕ) × TextReply text refused out × Appends (W.contents sink.old) (W.contents sink.new) out)) }
{
    let mut text = Vec::new(heap);
    let _ = source.take(MOST_READ).read_to_end(&mut text)?;
    let reply = reply_to(heap, text.as_slice())?;
    sink.write_all(reply.text.as_slice())?;
    Ok(reply.refused)
}
