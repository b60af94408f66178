// A job from its text.
ghost use Rattle.std.specs.Prelude.{◌≡◌, ℕ, ◌<◌, ◌≤◌, ◌⊎◌, length, Some, MatchResult};
ghost use Rattle.exact.specs.JobNumbers.{JobNumbers};
ghost use Rattle.faults.specs.declared.TextFault.TheVariants.{Memory};
ghost use Rattle.jobs.specs.declared.reading.LineFault.TheVariants.{Unread, Unadded};
ghost use Rattle.jobs.specs.Drafts.{front};
ghost use Rattle.faults.specs.Told.{told};
ghost use Rattle.jobs.specs.Faults.{Refuses};
ghost use Rattle.jobs.specs.Jobs.{numbers};
ghost use Rattle.jobs.specs.Limits.{most_bytes};
ghost use Rattle.jobs.specs.OneText.{OneText};
ghost use Rattle.jobs.specs.Ranges.{InRange};
ghost use Rattle.jobs.specs.Turns.{Taken, Halted, ReadUp, fault_at};
ghost use Rattle.jobs.specs.Refusals.{Refused};
ghost use Rattle.jobs.specs.Spelled.{spelled};

use crate::adding::add_line;
use crate::draft::{Draft, Misfit};
use crate::job::Job;
use crate::late::beyond_tile;
use crate::limits::MOST_BYTES;
use faults::TextFault;
use lines::{Misread, first_line};
use std::alloc::Global;

// Why a line is not taken: it is not read, or what it says is not added.
#[derive(Debug, Clone, Copy, PartialEq, Eq)]
enum LineFault {
    Unread(Misread),
    Unadded(Misfit),
}

impl From<Misread> for LineFault {
    ghost from_gives = { λ e r. r ≡ Unread e };

    fn from(e: Misread) -> LineFault {
        LineFault::Unread(e)
    }
}

impl From<Misfit> for LineFault {
    ghost from_gives = { λ e r. r ≡ Unadded e };

    fn from(e: Misfit) -> LineFault {
        LineFault::Unadded(e)
    }
}

impl LineFault {
    // The fault of a text with this fault at the line.
    fn at(self, line: usize) -> TextFault
        ensures { result ≡ fault_at self line }
    {
        match self {
            LineFault::Unread(Misread::Misspelt) => TextFault::Misspelt(line),
            LineFault::Unadded(Misfit::Place) => TextFault::Misplaced(line),
            LineFault::Unadded(Misfit::Numbers) => TextFault::Unfit(line),
            LineFault::Unread(Misread::Memory) | LineFault::Unadded(Misfit::Memory) =>
                TextFault::Memory,
        }
    }
}

// Takes the first line of the rest into the draft, and hands on what follows it.
fn take_line<'a>(heap: Global, draft: &mut Draft, rest: &'a [u8]) -> Result<&'a [u8], LineFault>
    requires { 0 < length rest.now }
    ensures { MatchResult result (λ more. Taken rest.now (front draft.old) more.now (front draft.new)) (λ e. (line : ℕ) → Halted rest.now (front draft.old) line (fault_at e line)) }
{
    let (kind, found, more) = first_line(heap, rest)?;
    add_line(heap, draft, kind, found.as_slice())?;
    Ok(more)
}

// All lines of a text that is not overlong, up to the last P line.
fn read_lines(heap: Global, text: &[u8]) -> Result<Draft, TextFault>
    requires { length text.now ≤ most_bytes }
    ensures { MatchResult result (λ d. ReadUp text.now (front d)) (Refuses text.now) }
{
    let mut draft = Draft {
        ring: None,
        factor: None,
        heads: Vec::new(heap),
        subdivisions: Vec::new(heap),
        tiles: Vec::new(heap),
        begun: None,
        depth: None,
        seeds: Vec::new(heap),
    };
    let mut rest = text;
    // Counted by hand, since the number of the next line is told after the last line too.
    let mut line = 1;
    while !rest.is_empty() {
        rest = take_line(heap, &mut draft, rest).map_err(|fault| fault.at(line))?;
        line += 1;
    }
    if draft.seeds.is_empty() {
        return Err(TextFault::Misplaced(line));
    }
    Ok(draft)
}

// The job that a text spells, or the number and the place of its refusal. The line of the first child that names a tile
// beyond the last is refused only after all others.
pub fn read(heap: Global, text: &[u8]) -> Result<Job, TextFault>
    ensures answer { MatchResult result (λ j. (text.now ≡ spelled (numbers j)) × InRange (numbers j)) (Refuses text.now) }
    ensures accepts { (j : JobNumbers) → InRange j → text.now ≡ spelled j → MatchResult result (λ k. numbers k ≡ j) (λ e. e ≡ Memory) }
    ensures refuses { (n k : ℕ) → Refused text.now n k → MatchResult result (λ _. ⊥) (λ e. (e ≡ Memory) ⊎ (told e ≡ Some (n, k))) }
{
    if text.len() > MOST_BYTES {
        return Err(TextFault::Overlong);
    }
    let draft = read_lines(heap, text)?;
    let first = 3 + 2 * draft.heads.len();
    match beyond_tile(draft.tiles.as_slice(), first) {
        Some(line) => Err(TextFault::Unfit(line)),
        None => Ok(Job::of(heap, draft)?),
    }
}

// Carries the law that a text reads as at most one job, that a job has one text, and that no text is refused in two
// ways or both read and refused.
pub fn one_text()
    ensures { OneText }
{}
