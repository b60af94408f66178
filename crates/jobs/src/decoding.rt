// The numbers of a line, read as what the line says.
ghost use Rattle.std.specs.Prelude.{◌≡◌, ℕ, ◌^◌, ◌<◌, ◌≤◌, Bool, List, [], ◌∷◌, map, length, ℤ, pos, Decides, MatchOption, MatchResult, ◌≢◌};
ghost use Rattle.exact.specs.JobNumbers.{PlacedNumbers, Part as PartNumbers, Step as StepNumbers};
ghost use Rattle.std.specs.List.{flat_map};
ghost use Rattle.std.specs.Fn.{FnReturnsAt};
ghost use Rattle.jobs.specs.Drafts.{Unfit, arrows};
ghost use Rattle.jobs.specs.Limits.{most_depth};
ghost use Rattle.jobs.specs.Rings.{order_of};
ghost use Rattle.jobs.specs.declared.ring.NamedRing.{NamedRing};
ghost use Rattle.jobs.specs.Ranges.{Element, Sensed, PartFits, StepFits, PlacedFits, SubdivisionFits, OutlineFits};
ghost use Rattle.jobs.specs.RowLists.{RowsSay, NoRows};
ghost use Rattle.job_rows.specs.Shapes.{part_of, step_of};
ghost use Rattle.jobs.specs.Rows.{placed_of};
ghost use Rattle.jobs.specs.Spelled.{mark, label_numbers, part_numbers, step_numbers, placed_numbers};

use crate::draft::{Head, Misfit};
use crate::limits::{LEAST_STEPS, MOST_DEPTH, MOST_PARTS, MOST_SIZE, MOST_STEPS};
use crate::ring::NamedRing;
use crate::rows::{Part, Placed, Step};
use std::alloc::Global;

// The ring of an R line. (A pattern and no `TryFrom`: it judges how many numbers there are, too.)
pub(crate) fn ring(ns: &[i64]) -> Option<NamedRing>
    ensures { MatchOption result ((r : NamedRing) → ns.now ≢ pos (order_of r) ∷ []) (λ r. ns.now ≡ pos (order_of r) ∷ []) }
{
    match ns {
        [4] => Some(NamedRing::Gaussian),
        [10] => Some(NamedRing::Tenfold),
        _ => None,
    }
}

// A mark: 1 for true, 0 for false. (No `TryFrom` makes a `bool` of a number.)
fn flag(z: i64) -> Option<bool>
    ensures { MatchOption result ((b : Bool) → z ≢ mark b) (λ b. z ≡ mark b) }
{
    match z {
        0 => Some(false),
        1 => Some(true),
        _ => None,
    }
}

// A number below the limit.
fn below(z: i64, limit: u32) -> Option<u32>
    ensures { MatchOption result ((n : ℕ) → n < limit → z ≢ pos n) (λ n. (n < limit) × (z ≡ pos n)) }
{
    u32::try_from(z).ok().filter(|n| *n < limit)
}

// Whether the numbers are an element of a ring of this rank.
pub(crate) fn is_element(ns: &[i64], rank: usize) -> bool
    ensures { Decides result (Element rank ns.now) }
{
    ns.len() == rank && ns.iter().all(|z| z.unsigned_abs() <= MOST_SIZE)
}

pub(crate) fn element(heap: Global, ns: &[i64], rank: usize) -> Result<Vec<i64>, Misfit>
    ensures { MatchResult result (λ v. Element rank v.items × (ns.now ≡ v.items)) (Unfit (Element rank ns.now → ⊥)) }
{
    if !is_element(ns, rank) {
        return Err(Misfit::Numbers);
    }
    Ok(Vec::from_slice(heap, ns)?)
}

// Whether the label is there, and takes the sense.
fn takes_sense(labels: &[Head], label: usize, forward: bool) -> bool
    ensures { Decides result (Sensed (arrows labels.now) label forward) }
{
    labels.get(label).is_some_and(|l| forward || l.arrowed)
}

// An L line: the mark for arrowed, then the length.
pub(crate) fn label(heap: Global, ns: &[i64], rank: usize) -> Result<Head, Misfit>
    ensures { MatchResult result (λ l. Element rank l.length.items × (ns.now ≡ label_numbers l.arrowed l.length.items)) (Unfit ((b : Bool) (zs : List ℤ) → Element rank zs → ns.now ≢ label_numbers b zs)) }
{
    let (arrowed, length) = ns.split_first().ok_or(Misfit::Numbers)?;
    let arrowed = flag(*arrowed).ok_or(Misfit::Numbers)?;
    let length = element(heap, length, rank)?;
    Ok(Head { arrowed, length })
}

// Rows of N numbers, each read as a value, and no number after them.
fn rows<const N: usize, R: Drop, F: Fn(&[i64]) -> Option<R>>(
    heap: Global,
    ns: &[i64],
    read: F,
) -> Result<Vec<R>, Misfit>
    requires width { (0 < N) × (N < 2 ^ 32) }
    requires callable { F.IsAlwaysCallable read }
    ensures { MatchResult result (λ v. RowsSay N (λ row r. FnReturnsAt F.Fn read row r) ns.now v.items) (Unfit (NoRows N (λ row r. FnReturnsAt F.Fn read row r) ns.now)) }
{
    let (rows, rest) = ns.as_chunks::<N>();
    if !rest.is_empty() {
        return Err(Misfit::Numbers);
    }
    let mut found = Vec::new(heap);
    for row in rows {
        found.push(read(row).ok_or(Misfit::Numbers)?)?;
    }
    Ok(found)
}

// A label with its sense.
fn part(row: &[i64], labels: &[Head]) -> Option<Part>
    ensures { MatchOption result ((p : PartNumbers) → PartFits (arrows labels.now) p → row.now ≢ part_numbers p) (λ p. PartFits (arrows labels.now) (part_of p) × (row.now ≡ part_numbers (part_of p))) }
{
    let [label, forward] = row else {
        return None;
    };
    let label = usize::try_from(*label).ok()?;
    let forward = flag(*forward)?;
    takes_sense(labels, label, forward).then_some(Part { label, forward })
}

// An S line: pairs of a label and a sense.
pub(crate) fn parts(heap: Global, ns: &[i64], labels: &[Head]) -> Result<Vec<Part>, Misfit>
    ensures { MatchResult result (λ v. SubdivisionFits (arrows labels.now) (map part_of v.items) × (ns.now ≡ flat_map part_numbers (map part_of v.items))) (Unfit ((ps : List PartNumbers) → SubdivisionFits (arrows labels.now) ps → ns.now ≢ flat_map part_numbers ps)) }
{
    if ns.is_empty() || ns.len() > 2 * MOST_PARTS {
        return Err(Misfit::Numbers);
    }
    rows::<2, Part, _>(heap, ns, |row: &[i64]| part(row, labels))
}

// A label with its sense and a direction. (Not one function with `part`: what they share is `takes_sense`.)
fn step(row: &[i64], labels: &[Head], order: u32) -> Option<Step>
    ensures { MatchOption result ((s : StepNumbers) → StepFits (arrows labels.now) order s → row.now ≢ step_numbers s) (λ s. StepFits (arrows labels.now) order (step_of s) × (row.now ≡ step_numbers (step_of s))) }
{
    let [label, forward, direction] = row else {
        return None;
    };
    let label = usize::try_from(*label).ok()?;
    let forward = flag(*forward)?;
    let direction = below(*direction, order)?;
    takes_sense(labels, label, forward).then_some(Step {
        label,
        forward,
        direction,
    })
}

// A T line: triples of a label, a sense and a direction.
pub(crate) fn steps(
    heap: Global,
    ns: &[i64],
    labels: &[Head],
    order: u32,
) -> Result<Vec<Step>, Misfit>
    ensures { MatchResult result (λ v. OutlineFits (arrows labels.now) order (map step_of v.items) × (ns.now ≡ flat_map step_numbers (map step_of v.items))) (Unfit ((ss : List StepNumbers) → OutlineFits (arrows labels.now) order ss → ns.now ≢ flat_map step_numbers ss)) }
{
    if ns.len() < 3 * LEAST_STEPS || ns.len() > 3 * MOST_STEPS {
        return Err(Misfit::Numbers);
    }
    rows::<3, Step, _>(heap, ns, |row: &[i64]| step(row, labels, order))
}

// A C or a P line: tile, turn, mark for mirrored, then the place.
pub(crate) fn placed(heap: Global, ns: &[i64], order: u32, rank: usize) -> Result<Placed, Misfit>
    ensures { MatchResult result (λ p. PlacedFits order rank (placed_of p) × (ns.now ≡ placed_numbers (placed_of p))) (Unfit ((p : PlacedNumbers) → PlacedFits order rank p → ns.now ≢ placed_numbers p)) }
{
    let [tile, turn, mirrored, place @ ..] = ns else {
        return Err(Misfit::Numbers);
    };
    let tile = usize::try_from(*tile).map_err(|_| Misfit::Numbers)?;
    let turn = below(*turn, order).ok_or(Misfit::Numbers)?;
    let mirrored = flag(*mirrored).ok_or(Misfit::Numbers)?;
    let place = element(heap, place, rank)?;
    Ok(Placed {
        tile,
        turn,
        mirrored,
        place,
    })
}

// A D line.
pub(crate) fn depth(ns: &[i64]) -> Option<u32>
    ensures { MatchOption result ((n : ℕ) → n ≤ most_depth → ns.now ≢ pos n ∷ []) (λ n. (n ≤ most_depth) × (ns.now ≡ pos n ∷ [])) }
{
    match ns {
        [depth] => below(*depth, MOST_DEPTH + 1),
        _ => None,
    }
}
