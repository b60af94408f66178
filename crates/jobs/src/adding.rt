// One line more: each letter where it has its place, with numbers that fit. (Functions and no methods of the draft: one for each letter,
// as those beside them that decode the numbers.)
ghost use Rattle.std.specs.Prelude.{◌≡◌, ◌<◌, Decides, MatchResult, length};
ghost use Rattle.jobs.specs.Begun.{children_in};
ghost use Rattle.jobs.specs.declared.draft.Misfit.TheVariants.{Memory};
ghost use Rattle.lines.specs.Letters.{letter, letter_R, letter_I, letter_L, letter_S, letter_T, letter_C, letter_D, letter_P};
ghost use Rattle.jobs.specs.Drafts.{front, Added};
ghost use Rattle.jobs.specs.Fronts.{Place, closed};

use crate::decoding;
use crate::draft::{Draft, Misfit};
use crate::limits::{MOST_CHILDREN, MOST_LABELS, MOST_SEEDS, MOST_TILES};
use crate::rows::Tile;
use lines::Kind;
use std::alloc::Global;

fn add_ring(draft: &mut Draft, ns: &[i64]) -> Result<(), Misfit>
    ensures { Added (front draft.old) letter_R ns.now result (front draft.new) }
{
    if draft.ring.is_some() {
        return Err(Misfit::Place);
    }
    draft.ring = Some(decoding::ring(ns).ok_or(Misfit::Numbers)?);
    Ok(())
}

fn add_factor(heap: Global, draft: &mut Draft, ns: &[i64]) -> Result<(), Misfit>
    ensures { Added (front draft.old) letter_I ns.now result (front draft.new) }
{
    let ring = draft.ring.ok_or(Misfit::Place)?;
    if draft.factor.is_some() {
        return Err(Misfit::Place);
    }
    draft.factor = Some(decoding::element(heap, ns, ring.rank())?);
    Ok(())
}

fn add_label(heap: Global, draft: &mut Draft, ns: &[i64]) -> Result<(), Misfit>
    ensures { Added (front draft.old) letter_L ns.now result (front draft.new) }
{
    if draft.factor.is_none()
        || !draft.subdivisions.is_empty()
        || draft.heads.len() >= MOST_LABELS
    {
        return Err(Misfit::Place);
    }
    let head = decoding::label(heap, ns, draft.rank())?;
    draft.heads.push(head)?;
    Ok(())
}

fn add_subdivision(heap: Global, draft: &mut Draft, ns: &[i64]) -> Result<(), Misfit>
    ensures { Added (front draft.old) letter_S ns.now result (front draft.new) }
{
    if draft.subdivisions.len() >= draft.heads.len() {
        return Err(Misfit::Place);
    }
    let parts = decoding::parts(heap, ns, draft.heads.as_slice())?;
    draft.subdivisions.push(parts)?;
    Ok(())
}

fn add_child(heap: Global, draft: &mut Draft, ns: &[i64]) -> Result<(), Misfit>
    ensures { Added (front draft.old) letter_C ns.now result (front draft.new) }
{
    // Taken out and put back. (Tried by `as_mut`: what the draft holds at the end of that borrow was not proved.)
    let mut tile = draft.begun.take().ok_or(Misfit::Place)?;
    if tile.children.len() >= MOST_CHILDREN {
        return Err(Misfit::Place);
    }
    let child = decoding::placed(heap, ns, draft.order(), draft.rank())?;
    tile.children.push(child)?;
    draft.begun = Some(tile);
    Ok(())
}

fn add_seed(heap: Global, draft: &mut Draft, ns: &[i64]) -> Result<(), Misfit>
    ensures { Added (front draft.old) letter_P ns.now result (front draft.new) }
{
    if draft.depth.is_none() || draft.seeds.len() >= MOST_SEEDS {
        return Err(Misfit::Place);
    }
    let seed = decoding::placed(heap, ns, draft.order(), draft.rank())?;
    if seed.tile >= draft.tiles.len() {
        return Err(Misfit::Numbers);
    }
    draft.seeds.push(seed)?;
    Ok(())
}

// Whether there is a tile that is begun, and it has a child.
fn has_child(begun: &Option<Tile>) -> bool
    ensures { Decides result (0 < length (children_in begun.now)) }
{
    begun.as_ref().is_some_and(|tile| !tile.children.is_empty())
}

// Whether a T line may come: each label has its subdivision, and it is the first tile or the one that is begun has a child.
fn tile_has_place(draft: &Draft) -> bool
    ensures { Decides result (Place (front draft.now) letter_T) }
{
    let labels = draft.heads.len();
    if labels == 0 || draft.subdivisions.len() != labels {
        return false;
    }
    let tiles = draft.tiles.len();
    if draft.begun.is_none() && tiles == 0 {
        return true;
    }
    has_child(&draft.begun) && tiles < MOST_TILES - 1
}

// The tile that is begun, if there is one, joins the tiles.
fn close_tile(draft: &mut Draft) -> Result<(), Misfit>
    ensures { MatchResult result (λ _. front draft.new ≡ closed (front draft.old)) (λ e. e ≡ Memory) }
{
    if let Some(tile) = draft.begun.take() {
        draft.tiles.push(tile)?;
    }
    Ok(())
}

fn add_tile(heap: Global, draft: &mut Draft, ns: &[i64]) -> Result<(), Misfit>
    ensures { Added (front draft.old) letter_T ns.now result (front draft.new) }
{
    if !tile_has_place(draft) {
        return Err(Misfit::Place);
    }
    let outline = decoding::steps(heap, ns, draft.heads.as_slice(), draft.order())?;
    close_tile(draft)?;
    let children = Vec::new(heap);
    draft.begun = Some(Tile { outline, children });
    Ok(())
}

fn add_depth(draft: &mut Draft, ns: &[i64]) -> Result<(), Misfit>
    ensures { Added (front draft.old) letter_D ns.now result (front draft.new) }
{
    if !has_child(&draft.begun) {
        return Err(Misfit::Place);
    }
    let depth = decoding::depth(ns).ok_or(Misfit::Numbers)?;
    close_tile(draft)?;
    draft.depth = Some(depth);
    Ok(())
}

// Adds a line of any kind.
pub(crate) fn add_line(
    heap: Global,
    draft: &mut Draft,
    kind: Kind<'_>,
    ns: &[i64],
) -> Result<(), Misfit>
    ensures { Added (front draft.old) (letter kind.entry) ns.now result (front draft.new) }
{
    match kind {
        Kind::Ring(_) => add_ring(draft, ns),
        Kind::Factor(_) => add_factor(heap, draft, ns),
        Kind::Label(_) => add_label(heap, draft, ns),
        Kind::Subdivision(_) => add_subdivision(heap, draft, ns),
        Kind::Tile(_) => add_tile(heap, draft, ns),
        Kind::Child(_) => add_child(heap, draft, ns),
        Kind::Depth(_) => add_depth(draft, ns),
        Kind::Seed(_) => add_seed(heap, draft, ns),
    }
}
