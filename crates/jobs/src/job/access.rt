// How a job is made of a complete draft, and how its parts are read.
ghost use Rattle.std.specs.Prelude.{◌≡◌, ◌≤◌, List, map, length, IfOk};
ghost use Rattle.std.specs.List.{AllByRecursion};
ghost use Rattle.job_rows.specs.Limits.{most_parts};
ghost use Rattle.job_rows.specs.Shapes.{part_of};
ghost use Rattle.jobs.specs.Drafts.{front, head_of};
ghost use Rattle.jobs.specs.Fronts.{job_of, labelled};
ghost use Rattle.jobs.specs.Jobs.{numbers, Picks};
ghost use Rattle.jobs.specs.Ranges.{InRange};
ghost use Rattle.jobs.specs.Rows.{label_of, placed_of, tile_of};

use crate::draft::{Draft, Head};
use crate::job::Job;
use crate::rows::{Book, Label, Part, Placed, Tile};
use std::alloc::{AllocError, Global};

// Each label with its subdivision.
fn labelled(
    heap: Global,
    heads: Vec<Head>,
    subdivisions: Vec<Vec<Part>>,
) -> Result<Vec<Label>, AllocError>
    requires { (length heads.items ≡ length subdivisions.items) × AllByRecursion (λ v. length v.items ≤ most_parts) subdivisions.items }
    ensures { IfOk result (λ v. map label_of v.items ≡ labelled (map head_of heads.items) (map (λ v. map part_of v.items) subdivisions.items)) }
{
    let mut labels = Vec::new(heap);
    for (head, subdivision) in heads.into_iter().zip(subdivisions) {
        labels.push(Label {
            arrowed: head.arrowed,
            length: head.length,
            subdivision,
        })?;
    }
    Ok(labels)
}

impl Job {
    // The job that a draft says.
    pub(crate) fn of(heap: Global, draft: Draft) -> Result<Self, AllocError>
        requires { (InRange (job_of (front draft))) × (length (front draft).subdivisions ≤ length (front draft).heads) }
        ensures { IfOk result (λ j. numbers j ≡ job_of (front draft)) }
    {
        let Draft {
            ring,
            factor,
            heads,
            subdivisions,
            tiles,
            begun: _,
            depth,
            seeds,
        } = draft;
        let labels = labelled(heap, heads, subdivisions)?;
        let book = Book {
            factor: factor.unwrap(),
            labels,
            tiles,
        };
        Ok(Job {
            ring: ring.unwrap(),
            book,
            depth: depth.unwrap_or(0),
            seeds,
        })
    }

    // The ring's order n.
    pub fn order(&self) -> u32
        ensures { result ≡ (numbers self.now).order }
    {
        self.ring.order()
    }

    // The ring's rank d: how many coefficients an element has.
    pub fn rank(&self) -> usize
        ensures { result ≡ (numbers self.now).rank }
    {
        self.ring.rank()
    }

    // The coefficients of the inflation factor.
    pub fn factor(&self) -> &[i64]
        ensures { result.now ≡ (numbers self.now).factor }
    {
        self.book.factor.as_slice()
    }

    pub fn depth(&self) -> u32
        ensures { result ≡ (numbers self.now).depth }
    {
        self.depth
    }

    // The labels: kind, length and subdivision of each.
    pub fn labels(&self) -> &[Label]
        ensures { map label_of result.now ≡ (numbers self.now).labels }
    {
        self.book.labels.as_slice()
    }

    // The subdivision of label i, or None where there is no such label.
    pub fn subdivision(&self, i: usize) -> Option<&[Part]>
        ensures { Picks (numbers self.now).labels i (λ l s. map part_of s.now ≡ l.subdivision) result }
    {
        let label = self.book.labels.get(i)?;
        Some(label.subdivision.as_slice())
    }

    // The tiles: outline and children of each.
    pub fn tiles(&self) -> &[Tile]
        ensures { map tile_of result.now ≡ (numbers self.now).tiles }
    {
        self.book.tiles.as_slice()
    }

    pub fn seeds(&self) -> &[Placed]
        ensures { map placed_of result.now ≡ (numbers self.now).seeds }
    {
        self.seeds.as_slice()
    }
}
