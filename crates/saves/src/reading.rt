// One record of a file, read at a cursor. Its row is what a sheet would record there: of the file's bytes only the number of
// descents and whether the node is set aside are taken, and all of them are then compared with the row's.
ghost use Rattle.std.specs.Prelude.{◌≡◌, ◌<◌, ◌≤◌, List, [], ◌∷◌, ◌++◌, length, Some, None, IfSome, MatchOption};
ghost use Rattle.chains.specs.Addresses.{level};
ghost use Rattle.nodes.specs.Views.{address_view};
ghost use Rattle.calls.specs.Limits.{most_pieces};
ghost use Rattle.edges.specs.Views.{placement_view};
ghost use Rattle.calls.specs.Records.{Record, piece_view, laid_view, row_view};
ghost use Rattle.calls.specs.Views.{cursor_view, cursor_at};
ghost use Rattle.files.specs.Files.{record_bytes};
ghost use Rattle.files.specs.Judging.{record_read};
ghost use Rattle.saves.specs.Written.{LaidOnPlane, Writable};
ghost use Rattle.saves.specs.Records.{below, deeper, piece_at, closed_at, sheet_with};

use crate::bytes::{descents_in, is_aside};
use crate::matching::after_row;
use calls::cursor::Cursor;
use calls::row::Row;
use job_rows::Placed;
use nodes::address::Address;
use placer::placer::Placer;
use ring_jobs::job::RingJob;
use rings::ring::Ring;

// A record that was read: its row, where the cursor is behind it, and how many bytes it had.
#[derive(Clone, Copy)]
pub(crate) struct Read<C> {
    pub row: Row<C>,
    pub cursor: Option<Cursor>,
    pub used: usize,
}

// How many levels below its seed tile a node is.
fn level_of(node: &Address) -> u32
    ensures counted { result ≡ level (address_view node.now) }
    ensures held { result ≡ node.now.level }
{
    u32::from(node.level)
}

// A cursor at its node's first child; None at the depth.
fn descended_once<R: Ring>(job: &RingJob<R>, from: &Cursor) -> Option<Cursor>
    ensures { MatchOption result
        (job.now.depth ≤ level (cursor_view from.now).node)
        (λ c. (level (cursor_view from.now).node < job.now.depth) × (cursor_view c ≡ below (cursor_view from.now))) }
{
    if level_of(&from.node) >= job.depth {
        return None;
    }
    from.descended()
}

// So many descents from a cursor; None where one of them would go below the depth.
pub(crate) fn descended_by<R: Ring>(job: &RingJob<R>, from: Cursor, descents: u8) -> Option<Cursor>
    ensures { cursor_at result ≡ deeper job.now.depth descents (cursor_view from) }
{
    let mut cursor = from;
    for _taken in 0..descents {
        cursor = descended_once(job, &cursor)?;
    }
    Some(cursor)
}

// A placed tile as a row of a list has it.
fn plain_piece<R: Ring>(placed: &Placed<R>) -> Placed<R::Plain>
    ensures { piece_view R.exact R.listed result ≡ placement_view R.exact R.value placed.now }
{
    Placed {
        tile: placed.tile,
        turn: placed.turn,
        mirrored: placed.mirrored,
        place: placed.place.plain(),
    }
}

// The piece that is laid at a cursor: the placer's answer, where the node is at the depth.
fn piece_at<P: Placer>(placer: &mut P, at: &Cursor) -> Option<Placed<<P::R as Ring>::Plain>>
    ensures answer { P.Placer.sound placer.old → laid_view P.R.Ring.exact P.R.Ring.listed result ≡ piece_at P.R.Ring.exact (P.Placer.plan placer.old) (cursor_view at.now) }
    ensures plane { LaidOnPlane P.R.Ring.exact (laid_view P.R.Ring.exact P.R.Ring.listed result) }
    ensures kept { P.Placer.plan placer.new ≡ P.Placer.plan placer.old }
    ensures sound { P.Placer.sound placer.old → P.Placer.sound placer.new }
{
    if level_of(&at.node) != placer.job().depth {
        return None;
    }
    match placer.place(&at.node) {
        Ok(placed) => Some(plain_piece(&placed)),
        Err(_) => None,
    }
}

// The row that closes a record at a cursor: its node set aside, or its piece laid.
fn closed_at<P: Placer>(
    placer: &mut P,
    at: &Cursor,
    aside: bool,
) -> Option<Row<<P::R as Ring>::Plain>>
    ensures answer { P.Placer.sound placer.old → MatchOption result
        (closed_at P.R.Ring.exact (P.Placer.plan placer.old) (cursor_view at.now) aside ≡ None)
        (λ row. closed_at P.R.Ring.exact (P.Placer.plan placer.old) (cursor_view at.now) aside ≡ Some (row_view P.R.Ring.exact P.R.Ring.listed row)) }
    ensures writable { IfSome result (λ row. Writable P.R.Ring.exact (row_view P.R.Ring.exact P.R.Ring.listed row)) }
    ensures kept { P.Placer.plan placer.new ≡ P.Placer.plan placer.old }
    ensures sound { P.Placer.sound placer.old → P.Placer.sound placer.new }
{
    if aside {
        return Some(Row {
            descents: at.descents,
            laid: None,
        });
    }
    let piece = piece_at(placer, at)?;
    Some(Row {
        descents: at.descents,
        laid: Some(piece),
    })
}

// One record, from its first byte on; None where no sheet with this cursor goes on with a record that has bytes as these begin.
pub(crate) fn read_record<P: Placer>(
    placer: &mut P,
    cursor: &Option<Cursor>,
    bytes: &[u8],
) -> Option<Read<<P::R as Ring>::Plain>>
    ensures answer { P.Placer.sound placer.old → (rs : List (Record P.R.Ring.exact)) → length rs < most_pieces → MatchOption result
        (record_read P.R.Ring.exact (P.Placer.plan placer.old) (sheet_with P.R.Ring.exact cursor.now rs) bytes.now ≡ None)
        (λ r. record_read P.R.Ring.exact (P.Placer.plan placer.old) (sheet_with P.R.Ring.exact cursor.now rs) bytes.now ≡ Some (sheet_with P.R.Ring.exact r.cursor (rs ++ row_view P.R.Ring.exact P.R.Ring.listed r.row ∷ []))) }
    ensures used { IfSome result (λ r. (r.used ≡ length (record_bytes P.R.Ring.exact (row_view P.R.Ring.exact P.R.Ring.listed r.row))) × (r.used ≤ length bytes.now)) }
    ensures kept { P.Placer.plan placer.new ≡ P.Placer.plan placer.old }
    ensures sound { P.Placer.sound placer.old → P.Placer.sound placer.new }
{
    let [first, ..] = bytes else {
        return None;
    };
    let at = descended_by(placer.job(), (*cursor)?, descents_in(*first))?;
    let row = closed_at(placer, &at, is_aside(*first))?;
    let rest = after_row::<P::R>(bytes, &row)?;
    Some(Read {
        row,
        cursor: at.advanced(placer.job()),
        used: bytes.len() - rest.len(),
    })
}
