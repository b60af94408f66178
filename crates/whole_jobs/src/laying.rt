// Laying all that is left of a sheet.
ghost use Rattle.std.specs.Prelude.{◌≡◌, ◌<◌, length, Some, IfOk};
ghost use Rattle.calls.specs.Limits.{usable};
ghost use Rattle.calls.specs.Sheets.{AtNode};
ghost use Rattle.calls.specs.Views.{cursor_at, sheet_of};
ghost use Rattle.whole_jobs.specs.Whole.{Grown, steps_left, StepsOn, LaysOn, LedOn};

use calls::cursor::Cursor;
use calls::row::Row;
use placer::placer::Placer;
use rings::ring::Ring;
use sheet::fault::SheetFault;
use sheet::open::Open;

// One step on from the cursor: above the depth down to a node's first child, at the depth its piece is laid.
fn step_on<P: Placer>(
    sheet: &mut Open<P>,
    cursor: Cursor,
    list: &mut [Row<<P::R as Ring>::Plain>],
) -> Result<(), SheetFault<P::R>>
    requires { sheet.old.cursor ≡ Some cursor }
    ensures lays { P.Placer.sound sheet.old.placer → AtNode (P.Placer.plan sheet.old.placer) (cursor_at sheet.old.cursor) → StepsOn P.R.Ring.exact (P.Placer.plan sheet.old.placer) (usable (length list.old)) result
        (sheet_of P.R.Ring.exact P.R.Ring.listed sheet.old.cursor sheet.old.count list.old) (sheet_of P.R.Ring.exact P.R.Ring.listed sheet.new.cursor sheet.new.count list.new) }
    ensures led { P.Placer.sound sheet.old.placer → LedOn P.R.Ring.exact (P.Placer.plan sheet.old.placer) (usable (length list.old))
        (sheet_of P.R.Ring.exact P.R.Ring.listed sheet.old.cursor sheet.old.count list.old) (sheet_of P.R.Ring.exact P.R.Ring.listed sheet.new.cursor sheet.new.count list.new) }
    ensures listed { Grown sheet.old.count sheet.new.count list.old list.new }
    ensures kept { P.Placer.plan sheet.new.placer ≡ P.Placer.plan sheet.old.placer }
    ensures sound { P.Placer.sound sheet.old.placer → P.Placer.sound sheet.new.placer }
    ensures node { AtNode (P.Placer.plan sheet.old.placer) (cursor_at sheet.old.cursor) → AtNode (P.Placer.plan sheet.old.placer) (cursor_at sheet.new.cursor) }
    ensures nearer { IfOk result (λ _. steps_left sheet.new.count (cursor_at sheet.new.cursor) < steps_left sheet.old.count (cursor_at sheet.old.cursor)) }
{
    if u32::from(cursor.node.level) < sheet.job().depth {
        return sheet.descend();
    }
    sheet.lay(list)?;
    Ok(())
}

// Descends above the depth and lays at it until nothing is left: the list then has the pieces of all that was pending, in order.
// Refused, the sheet stands at the piece that could not be laid: 9 with no free place, 8 off the plane.
pub fn lay_all<P: Placer>(
    sheet: &mut Open<P>,
    list: &mut [Row<<P::R as Ring>::Plain>],
) -> Result<(), SheetFault<P::R>>
    ensures lays { P.Placer.sound sheet.old.placer → AtNode (P.Placer.plan sheet.old.placer) (cursor_at sheet.old.cursor) → LaysOn P.R.Ring.exact (P.Placer.plan sheet.old.placer) (usable (length list.old)) result
        (sheet_of P.R.Ring.exact P.R.Ring.listed sheet.old.cursor sheet.old.count list.old) (sheet_of P.R.Ring.exact P.R.Ring.listed sheet.new.cursor sheet.new.count list.new) }
    ensures led { P.Placer.sound sheet.old.placer → LedOn P.R.Ring.exact (P.Placer.plan sheet.old.placer) (usable (length list.old))
        (sheet_of P.R.Ring.exact P.R.Ring.listed sheet.old.cursor sheet.old.count list.old) (sheet_of P.R.Ring.exact P.R.Ring.listed sheet.new.cursor sheet.new.count list.new) }
    ensures listed { Grown sheet.old.count sheet.new.count list.old list.new }
    ensures kept { P.Placer.plan sheet.new.placer ≡ P.Placer.plan sheet.old.placer }
    ensures sound { P.Placer.sound sheet.old.placer → P.Placer.sound sheet.new.placer }
    ensures node { AtNode (P.Placer.plan sheet.old.placer) (cursor_at sheet.old.cursor) → AtNode (P.Placer.plan sheet.old.placer) (cursor_at sheet.new.cursor) }
{
    while let Some(cursor) = sheet.cursor() {
        step_on(sheet, cursor, list)?;
    }
    Ok(())
}
