// What the calls on an open sheet have in common.
ghost use Rattle.std.specs.Prelude.{◌≡◌, ◌<◌, ◌≤◌, ◌+◌, ◌++◌, ◌∷◌, [], length, MatchResult, MatchOption, Some, None, slice_set};
ghost use Rattle.chains.specs.Addresses.{advance};
ghost use Rattle.edges.specs.Views.{placement_view};
ghost use Rattle.calls.specs.Limits.{usable};
ghost use Rattle.calls.specs.Records.{piece_view};
ghost use Rattle.calls.specs.Sheets.{come_to};
ghost use Rattle.calls.specs.Views.{cursor_at};
ghost use Rattle.nodes.specs.Views.{address_view};
ghost use Rattle.sheet.specs.declared.fault.SheetFault.TheVariants.{NoRoom, NothingPending};

use crate::fault::SheetFault;
use crate::open::Open;
use calls::cursor::Cursor;
use calls::limits::MOST_PIECES;
use calls::row::Row;
use edges::rows::Placed;
use placer::placer::Placer;
use rings::ring::Ring;

// A placed tile as the list holds it.
pub(crate) fn plain_piece<R: Ring>(placed: &Placed<R>) -> Placed<R::Plain>
    ensures { piece_view R.exact R.listed result ≡ placement_view R.exact R.value placed.now }
{
    Placed {
        tile: placed.tile,
        turn: placed.turn,
        mirrored: placed.mirrored,
        place: placed.place.plain(),
    }
}

impl<P: Placer> Open<P> {
    // The cursor, where a node is pending.
    pub(crate) fn pending(&self) -> Result<Cursor, SheetFault<P::R>>
        ensures { MatchResult result
            (λ c. self.now.cursor ≡ Some c)
            (λ f. (f ≡ NothingPending) × (self.now.cursor ≡ None)) }
    {
        self.cursor.ok_or(SheetFault::NothingPending)
    }

    // Whether a list of that length has a free place for another record.
    pub(crate) fn free_place(&self, room: usize) -> Result<(), SheetFault<P::R>>
        ensures { MatchResult result
            (λ _. self.now.count < usable room)
            (λ f. (f ≡ NoRoom) × (usable room ≤ self.now.count)) }
    {
        if self.count >= room.min(MOST_PIECES) {
            return Err(SheetFault::NoRoom);
        }
        Ok(())
    }

    // Writes a record to the first free place, and advances.
    pub(crate) fn record(
        &mut self,
        list: &mut [Row<<P::R as Ring>::Plain>],
        cursor: &Cursor,
        laid: Option<Placed<<P::R as Ring>::Plain>>,
    )
        requires { self.old.count < usable (length list.old) }
        ensures listed { list.new ≡ slice_set list.old self.old.count (record { descents = cursor.now.descents; laid = laid }) }
        ensures counted { self.new.count ≡ self.old.count + 1 }
        ensures moved { cursor_at self.new.cursor ≡ come_to (advance (P.Placer.plan self.old.placer) (address_view cursor.now.node)) }
        ensures kept { self.new.placer ≡ self.old.placer }
    {
        list[self.count] = Row {
            descents: cursor.descents,
            laid,
        };
        self.count += 1;
        self.cursor = cursor.advanced(self.placer.job());
    }
}
