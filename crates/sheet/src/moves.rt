// The calls on an open sheet.
ghost use Rattle.std.specs.Prelude.{◌≡◌, length, List};
ghost use Rattle.calls.specs.Limits.{usable};
ghost use Rattle.calls.specs.Records.{Record};
ghost use Rattle.calls.specs.Sheets.{Sheet, descend, lay, set_aside, AtNode};
ghost use Rattle.calls.specs.Views.{sheet_of, cursor_at};
ghost use Rattle.sheet.specs.Answers.{Does, Lays, WritesOne};

use crate::fault::SheetFault;
use crate::laying::plain_piece;
use crate::open::Open;
use calls::row::Row;
use edges::rows::Placed;
use placer::placer::Placer;
use rings::ring::Ring;

impl<P: Placer> Open<P> {
    // To the first child of the cursor's node: 11 where nothing is pending, 10 at the depth.
    pub fn descend(&mut self) -> Result<(), SheetFault<P::R>>
        ensures does { (rs : List (Record P.R.Ring.exact)) → Does P.R.Ring.exact (descend P.R.Ring.exact (P.Placer.plan self.old.placer) (record { cursor = cursor_at self.old.cursor; records = rs })) (λ _. Unit {0}) result
            (record { cursor = cursor_at self.old.cursor; records = rs }) (record { cursor = cursor_at self.new.cursor; records = rs }) }
        ensures kept { (self.new.placer ≡ self.old.placer) × (self.new.count ≡ self.old.count) }
        ensures sound { AtNode (P.Placer.plan self.old.placer) (cursor_at self.old.cursor) → AtNode (P.Placer.plan self.old.placer) (cursor_at self.new.cursor) }
    {
        let cursor = self.pending()?;
        if u32::from(cursor.node.level) >= self.placer.job().depth {
            return Err(SheetFault::WrongLevel);
        }
        self.cursor = cursor.descended();
        Ok(())
    }

    // Records the cursor's node as a piece and advances; it answers where the piece lies.
    // 11 where nothing is pending, 10 above the depth, 9 with no free place, 8 where the node is off the plane.
    pub fn lay(
        &mut self,
        list: &mut [Row<<P::R as Ring>::Plain>],
    ) -> Result<Placed<P::R>, SheetFault<P::R>>
        ensures lays { Lays P.R.Ring.exact P.R.Ring.value (P.Placer.plan self.old.placer) (P.Placer.sound self.old.placer) (usable (length list.old)) result
            (sheet_of P.R.Ring.exact P.R.Ring.listed self.old.cursor self.old.count list.old) (sheet_of P.R.Ring.exact P.R.Ring.listed self.new.cursor self.new.count list.new) }
        ensures listed { WritesOne result self.old.count self.new.count list.old list.new }
        ensures kept { P.Placer.plan self.new.placer ≡ P.Placer.plan self.old.placer }
        ensures sound { P.Placer.sound self.old.placer → P.Placer.sound self.new.placer }
        ensures node { AtNode (P.Placer.plan self.old.placer) (cursor_at self.old.cursor) → AtNode (P.Placer.plan self.old.placer) (cursor_at self.new.cursor) }
    {
        let cursor = self.pending()?;
        if u32::from(cursor.node.level) != self.placer.job().depth {
            return Err(SheetFault::WrongLevel);
        }
        self.free_place(list.len())?;
        let placed = self.placer.place(&cursor.node)?;
        self.record(list, &cursor, Some(plain_piece(&placed)));
        Ok(placed)
    }

    // Records the cursor's node as set aside and advances, at any level: 11 where nothing is pending, 9 with no free place.
    pub fn set_aside(
        &mut self,
        list: &mut [Row<<P::R as Ring>::Plain>],
    ) -> Result<(), SheetFault<P::R>>
        ensures does { Does P.R.Ring.exact (set_aside P.R.Ring.exact (P.Placer.plan self.old.placer) (usable (length list.old)) (sheet_of P.R.Ring.exact P.R.Ring.listed self.old.cursor self.old.count list.old)) (λ _. Unit {0}) result
            (sheet_of P.R.Ring.exact P.R.Ring.listed self.old.cursor self.old.count list.old) (sheet_of P.R.Ring.exact P.R.Ring.listed self.new.cursor self.new.count list.new) }
        ensures listed { WritesOne result self.old.count self.new.count list.old list.new }
        ensures kept { self.new.placer ≡ self.old.placer }
        ensures node { AtNode (P.Placer.plan self.old.placer) (cursor_at self.old.cursor) → AtNode (P.Placer.plan self.old.placer) (cursor_at self.new.cursor) }
    {
        let cursor = self.pending()?;
        self.free_place(list.len())?;
        self.record(list, &cursor, None);
        Ok(())
    }
}
