// Saving an open sheet, and resuming it from a file.
ghost use Rattle.std.specs.Prelude.{◌≡◌, ◌++◌, length, drop, Ok, Err, MatchResult};
ghost use Rattle.std.specs.List.{AllByRecursion};
ghost use Rattle.calls.specs.Fits.{Fits};
ghost use Rattle.calls.specs.Limits.{usable};
ghost use Rattle.calls.specs.Sheets.{AtNode};
ghost use Rattle.calls.specs.Views.{sheet_of, cursor_at};
ghost use Rattle.files.specs.Calls.{resume};
ghost use Rattle.files.specs.Files.{saved};
ghost use Rattle.sheet.specs.Files.{NotSaved, NotResumed};

use crate::fault::SheetFault;
use crate::open::Open;
use calls::row::Row;
use placer::placer::Placer;
use rings::ring::Ring;
use saves::resuming::resume;
use saves::saving::save;

impl<P: Placer> Open<P> {
    // Writes the sheet's file to the front of the buffer and answers its length. A list that cannot be read is refused, and then a buffer
    // that is too short; nothing is written then.
    pub fn save(
        &self,
        list: &[Row<<P::R as Ring>::Plain>],
        buffer: &mut [u8],
    ) -> Result<usize, SheetFault<P::R>>
        ensures { let E = P.R.Ring.exact in let N = P.Placer.plan self.now.placer in let s = sheet_of E P.R.Ring.listed self.now.cursor self.now.count list.now in MatchResult result
            (λ n. (n ≡ length (saved E N s)) × (buffer.new ≡ saved E N s ++ drop n buffer.old) × (length s.records ≡ self.now.count) × AllByRecursion (Fits E N) s.records)
            (λ f. NotSaved E N (length list.now) self.now.count (length buffer.old) s f × (buffer.new ≡ buffer.old)) }
    {
        Ok(save(self.placer.job(), &self.cursor, self.count, list, buffer)?)
    }

    // Puts the sheet that a file spells in place of this one, its records in front of the list. A file that is no lawful save is refused
    // where it goes wrong, and then one with more records than the list has usable places; sheet and list stay as they were then.
    pub fn resume(
        &mut self,
        list: &mut [Row<<P::R as Ring>::Plain>],
        file: &[u8],
    ) -> Result<(), SheetFault<P::R>>
        ensures resumes { P.Placer.sound self.old.placer → let E = P.R.Ring.exact in let N = P.Placer.plan self.old.placer in let places = usable (length list.old) in let s = sheet_of E P.R.Ring.listed self.new.cursor self.new.count list.new in MatchResult result
            (λ _. (resume E N places file.now ≡ Ok s) × (length s.records ≡ self.new.count) × (drop self.new.count list.new ≡ drop self.new.count list.old))
            (λ f. NotResumed E N places file.now f × (list.new ≡ list.old) × (self.new.count ≡ self.old.count) × (self.new.cursor ≡ self.old.cursor)) }
        ensures kept { P.Placer.plan self.new.placer ≡ P.Placer.plan self.old.placer }
        ensures sound { P.Placer.sound self.old.placer → P.Placer.sound self.new.placer }
        ensures node { P.Placer.sound self.old.placer → AtNode (P.Placer.plan self.old.placer) (cursor_at self.old.cursor) → AtNode (P.Placer.plan self.old.placer) (cursor_at self.new.cursor) }
    {
        let judged = resume(&mut self.placer, list, file)?;
        self.cursor = judged.cursor;
        self.count = judged.count;
        Ok(())
    }
}
