// A job's text into a caller's buffer.
ghost use Rattle.std.specs.Prelude.{◌≡◌, ◌<◌, ◌≤◌, ◌++◌, length, drop, MatchResult};
ghost use Rattle.jobs.specs.Jobs.{numbers};
ghost use Rattle.jobs.specs.RowTexts.{job_text};
ghost use Rattle.jobs.specs.Spelled.{spelled};

use crate::job::Job;
use crate::writing::{Sheet, Spelt, put_line, put_lines, put_subdivisions};
use faults::TooShort;

impl Spelt for Job {
    ghost text = { job_text };

    fn put(&self, sheet: &mut Sheet) -> Result<(), TooShort> {
        put_line(sheet, b'R', &self.ring)?;
        put_line(sheet, b'I', &self.book.factor)?;
        put_lines(sheet, b'L', &self.book.labels)?;
        put_subdivisions(sheet, &self.book.labels)?;
        self.book.tiles.put(sheet)?;
        put_line(sheet, b'D', &self.depth)?;
        put_lines(sheet, b'P', &self.seeds)
    }
}

impl Job {
    // Writes the job's text into the buffer and answers its length; where the buffer is too short, writes nothing.
    pub fn write(&self, buffer: &mut [u8]) -> Result<usize, TooShort>
        ensures { MatchResult result (λ n. (n ≡ length (spelled (numbers self.now))) × (n ≤ length buffer.old) × (buffer.new ≡ spelled (numbers self.now) ++ drop n buffer.old)) (λ _. (length buffer.old < length (spelled (numbers self.now))) × (buffer.new ≡ buffer.old)) }
    {
        let mut sheet = Sheet::new();
        self.put(&mut sheet)?;
        let text = sheet.as_slice();
        if text.len() > buffer.len() {
            return Err(TooShort);
        }
        buffer[..text.len()].copy_from_slice(text);
        Ok(text.len())
    }
}
