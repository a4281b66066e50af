// The two calls that read and write the tariff sheet of a book.
ghost use Rattle.std.specs.Prelude.{◌≡◌, ℕ, ◌<◌, true, [], length};
ghost use Rattle.classes.specs.Outcomes.{accepted, refusal};
ghost use Rattle.contents.specs.declared.contents.Contents.{Contents};
ghost use Rattle.contents.specs.declared.contents.Phase.TheVariants.{Blank};
ghost use Rattle.contents.specs.Calls.{answered, settled};
ghost use Rattle.contents.specs.Contents.{in_phase};
ghost use Rattle.sheet.specs.Acceptable.{Acceptable};
ghost use Rattle.sheet.specs.Fields.{written};
ghost use Rattle.sheet.specs.Reading.{read_refusal, sheet_contents};
ghost use Rattle.sheet.specs.Refusals.{outcome, left_by};
ghost use Rattle.sheet.specs.Writing.{write_refusal, sheet_of};
ghost use Rattle.book.specs.Laws.{ReadsBack};

use crate::book::Book;
use contents::Phase;
use sheet::{LONGEST_SHEET, SheetRefusal, read_sheet, write_sheet};

impl Book {
    // Makes a draft of a blank book, with the version, counts, tariffs and lines of a sheet.
    pub fn read(&mut self, bytes: &[u8]) -> Result<(), SheetRefusal>
        ensures answer { outcome result ≡ answered (read_refusal self.old.contents bytes.now) tt }
        ensures after { self.new.contents ≡ settled (read_refusal self.old.contents bytes.now) self.old.contents (sheet_contents bytes.now) }
        ensures acceptable { outcome result ≡ accepted tt → Acceptable bytes.now self.new.contents }
        ensures exact { (b : Contents) → in_phase Blank self.old.contents ≡ true → Acceptable bytes.now b → outcome result ≡ accepted tt }
        ensures rewritten { outcome result ≡ accepted tt → sheet_of self.new.contents ≡ bytes.now }
    {
        self.take_sheet(bytes)
    }

    fn take_sheet(&mut self, bytes: &[u8]) -> Result<(), SheetRefusal>
        ensures answer { outcome result ≡ answered (read_refusal self.old.contents bytes.now) tt }
        ensures after { self.new.contents ≡ settled (read_refusal self.old.contents bytes.now) self.old.contents (sheet_contents bytes.now) }
    {
        self.contents.expect(Phase::Blank)?;
        self.contents = read_sheet(bytes)?;
        Ok(())
    }

    // Writes the book's sheet from the front of the space, and answers its length.
    #[tactic(auto, using(crate::proofs::Backward::written_reads_back))]
    pub fn write(&self, space: &mut [u8]) -> Result<usize, SheetRefusal>
        ensures answer { outcome result ≡ answered (write_refusal self.now.contents (length space.old)) (length (sheet_of self.now.contents)) }
        ensures after { space.new ≡ left_by (write_refusal self.now.contents (length space.old)) space.old (written 0 (sheet_of self.now.contents) space.old) }
        ensures longest { outcome result ≡ refusal (21, []) → length space.old < LONGEST_SHEET }
        ensures back { (n : ℕ) → outcome result ≡ accepted n → ReadsBack self.now.contents (sheet_of self.now.contents) }
    {
        write_sheet(&self.contents, space)
    }
}
