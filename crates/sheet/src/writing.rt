// Writing a tariff sheet into a space that is lent, each record from the byte where the one before it ended.
ghost use Rattle.std.specs.Prelude.{◌≡◌, ℕ, ◌+◌, ◌*◌, ◌≤◌, List, length, ◌<◌, [], sum_by};
ghost use Rattle.classes.specs.Outcomes.{refusal};
ghost use Rattle.contents.specs.Calls.{answered};
ghost use Rattle.sheet.specs.Fields.{written};
ghost use Rattle.sheet.specs.Writing.{tariff_bytes, tariff_size, line_bytes, line_size, table_bytes, sheet_of, write_refusal};
ghost use Rattle.sheet.specs.Refusals.{outcome, left_by};

use crate::fields::put;
use crate::records::{
    END_KIND, END_LENGTH, LINE_LENGTH, OPENING_LENGTH, TARIFF_LENGTH, write_line, write_opening,
    write_tariff,
};
use crate::refusal::SheetRefusal;
use contents::{Contents, Phase, Refusal};
use lines::{LineState, LineTable};
use tariff::{Tariff, Terms};

// The longest sheet: an opening, 64 tariffs, 256 lines and an end.
pub const LONGEST_SHEET: usize = OPENING_LENGTH
    + Contents::TARIFFS * TARIFF_LENGTH
    + LineTable::NUMBERS * LINE_LENGTH
    + END_LENGTH;

// What stands at a number of a table, and its record, if it has one.
trait Listed {
    ghost bytes: { Self → ℕ → List ℕ };

    // How long the record is, or 0.
    ghost size: { Self → ℕ };

    // The highest number in a table.
    ghost most: { ℕ };

    fn record_length(&self) -> usize
        ensures size { result ≡ size self.now }
        ensures bound { result ≤ LINE_LENGTH };

    // Writes the record, if there is one, and answers its length.
    fn write(&self, number: u16, space: &mut [u8]) -> usize
        requires numbered { number ≤ most }
        requires room { length (bytes self.now number) ≤ length space.old }
        ensures after { space.new ≡ written 0 (bytes self.now number) space.old }
        ensures value { result ≡ length (bytes self.now number) };
}

// Each asks twice whether there is a record, since all lengths are known before a byte is written.
impl Listed for Option<Tariff> {
    ghost bytes = { tariff_bytes };

    ghost size = { tariff_size };

    ghost most = { 64 };

    fn record_length(&self) -> usize {
        match self {
            Some(_) => TARIFF_LENGTH,
            None => 0,
        }
    }

    #[tactic(auto, using(crate::proofs::Lengths::written_nothing, crate::proofs::Lengths::length_tariff_record))]
    fn write(&self, number: u16, space: &mut [u8]) -> usize {
        match self {
            Some(tariff) => write_tariff(space, number as u8, &Terms::from(*tariff)),
            None => 0,
        }
    }
}

impl Listed for LineState {
    ghost bytes = { line_bytes };

    ghost size = { line_size };

    ghost most = { 256 };

    fn record_length(&self) -> usize {
        match self {
            LineState::Live(_) => LINE_LENGTH,
            _ => 0,
        }
    }

    #[tactic(auto, using(crate::proofs::Lengths::written_nothing, crate::proofs::Lengths::length_line_record))]
    fn write(&self, number: u16, space: &mut [u8]) -> usize {
        match self {
            LineState::Live(line) => write_line(space, number, line),
            _ => 0,
        }
    }
}

// The length of the records of a table.
fn table_length<T: Listed>(table: &[T]) -> usize
    requires { length table.now ≤ 256 }
    ensures { result ≡ sum_by T.size table.now }
{
    table.iter().map(|entry| entry.record_length()).sum()
}

// Writes the records of a table from a place on, and answers the place behind them.
fn write_table<T: Listed>(table: &[T], space: &mut [u8], start: usize) -> usize
    requires numbered { length table.now ≤ T.most }
    requires few { length table.now ≤ 256 }
    requires room { start + length (table_bytes T.bytes 1 table.now) ≤ length space.old }
    ensures after { space.new ≡ written start (table_bytes T.bytes 1 table.now) space.old }
    ensures value { result ≡ start + length (table_bytes T.bytes 1 table.now) }
{
    // The place is kept here, as each record is lent the space from its place on.
    let mut place = start;
    for (passed, entry) in table.iter().enumerate() {
        place += entry.write(passed as u16 + 1, &mut space[place..]);
    }
    place
}

#[tactic(auto, using(crate::proofs::Lengths::tariffs_most, crate::proofs::Lengths::lines_most))]
fn sheet_length(contents: &Contents) -> usize
    ensures value { result ≡ length (sheet_of contents.now) }
    ensures longest { result ≤ LONGEST_SHEET }
{
    OPENING_LENGTH
        + table_length(&contents.tariffs)
        + table_length(&contents.lines.states)
        + END_LENGTH
}

// Writes the sheet of these contents from the front of the space, and answers its length.
pub fn write_sheet(contents: &Contents, space: &mut [u8]) -> Result<usize, SheetRefusal>
    ensures answer { outcome result ≡ answered (write_refusal contents.now (length space.old)) (length (sheet_of contents.now)) }
    ensures after { space.new ≡ left_by (write_refusal contents.now (length space.old)) space.old (written 0 (sheet_of contents.now) space.old) }
    ensures longest { outcome result ≡ refusal (21, []) → length space.old < LONGEST_SHEET }
{
    if let Phase::Blank = contents.phase {
        return Err(SheetRefusal::Book(Refusal::WrongPhase));
    }
    if space.len() < sheet_length(contents) {
        return Err(SheetRefusal::SpaceTooShort);
    }
    let place = write_opening(space, contents.version, &contents.counts);
    let place = write_table(&contents.tariffs, space, place);
    let place = write_table(&contents.lines.states, space, place);
    Ok(put(space, place, &[END_KIND]))
}
