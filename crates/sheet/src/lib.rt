// The tariff sheet: the bytes of a book's version, counts, tariffs and live lines, read and written.
#![tactic(auto)]

mod fields;
mod reading;
mod records;
mod refusal;
mod writing;

pub use reading::read_sheet;
pub use refusal::{RecordFault, SheetRefusal};
pub use writing::{LONGEST_SHEET, write_sheet};
