// A call of a book with its own arguments, and what a call answers, as values.
use charging::Price;
use classes::{Determinants, Usage};
use lines::{Counts, Line};
use sheet::SheetRefusal;
use tariff::Terms;

#[derive_where(Clone, Copy)]
pub enum Call<'a, V, T, L, U> {
    Open(Counts),
    Put(u8, Terms),
    Add(u16, Line),
    Withdraw(u16),
    Restore(u16),
    Strike(u16),
    Issue,
    Reopen,
    // A usage, and the four determinants that class it.
    Price {
        determinants: Determinants<'a, V, T, L, U>,
        usage: Usage,
    },
    // The bytes of a sheet.
    Read(&'a [u8]),
    // How long the space for the sheet is.
    Write(usize),
}

// What a call answers that is not refused.
#[derive(Drop)]
pub enum Accepted {
    Done,
    // The version that was issued.
    Version(u8),
    Price(Price),
    // The bytes of the sheet.
    Wrote(Vec<u8>),
}

// A refusal of the book is one of a call on a sheet too.
pub type Answer = Result<Accepted, SheetRefusal>;
