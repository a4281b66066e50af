// Why a sheet is not read or not written.
ghost use Rattle.std.specs.Prelude.{◌≡◌, [], ◌∷◌, Some};
ghost use Rattle.contents.specs.Refusals.{numbered as book_numbered};
ghost use Rattle.contents.specs.Text.{refusal_text};
ghost use Rattle.sheet.specs.Refusals.{fault_numbered, numbered};

use contents::Refusal;
use std::fmt;

// What is wrong with a record.
#[derive(Clone, Copy)]
pub enum RecordFault {
    // The input ends before the record does.
    CutShort,
    UnknownKind,
    // A record of another kind is due, or its number is not above the one before it of its kind.
    NotDue,
    // The book refuses what the record holds.
    Refused(Refusal),
}

#[derive(Clone, Copy)]
pub enum SheetRefusal {
    // The book's phase does not allow the call.
    Book(Refusal),
    // The first record at fault, by the place of its kind byte.
    Record { place: usize, fault: RecordFault },
    SpaceTooShort,
}

impl SheetRefusal {
    // A method and no `From`, which would look as if the number said all: a refusal carries values beside it.
    pub fn number(self) -> u8
        ensures { result ≡ (numbered self).0 }
    {
        match self {
            SheetRefusal::Book(refusal) => refusal.number(),
            SheetRefusal::Record { place: _, fault } => fault.number(),
            SheetRefusal::SpaceTooShort => 21,
        }
    }
}

impl RecordFault {
    // A method, as that of a refusal.
    pub fn number(self) -> u8
        ensures { result ≡ (fault_numbered self).0 }
    {
        match self {
            RecordFault::CutShort => 17,
            RecordFault::UnknownKind => 18,
            RecordFault::NotDue => 19,
            RecordFault::Refused(_) => 20,
        }
    }
}

impl From<Refusal> for RecordFault {
    ghost from_gives = { λ e r. fault_numbered r ≡ (20, (book_numbered e).0 ∷ []) };

    fn from(refusal: Refusal) -> RecordFault {
        RecordFault::Refused(refusal)
    }
}

impl From<Refusal> for SheetRefusal {
    ghost from_gives = { λ e r. numbered r ≡ book_numbered e };

    fn from(refusal: Refusal) -> SheetRefusal {
        SheetRefusal::Book(refusal)
    }
}

// "1", "19 at 7", "20 at 73 because 11" or "21"
impl fmt::Display for SheetRefusal {
    ghost output = { λ r. Some (refusal_text (numbered r)) };

    fn fmt<W: fmt::Write>(&self, f: &mut fmt::Formatter<W>) -> fmt::Result {
        let number = self.number();
        match self {
            SheetRefusal::Book(refusal) => write!(f, "{refusal}"),
            SheetRefusal::Record { place, fault } => match fault {
                RecordFault::Refused(refusal) => {
                    let because = refusal.number();
                    write!(f, "{number} at {place} because {because}")
                }
                _ => write!(f, "{number} at {place}"),
            },
            SheetRefusal::SpaceTooShort => write!(f, "{number}"),
        }
    }
}
