// Why a call is refused.
ghost use Rattle.std.specs.Prelude.{◌≡◌, Some};
ghost use Rattle.classes.specs.Outcomes.{numbered as class_numbered};
ghost use Rattle.contents.specs.declared.refusal.Refusal.TheVariants.{TermsOutOfRange};
ghost use Rattle.contents.specs.Refusals.{numbered};
ghost use Rattle.contents.specs.Text.{refusal_text};

use classes::{Classes, Role};
use std::fmt;
use tariff::OutOfRange;

#[derive(Clone, Copy)]
pub enum Refusal {
    // The book's phase does not allow the call.
    WrongPhase,
    // A count of classes is not from 1 to 64.
    CountOutOfRange,
    // A tariff number is not from 1 to 64.
    NoSuchTariff,
    // A number of a tariff is out of range, or its minimum is above its cap.
    TermsOutOfRange,
    // A line number is not from 1 to 256.
    NoSuchLine,
    // The line number is live or withdrawn.
    NumberTaken,
    NotLive,
    NotWithdrawn,
    TariffNeverPut,
    // A class set is empty, or has a class above its count.
    SetOutOfRange,
    // The line overlaps this live line, and no lower one.
    Overlap(u16),
    // No live line claims this combination, and every earlier one is claimed.
    Gap(Classes),
    // The version is 255.
    LastVersion,
    // This determinant has another count than the book, and none before it does.
    CountUnlike(Role),
    // Metres, minutes or events are above 10,000,000.
    AmountOutOfRange,
    // This determinant gives the usage no class, and none before it does.
    NoClass(Role),
}

impl Refusal {
    // A method and no `From`, which would look as if the number said all: a refusal carries values beside it.
    pub fn number(self) -> u8
        ensures { result ≡ (numbered self).0 }
    {
        match self {
            Refusal::WrongPhase => 1,
            Refusal::CountOutOfRange => 2,
            Refusal::NoSuchTariff => 3,
            Refusal::TermsOutOfRange => 4,
            Refusal::NoSuchLine => 5,
            Refusal::NumberTaken => 6,
            Refusal::NotLive => 7,
            Refusal::NotWithdrawn => 8,
            Refusal::TariffNeverPut => 9,
            Refusal::SetOutOfRange => 10,
            Refusal::Overlap(_) => 11,
            Refusal::Gap(_) => 12,
            Refusal::LastVersion => 13,
            Refusal::CountUnlike(_) => 14,
            Refusal::AmountOutOfRange => 15,
            Refusal::NoClass(_) => 16,
        }
    }
}

// Each case of the smaller enum is one here, so that a refusal has its number in one table.
impl From<classes::Refusal> for Refusal {
    ghost from_gives = { λ e r. numbered r ≡ class_numbered e };

    fn from(refusal: classes::Refusal) -> Refusal {
        match refusal {
            classes::Refusal::NoClass(role) => Refusal::NoClass(role),
        }
    }
}

impl From<OutOfRange> for Refusal {
    ghost from_gives = { λ _ r. r ≡ TermsOutOfRange };

    fn from(_out: OutOfRange) -> Refusal {
        Self::TermsOutOfRange
    }
}

// "7", "11 by 4", "12 at 2 1 2 1" or "16 by 2"
impl fmt::Display for Refusal {
    ghost output = { λ r. Some (refusal_text (numbered r)) };

    fn fmt<W: fmt::Write>(&self, f: &mut fmt::Formatter<W>) -> fmt::Result {
        let number = self.number();
        match *self {
            Refusal::Overlap(line) => write!(f, "{number} by {line}"),
            Refusal::Gap(classes) => write!(f, "{number} at {classes}"),
            Refusal::CountUnlike(role) | Refusal::NoClass(role) => {
                let by = role.number();
                write!(f, "{number} by {by}")
            }
            _ => write!(f, "{number}"),
        }
    }
}
