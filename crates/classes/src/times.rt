// Time classes, by weekday and minute of the day.
ghost use Rattle.std.specs.Prelude.{◌≡◌};
ghost use Rattle.classes.specs.Times.{weekday_of, has_bit, period_class, period_covers};

use crate::entries::{Entry, Listed};
use crate::usage::{Instant, Usage};

// On the days whose bits are set, Monday's being the lowest: from a minute of the day up to, and without, another.
#[derive(Clone, Copy)]
pub struct Period {
    pub class: u8,
    pub days: u8,
    pub from: u16,
    pub to: u16,
}

impl Period {
    // The class that the period gives, whatever it is asked with.
    pub fn class(&self) -> u8
        ensures { result ≡ period_class self.now }
    {
        self.class
    }

    // Whether the bit of the instant's weekday is set.
    fn runs_on(&self, instant: &Instant) -> bool
        ensures { result ≡ has_bit self.now.days (weekday_of instant.now) }
    {
        (self.days >> instant.weekday()) % 2 == 1
    }

    // Whether the instant lies on one of the days and between the minutes.
    fn holds(&self, instant: &Instant) -> bool
        ensures { result ≡ period_covers self.now instant.now }
    {
        let minute = instant.minute();
        self.runs_on(instant) && self.from <= minute && minute < self.to
    }
}

impl Entry<Instant> for Period {
    ghost given = { period_class };

    ghost covering = { period_covers };

    fn class(&self) -> u8 {
        Period::class(self)
    }

    fn covers(&self, instant: &Instant) -> bool {
        self.holds(instant)
    }
}

// A usage is asked for its instant.

impl Entry<Usage> for Period {
    ghost given = { period_class };

    ghost covering = { λ p u. period_covers p u.instant };

    fn class(&self) -> u8 {
        Entry::<Instant>::class(self)
    }

    fn covers(&self, usage: &Usage) -> bool {
        self.holds(&usage.instant)
    }
}

pub type Times<'a> = Listed<'a, Period>;
