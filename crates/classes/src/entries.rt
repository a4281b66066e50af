// Lists of entries, each with a class: the first entry that covers what is asked gives the class.
ghost use Rattle.std.specs.Prelude.{◌≡◌, ℕ, Bool, ◌&&◌};
ghost use Rattle.classes.specs.Determinants.{class_given, class_number};
ghost use Rattle.classes.specs.Entries.{usable, first_class, by_entries, FirstApplies};

use crate::determinant::Determinant;
use crate::usage::Usage;

pub trait Entry<Q> {
    // The class that the entry gives.
    ghost given: { Self → ℕ };

    // Whether it covers what is asked.
    ghost covering: { Self → Q → Bool };

    fn class(&self) -> u8
        ensures { result ≡ given self.now };

    fn covers(&self, asked: &Q) -> bool
        ensures { result ≡ covering self.now asked.now };

    // Whether the entry decides: it covers what is asked, and its class is from 1 to the count.
    fn decides(&self, count: u8, asked: &Q) -> bool
        ensures { result ≡ (usable count (given self.now) && covering self.now asked.now) }
    {
        let class = self.class();
        class >= 1 && class <= count && self.covers(asked)
    }

    // The class of the first entry that decides, if one does. An implementation may take out of what is asked, once, what all
    // its entries need.
    fn first(count: u8, entries: &[Self], asked: &Q) -> Option<u8>
    where
        Self: Sized,
        ensures { result ≡ class_given (first_class given (λ e. covering e asked.now) count entries.now) }
    {
        for entry in entries {
            if entry.decides(count, asked) {
                return Some(entry.class());
            }
        }
        None
    }
}

// The class of the first entry that decides, if one does.
#[tactic(auto, using(crate::proofs::FirstMatch::first_applies_given))]
pub fn first_match<Q, E: Entry<Q>>(count: u8, entries: &[E], asked: &Q) -> Option<u8>
    ensures value { result ≡ class_given (first_class E.given (λ e. E.covering e asked.now) count entries.now) }
    ensures meaning { FirstApplies E.given (λ e. E.covering e asked.now) count entries.now (class_number result) }
{
    E::first(count, entries, asked)
}

// Classes by the first entry that covers the usage.
#[derive_where(Clone, Copy)]
pub struct Listed<'a, E> {
    pub count: u8,
    pub entries: &'a [E],
}

impl<E: Entry<Usage>> Determinant for Listed<'_, E> {
    ghost meaning = { λ d. by_entries E.given E.covering d.count d.entries.now };

    fn count(&self) -> u8 {
        self.count
    }

    fn class(&self, usage: &Usage) -> Option<u8> {
        first_match(self.count, self.entries, usage)
    }
}
