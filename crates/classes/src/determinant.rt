// The interface by which a usage is classed. Whoever prices usages may bring implementations of their own.
ghost use Rattle.std.specs.Prelude.{◌≡◌};
ghost use Rattle.classes.specs.Determinants.{Meaning, class_given};

use crate::usage::Usage;

pub trait Determinant {
    // A count, and the class of each usage from 0 to the count, 0 being none: it speaks in numbers, as sheets and the law do.
    ghost meaning: { Self → Meaning };

    fn count(&self) -> u8
        ensures { result ≡ (meaning self.now).count };

    // The class of a usage, if it has one.
    fn class(&self, usage: &Usage) -> Option<u8>
        ensures { result ≡ class_given ((meaning self.now).class usage.now) };
}

// The four determinants by which a usage is classed. Each may be of any type, so whoever takes them has four parameters.
#[derive_where(Clone, Copy)]
pub struct Determinants<'a, V, T, L, U> {
    pub vehicle: &'a V,
    pub time: &'a T,
    pub location: &'a L,
    pub user: &'a U,
}
