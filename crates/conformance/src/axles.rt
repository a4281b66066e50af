// A determinant written outside the library: two axles, three, or more.
ghost use Rattle.conformance.specs.Axles.{by_axles};

use classes::{Determinant, Usage};

#[derive(Clone, Copy)]
pub struct ByAxles;

impl ByAxles {
    pub const COUNT: u8 = 3;
}

impl Determinant for ByAxles {
    ghost meaning = { λ _. by_axles };

    fn count(&self) -> u8 {
        Self::COUNT
    }

    // A vehicle of fewer than two axles has no class.
    fn class(&self, usage: &Usage) -> Option<u8> {
        match usage.axles.saturating_sub(1) {
            0 => None,
            more => Some(more.min(Self::COUNT)),
        }
    }
}
