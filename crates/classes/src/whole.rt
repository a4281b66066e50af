// One class for everything.
ghost use Rattle.classes.specs.Determinants.{whole_meaning};

use crate::determinant::Determinant;
use crate::usage::Usage;

#[derive(Clone, Copy)]
pub struct Whole;

impl Whole {
    pub const COUNT: u8 = 1;
}

impl Determinant for Whole {
    ghost meaning = { λ _. whole_meaning };

    fn count(&self) -> u8 {
        Self::COUNT
    }

    fn class(&self, _usage: &Usage) -> Option<u8> {
        Some(self.count())
    }
}
