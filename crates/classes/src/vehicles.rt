// Vehicle classes, by axles, mass and emission.
ghost use Rattle.classes.specs.Vehicles.{rule_class, rule_covers};

use crate::entries::{Entry, Listed};
use crate::usage::Usage;

// Numbers from low to high, both included.
#[derive(Clone, Copy)]
pub struct Band<N> {
    pub low: N,
    pub high: N,
}

#[derive(Clone, Copy)]
pub struct Rule {
    pub class: u8,
    pub axles: Band<u8>,
    pub mass: Band<u16>,
    pub emission: Band<u8>,
}

impl Entry<Usage> for Rule {
    ghost given = { rule_class };

    ghost covering = { rule_covers };

    fn class(&self) -> u8 {
        self.class
    }

    // Numbers of two widths, so that a method of a band would have to state the order of any type.
    fn covers(&self, usage: &Usage) -> bool {
        self.axles.low <= usage.axles
            && usage.axles <= self.axles.high
            && self.mass.low <= usage.mass
            && usage.mass <= self.mass.high
            && self.emission.low <= usage.emission
            && usage.emission <= self.emission.high
    }
}

pub type Vehicles<'a> = Listed<'a, Rule>;
