// Lines, and what stands at a line number.
ghost use Rattle.std.specs.Prelude.{◌≡◌, true, Decides};
ghost use Rattle.lines.specs.declared.sets.Counts.{Counts};
ghost use Rattle.lines.specs.Sets.{counts_in_range};
ghost use Rattle.lines.specs.Lines.{set_of, claims, line_fits, lines_meet, Overlap};

use crate::sets::{ClassSet, Counts};
use classes::{Classes, Role};

// The classes that a tariff covers.
#[derive(Clone, Copy)]
pub struct Line {
    pub tariff: u8,
    pub vehicles: ClassSet,
    pub times: ClassSet,
    pub locations: ClassSet,
    pub users: ClassSet,
}

// A withdrawn line keeps its number and its classes, and claims nothing.
#[derive(Clone, Copy)]
pub enum LineState {
    Free,
    Live(Line),
    Withdrawn(Line),
}

impl Line {
    // The line's set for a determinant.
    pub fn set(&self, role: Role) -> ClassSet
        ensures { result ≡ set_of role self.now }
    {
        match role {
            Role::Vehicle => self.vehicles,
            Role::Time => self.times,
            Role::Location => self.locations,
            Role::User => self.users,
        }
    }

    // Whether each class is in its set.
    pub fn claims(&self, classes: &Classes) -> bool
        ensures { result ≡ claims self.now classes.now }
    {
        self.vehicles.has(classes.vehicle)
            && self.times.has(classes.time)
            && self.locations.has(classes.location)
            && self.users.has(classes.user)
    }

    // Whether no set is empty or has a class above its count.
    pub fn fits(&self, counts: &Counts) -> bool
        ensures { result ≡ line_fits counts.now self.now }
    {
        self.vehicles.fits(counts.vehicles)
            && self.times.fits(counts.times)
            && self.locations.fits(counts.locations)
            && self.users.fits(counts.users)
    }

    // Whether some combination is claimed by both lines.
    pub fn overlaps(&self, other: &Line) -> bool
        ensures value { result ≡ lines_meet self.now other.now }
        ensures meaning { (c : Counts) → counts_in_range c ≡ true → line_fits c self.now ≡ true → Decides result (Overlap c self.now other.now) }
    {
        self.meets(other)
    }

    // A contract of its own for the four tests, so that what they say is not left to the proof of the meaning.
    fn meets(&self, other: &Line) -> bool
        ensures { result ≡ lines_meet self.now other.now }
    {
        self.vehicles.meets(other.vehicles)
            && self.times.meets(other.times)
            && self.locations.meets(other.locations)
            && self.users.meets(other.users)
    }
}
