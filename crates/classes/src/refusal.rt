// The four classes of a usage, or which determinant gives none.
ghost use Rattle.std.specs.Prelude.{◌≡◌, Some};
ghost use Rattle.classes.specs.Text.{classes_text, refusal_text};
ghost use Rattle.classes.specs.Determinants.{meanings_of};
ghost use Rattle.classes.specs.Outcomes.{outcome, numbered, role_number, class_outcome, classified};

use crate::determinant::{Determinant, Determinants};
use crate::usage::Usage;
use std::fmt;

// The place of a determinant among the four.
#[derive(Clone, Copy)]
pub enum Role {
    Vehicle,
    Time,
    Location,
    User,
}

#[derive(Clone, Copy)]
pub enum Refusal {
    NoClass(Role),
}

#[derive(Clone, Copy)]
pub struct Classes {
    pub vehicle: u8,
    pub time: u8,
    pub location: u8,
    pub user: u8,
}

impl Role {
    // A method, as a refusal's number, which it stands beside.
    pub fn number(self) -> u8
        ensures { result ≡ role_number self }
    {
        match self {
            Role::Vehicle => 1,
            Role::Time => 2,
            Role::Location => 3,
            Role::User => 4,
        }
    }
}

impl Refusal {
    // A method and no `From`, which would look as if the number said all: a refusal carries values beside it.
    pub fn number(self) -> u8
        ensures { result ≡ (numbered self).0 }
    {
        match self {
            Refusal::NoClass(_) => 16,
        }
    }
}

// "2 1 1 2"
impl fmt::Display for Classes {
    ghost output = { λ c. Some (classes_text c) };

    fn fmt<W: fmt::Write>(&self, f: &mut fmt::Formatter<W>) -> fmt::Result {
        let Classes {
            vehicle,
            time,
            location,
            user,
        } = *self;
        write!(f, "{vehicle} {time} {location} {user}")
    }
}

// "16 by 2"
impl fmt::Display for Refusal {
    ghost output = { λ e. Some (refusal_text (numbered e)) };

    fn fmt<W: fmt::Write>(&self, f: &mut fmt::Formatter<W>) -> fmt::Result {
        let number = self.number();
        match self {
            Refusal::NoClass(role) => {
                let by = role.number();
                write!(f, "{number} by {by}")
            }
        }
    }
}

fn class_by<D: Determinant>(role: Role, determinant: &D, usage: &Usage) -> Result<u8, Refusal>
    ensures { outcome result ≡ class_outcome (role_number role) ((D.meaning determinant.now).class usage.now) }
{
    determinant.class(usage).ok_or(Refusal::NoClass(role))
}

impl<V: Determinant, T: Determinant, L: Determinant, U: Determinant> Determinants<'_, V, T, L, U> {
    // The four classes of a usage, or the first determinant that gives none.
    pub fn classify(&self, usage: &Usage) -> Result<Classes, Refusal>
        ensures { outcome result ≡ classified (meanings_of V.meaning T.meaning L.meaning U.meaning self.now) usage.now }
    {
        Ok(Classes {
            vehicle: class_by(Role::Vehicle, self.vehicle, usage)?,
            time: class_by(Role::Time, self.time, usage)?,
            location: class_by(Role::Location, self.location, usage)?,
            user: class_by(Role::User, self.user, usage)?,
        })
    }
}
