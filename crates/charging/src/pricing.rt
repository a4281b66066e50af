// What a usage costs: the tests before a price, and the price of the line that claims its classes.
ghost use Rattle.std.specs.Prelude.{◌≡◌, [], ◌∷◌, Some, if◌then◌else◌, nat_eq};
ghost use Rattle.classes.specs.Outcomes.{accepted, refusal, role_number};
ghost use Rattle.classes.specs.Determinants.{Meanings, meanings_of};
ghost use Rattle.contents.specs.Calls.{answered};
ghost use Rattle.charging.specs.Prices.{amounts_of, amounts_in_range, classes_of, price_refusal, price_of};
ghost use Rattle.charging.specs.Text.{price_text};
ghost use Rattle.contents.specs.Refusals.{outcome};

use classes::{Classes, Determinant, Determinants, Role, Usage};
use contents::{Contents, Phase, Refusal};
use lines::LineState;
use std::fmt;
use tariff::{Amounts, Charge};

// What a usage costs, by which line and which tariff.
#[derive(Clone, Copy)]
pub struct Price {
    pub line: u16,
    pub tariff: u8,
    pub charge: Charge,
}

// "line 1 tariff 1 fee 100 vat 19"
impl fmt::Display for Price {
    ghost output = { λ p. Some (price_text p) };

    fn fmt<W: fmt::Write>(&self, f: &mut fmt::Formatter<W>) -> fmt::Result {
        let Price {
            line,
            tariff,
            charge,
        } = *self;
        write!(f, "line {line} tariff {tariff} {charge}")
    }
}

// The most metres, minutes or events that are priced.
pub const HIGHEST_AMOUNT: u32 = 10_000_000;

// What was driven, in each measure. A function, since `From` may be written only beside one of its two types.
pub fn amounts_of(usage: &Usage) -> Amounts
    ensures { result ≡ amounts_of usage.now }
{
    Amounts {
        metres: usage.metres,
        minutes: usage.minutes,
        events: usage.events,
    }
}

fn amounts_in_range(usage: &Usage) -> bool
    ensures { result ≡ amounts_in_range usage.now }
{
    usage.metres <= HIGHEST_AMOUNT
        && usage.minutes <= HIGHEST_AMOUNT
        && usage.events <= HIGHEST_AMOUNT
}

// Whether a determinant has the count that the book has.
fn same_count<D: Determinant>(role: Role, determinant: &D, count: u8) -> Result<(), Refusal>
    ensures { outcome result ≡ (if nat_eq (D.meaning determinant.now).count count then accepted tt else refusal (14, role_number role ∷ [])) }
{
    if determinant.count() == count {
        Ok(())
    } else {
        Err(Refusal::CountUnlike(role))
    }
}

// The classes of a usage that may be priced by these contents.
pub fn priced_classes<V: Determinant, T: Determinant, L: Determinant, U: Determinant>(
    contents: &Contents,
    determinants: &Determinants<V, T, L, U>,
    usage: &Usage,
) -> Result<Classes, Refusal>
    ensures { let d : Meanings = meanings_of V.meaning T.meaning L.meaning U.meaning determinants.now in outcome result ≡ answered (price_refusal contents.now d usage.now) (classes_of d usage.now) }
{
    contents.expect(Phase::Issued)?;
    same_count(
        Role::Vehicle,
        determinants.vehicle,
        contents.counts.vehicles,
    )?;
    same_count(Role::Time, determinants.time, contents.counts.times)?;
    same_count(
        Role::Location,
        determinants.location,
        contents.counts.locations,
    )?;
    same_count(Role::User, determinants.user, contents.counts.users)?;
    if !amounts_in_range(usage) {
        return Err(Refusal::AmountOutOfRange);
    }
    Ok(determinants.classify(usage)?)
}

// The price by the lowest live line that claims the classes, if there is one and its tariff was put.
pub fn price_of(contents: &Contents, classes: &Classes, amounts: &Amounts) -> Option<Price>
    ensures { result ≡ price_of contents.now classes.now amounts.now }
{
    let line = contents.lines.first_claim(classes)?;
    let LineState::Live(claimant) = contents.line(line) else {
        return None;
    };
    let tariff = contents.tariff(claimant.tariff)?;
    Some(Price {
        line,
        tariff: claimant.tariff,
        charge: tariff.charge(amounts),
    })
}
