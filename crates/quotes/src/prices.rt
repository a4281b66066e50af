// A price list: one general tariff, and rates of their own for some vehicle and location classes.
ghost use Rattle.std.specs.Prelude.{◌≡◌};
ghost use Rattle.std.specs.List.{find};
ghost use Rattle.std.specs.Option.{option_map};
ghost use Rattle.classes.specs.Determinants.{meanings_of};
ghost use Rattle.classes.specs.Outcomes.{outcome};
ghost use Rattle.quotes.specs.Quotes.{is_for, tariff_for, quote_outcome};

use charging::amounts_of;
use classes::{Classes, Determinant, Determinants, Refusal, Usage};
use tariff::{Charge, Tariff};

// What a unit costs in these classes.
#[derive(Clone, Copy)]
pub struct Rate {
    pub vehicle: u8,
    pub location: u8,
    pub rate: u32,
}

#[derive(Clone, Copy)]
pub struct PriceList<'a> {
    pub general: Tariff,
    pub rates: &'a [Rate],
}

#[derive(Clone, Copy)]
pub struct Quote {
    pub classes: Classes,
    pub charge: Charge,
}

impl Rate {
    fn is_for(&self, classes: &Classes) -> bool
        ensures { result ≡ is_for self.now classes.now }
    {
        self.vehicle == classes.vehicle && self.location == classes.location
    }
}

impl PriceList<'_> {
    // The first rate for the classes, if there is one.
    fn rate_for(&self, classes: &Classes) -> Option<&Rate>
        ensures { option_map (λ r. r.now) result ≡ find (λ r. is_for r classes.now) self.now.rates.now }
    {
        self.rates.iter().find(|rate| rate.is_for(classes))
    }

    // The general tariff, at the first rate for the classes, if there is one.
    pub fn tariff_for(&self, classes: &Classes) -> Tariff
        ensures { result ≡ tariff_for self.now.general self.now.rates.now classes.now }
    {
        match self.rate_for(classes) {
            Some(found) => Tariff {
                rate: found.rate,
                ..self.general
            },
            None => self.general,
        }
    }
}

// The classes of a trip and what it costs, or the first determinant that gives it no class.
pub fn quote_trip<V: Determinant, T: Determinant, L: Determinant, U: Determinant>(
    determinants: &Determinants<V, T, L, U>,
    prices: &PriceList,
    usage: &Usage,
) -> Result<Quote, Refusal>
    ensures { outcome result ≡ quote_outcome prices.now.general prices.now.rates.now usage.now (meanings_of V.meaning T.meaning L.meaning U.meaning determinants.now) }
{
    let classes = determinants.classify(usage)?;
    let charge = prices.tariff_for(&classes).charge(&amounts_of(usage));
    Ok(Quote { classes, charge })
}
