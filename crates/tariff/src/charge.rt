// What a tariff charges for what was driven.
ghost use Rattle.std.specs.Prelude.{◌≡◌, Some};
ghost use Rattle.tariff.specs.Text.{charge_text};
ghost use Rattle.tariff.specs.Fees.{amount_of, base_of, fee_of, vat_of, charge_of};

use crate::codes::Measure;
use crate::terms::Tariff;
use std::fmt;

// What was driven, in each measure.
#[derive(Clone, Copy)]
pub struct Amounts {
    pub metres: u32,
    pub minutes: u32,
    pub events: u32,
}

// A fee and the VAT on it, in minor currency units.
#[derive(Clone, Copy)]
pub struct Charge {
    pub fee: u32,
    pub vat: u64,
}

// "fee 506 vat 96"
impl fmt::Display for Charge {
    ghost output = { λ c. Some (charge_text c) };

    fn fmt<W: fmt::Write>(&self, f: &mut fmt::Formatter<W>) -> fmt::Result {
        let Charge { fee, vat } = *self;
        write!(f, "fee {fee} vat {vat}")
    }
}

impl Measure {
    // The amount that this measure counts.
    pub fn amount(self, amounts: &Amounts) -> u32
        ensures { result ≡ amount_of self amounts.now }
    {
        match self {
            Measure::Metres => amounts.metres,
            Measure::Minutes => amounts.minutes,
            Measure::Events => amounts.events,
        }
    }
}

impl Tariff {
    // VAT is given in hundredths of a percent.
    pub const VAT_WHOLE: u64 = 10_000;

    // The fee before threshold, offset, minimum and cap.
    pub fn base(&self, amount: u32) -> u64
        ensures { result ≡ base_of self.now amount }
    {
        let product = u64::from(self.rate) * u64::from(amount);
        self.rounding.divide(product, u64::from(self.unit))
    }

    // The fee for an amount in the tariff's measure.
    pub fn fee(&self, amount: u32) -> u32
        ensures { result ≡ fee_of self.now amount }
    {
        let base = self.base(amount);
        if base < u64::from(self.threshold) {
            return 0;
        }
        let raised = (base + u64::from(self.offset)).max(u64::from(self.minimum));
        raised.min(u64::from(self.cap)) as u32
    }

    // The VAT on a fee.
    pub fn vat(&self, fee: u32) -> u64
        ensures { result ≡ vat_of self.now fee }
    {
        let product = u64::from(fee) * u64::from(self.vat);
        self.vat_rounding.divide(product, Self::VAT_WHOLE)
    }

    // Fee and VAT for what was driven.
    pub fn charge(&self, amounts: &Amounts) -> Charge
        ensures { result ≡ charge_of self.now amounts.now }
    {
        let fee = self.fee(self.measure.amount(amounts));
        Charge {
            fee,
            vat: self.vat(fee),
        }
    }
}
