// A tariff as plain numbers, and as a checked tariff.
ghost use Rattle.std.specs.Prelude.{◌≡◌};
ghost use Rattle.tariff.specs.Ranges.{numbers_of, sums_in_range, Made};

use crate::codes::{Measure, OutOfRange, Rounding};

// The numbers of a tariff as anyone may hand them in. The codes are numbers here too, since any may be handed in.
#[derive(Clone, Copy)]
pub struct Terms {
    pub measure: u8,
    pub unit: u32,
    pub rate: u32,
    pub rounding: u8,
    pub threshold: u32,
    pub offset: u32,
    pub minimum: u32,
    pub cap: u32,
    pub vat: u16,
    pub vat_rounding: u8,
}

// A type of its own beside the numbers: one for both would have to name its codes' types wherever a tariff is meant.
// A tariff: rate, threshold, offset, minimum and cap in minor currency units, vat in hundredths of a percent.
#[derive(Clone, Copy)]
pub struct Tariff {
    pub measure: Measure,
    pub unit: u32,
    pub rate: u32,
    pub rounding: Rounding,
    pub threshold: u32,
    pub offset: u32,
    pub minimum: u32,
    pub cap: u32,
    pub vat: u16,
    pub vat_rounding: Rounding,
}

impl Terms {
    pub const HIGHEST_UNIT: u32 = 1_000_000;

    pub const HIGHEST_RATE: u32 = 1_000_000;

    pub const HIGHEST_SUM: u32 = 1_000_000_000;

    pub const HIGHEST_VAT: u16 = 10_000;

    fn sums_in_range(&self) -> bool
        ensures { result ≡ sums_in_range self.now }
    {
        self.unit >= 1
            && self.unit <= Self::HIGHEST_UNIT
            && self.rate <= Self::HIGHEST_RATE
            && self.threshold <= Self::HIGHEST_SUM
            && self.offset <= Self::HIGHEST_SUM
            && self.minimum <= self.cap
            && self.cap <= Self::HIGHEST_SUM
            && self.vat <= Self::HIGHEST_VAT
    }
}

// The tariff with these numbers, unless one of them is out of range.
impl TryFrom<Terms> for Tariff {
    type Error = OutOfRange;

    ghost try_from_gives = { Made };

    fn try_from(terms: Terms) -> Result<Tariff, OutOfRange> {
        if !terms.sums_in_range() {
            return Err(OutOfRange);
        }
        Ok(Tariff {
            measure: Measure::try_from(terms.measure)?,
            unit: terms.unit,
            rate: terms.rate,
            rounding: Rounding::try_from(terms.rounding)?,
            threshold: terms.threshold,
            offset: terms.offset,
            minimum: terms.minimum,
            cap: terms.cap,
            vat: terms.vat,
            vat_rounding: Rounding::try_from(terms.vat_rounding)?,
        })
    }
}

// The numbers of a tariff, as they were handed in.
impl From<Tariff> for Terms {
    ghost from_gives = { λ tariff terms. terms ≡ numbers_of tariff };

    fn from(tariff: Tariff) -> Terms {
        Terms {
            measure: u8::from(tariff.measure),
            unit: tariff.unit,
            rate: tariff.rate,
            rounding: u8::from(tariff.rounding),
            threshold: tariff.threshold,
            offset: tariff.offset,
            minimum: tariff.minimum,
            cap: tariff.cap,
            vat: tariff.vat,
            vat_rounding: u8::from(tariff.vat_rounding),
        }
    }
}
