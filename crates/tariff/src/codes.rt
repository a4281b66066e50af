// The two choices in a tariff, each with the code by which it is handed in: what is measured, and how sums are rounded.
ghost use Rattle.std.specs.Prelude.{◌≡◌, ◌<◌};
ghost use Rattle.std.specs.Option.{ok_or};
ghost use Rattle.tariff.specs.Codes.{measure_code, measure_coded, rounding_code, rounding_coded, out_of_range};
ghost use Rattle.tariff.specs.Quotients.{rounded, raises, Rounded};

#[derive(Clone, Copy)]
pub enum Measure {
    Metres,
    Minutes,
    Events,
}

#[derive(Clone, Copy)]
pub enum Rounding {
    Up,
    Down,
    Nearest,
}

// A code or another number that no tariff has.
#[derive(Clone, Copy)]
pub struct OutOfRange;

// Two pairs of conversions alike: one for both would take a trait of its own, and no fewer tables.
impl TryFrom<u8> for Measure {
    type Error = OutOfRange;

    ghost try_from_gives = { λ code r. r ≡ ok_or (measure_coded code) out_of_range };

    fn try_from(code: u8) -> Result<Measure, OutOfRange> {
        match code {
            1 => Ok(Measure::Metres),
            2 => Ok(Measure::Minutes),
            3 => Ok(Measure::Events),
            _ => Err(OutOfRange),
        }
    }
}

impl From<Measure> for u8 {
    ghost from_gives = { λ measure code. code ≡ measure_code measure };

    fn from(measure: Measure) -> u8 {
        match measure {
            Measure::Metres => 1,
            Measure::Minutes => 2,
            Measure::Events => 3,
        }
    }
}

impl TryFrom<u8> for Rounding {
    type Error = OutOfRange;

    ghost try_from_gives = { λ code r. r ≡ ok_or (rounding_coded code) out_of_range };

    fn try_from(code: u8) -> Result<Rounding, OutOfRange> {
        match code {
            1 => Ok(Rounding::Up),
            2 => Ok(Rounding::Down),
            3 => Ok(Rounding::Nearest),
            _ => Err(OutOfRange),
        }
    }
}

impl From<Rounding> for u8 {
    ghost from_gives = { λ rounding code. code ≡ rounding_code rounding };

    fn from(rounding: Rounding) -> u8 {
        match rounding {
            Rounding::Up => 1,
            Rounding::Down => 2,
            Rounding::Nearest => 3,
        }
    }
}

impl Rounding {
    // The quotient of two whole numbers, rounded to a whole number; 0 where the divisor is 0.
    pub fn divide(self, dividend: u64, divisor: u64) -> u64
        ensures value { result ≡ rounded self dividend divisor }
        ensures meaning { 0 < divisor → Rounded self dividend divisor result }
    {
        if divisor == 0 {
            return 0;
        }
        let quotient = dividend / divisor;
        if self.raises(dividend % divisor, divisor) {
            quotient + 1
        } else {
            quotient
        }
    }

    // Whether the rounding goes above the whole part of a quotient that leaves this remainder.
    fn raises(self, remainder: u64, divisor: u64) -> bool
        requires { remainder < divisor }
        ensures { result ≡ raises self remainder divisor }
    {
        match self {
            Rounding::Up => remainder > 0,
            Rounding::Down => false,
            Rounding::Nearest => remainder >= divisor - remainder,
        }
    }
}
