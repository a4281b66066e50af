// The fields of a command, each read from the next word of a line.
ghost use Rattle.script.specs.Fields.{counts_fields, terms_fields, line_fields, usage_fields};
ghost use Rattle.script.specs.Numbers.{number_of};
ghost use Rattle.script.specs.Padding.{contract_of};
ghost use Rattle.script.specs.Sets.{set_of};

use crate::contracts::contract;
use crate::numbers::number;
use crate::sets::class_set;
use crate::words::{FromWord, FromWords, Words};
use classes::{Instant, Usage};
use lines::{ClassSet, Counts, Line};
use tariff::Terms;

// Numbers of three widths, one by one: an impl for all that come of a `u32` would be one for the other fields too.
impl FromWord for u8 {
    ghost written = { number_of 255 };

    fn from_word(word: &[u8]) -> Option<u8> {
        u8::try_from(number(word, u32::from(u8::MAX))?).ok()
    }
}

impl FromWord for u16 {
    ghost written = { number_of 65535 };

    fn from_word(word: &[u8]) -> Option<u16> {
        u16::try_from(number(word, u32::from(u16::MAX))?).ok()
    }
}

impl FromWord for u32 {
    ghost written = { number_of 4294967295 };

    fn from_word(word: &[u8]) -> Option<u32> {
        number(word, u32::MAX)
    }
}

impl FromWord for ClassSet {
    ghost written = { set_of };

    fn from_word(word: &[u8]) -> Option<ClassSet> {
        class_set(word)
    }
}

impl FromWord for [u8; Usage::CONTRACT_BYTES] {
    ghost written = { contract_of };

    fn from_word(word: &[u8]) -> Option<[u8; Usage::CONTRACT_BYTES]> {
        contract(word)
    }
}

// V T L U
impl FromWords for Counts {
    ghost fields = { counts_fields };

    fn from_words(words: &mut Words) -> Option<Counts> {
        Some(Counts {
            vehicles: words.field()?,
            times: words.field()?,
            locations: words.field()?,
            users: words.field()?,
        })
    }
}

// MEASURE UNIT RATE ROUNDING THRESHOLD OFFSET MINIMUM CAP VAT VATROUNDING
impl FromWords for Terms {
    ghost fields = { terms_fields };

    fn from_words(words: &mut Words) -> Option<Terms> {
        Some(Terms {
            measure: words.field()?,
            unit: words.field()?,
            rate: words.field()?,
            rounding: words.field()?,
            threshold: words.field()?,
            offset: words.field()?,
            minimum: words.field()?,
            cap: words.field()?,
            vat: words.field()?,
            vat_rounding: words.field()?,
        })
    }
}

// TARIFF VEHICLES TIMES LOCATIONS USERS
impl FromWords for Line {
    ghost fields = { line_fields };

    fn from_words(words: &mut Words) -> Option<Line> {
        Some(Line {
            tariff: words.field()?,
            vehicles: words.field()?,
            times: words.field()?,
            locations: words.field()?,
            users: words.field()?,
        })
    }
}

// PARTITION OBJECT CONTRACT INSTANT AXLES MASS EMISSION METRES MINUTES EVENTS
impl FromWords for Usage {
    ghost fields = { usage_fields };

    fn from_words(words: &mut Words) -> Option<Usage> {
        Some(Usage {
            partition: words.field()?,
            object: words.field()?,
            contract: words.field()?,
            instant: Instant(words.field()?),
            axles: words.field()?,
            mass: words.field()?,
            emission: words.field()?,
            metres: words.field()?,
            minutes: words.field()?,
            events: words.field()?,
        })
    }
}
