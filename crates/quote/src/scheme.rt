// A heavy-goods scheme: its classes, its rates, and a dozen trips.
use classes::{
    Band, ContractKey, Determinants, Instant, Locations, ObjectKey, Period, Rule, Span, Times,
    Usage, Users, Vehicles,
};
use quotes::{PriceList, Rate};
use tariff::{Measure, Rounding, Tariff};

// Mass bands, in units of 10 kg.
const LIGHT: Band<u16> = Band {
    low: 350,
    high: 1_199,
};

const MEDIUM: Band<u16> = Band {
    low: 1_200,
    high: 1_799,
};

const HEAVY: Band<u16> = Band {
    low: 1_800,
    high: 3_200,
};

const LONG_HAUL: Band<u16> = Band {
    low: 3_201,
    high: 65_535,
};

// Emission groups, by the number of the emission class.
const CLEAN: Band<u8> = Band { low: 6, high: 255 };

const OLDER: Band<u8> = Band { low: 0, high: 5 };

const TWO_AXLES_OR_MORE: Band<u8> = Band { low: 2, high: 255 };

const RULES: [Rule; 8] = [
    Rule {
        class: 1,
        axles: TWO_AXLES_OR_MORE,
        mass: LIGHT,
        emission: CLEAN,
    },
    Rule {
        class: 2,
        axles: TWO_AXLES_OR_MORE,
        mass: LIGHT,
        emission: OLDER,
    },
    Rule {
        class: 3,
        axles: TWO_AXLES_OR_MORE,
        mass: MEDIUM,
        emission: CLEAN,
    },
    Rule {
        class: 4,
        axles: TWO_AXLES_OR_MORE,
        mass: MEDIUM,
        emission: OLDER,
    },
    Rule {
        class: 5,
        axles: TWO_AXLES_OR_MORE,
        mass: HEAVY,
        emission: CLEAN,
    },
    Rule {
        class: 6,
        axles: TWO_AXLES_OR_MORE,
        mass: HEAVY,
        emission: OLDER,
    },
    Rule {
        class: 7,
        axles: TWO_AXLES_OR_MORE,
        mass: LONG_HAUL,
        emission: CLEAN,
    },
    Rule {
        class: 8,
        axles: TWO_AXLES_OR_MORE,
        mass: LONG_HAUL,
        emission: OLDER,
    },
];

const VEHICLES: Vehicles = Vehicles {
    count: 8,
    entries: &RULES,
};

// Monday to Saturday: heavy goods vehicles rest on Sundays.
const WORKDAYS: u8 = 0b011_1111;

const PERIODS: [Period; 3] = [
    Period {
        class: 1,
        days: WORKDAYS,
        from: 300,
        to: 1_320,
    },
    Period {
        class: 2,
        days: WORKDAYS,
        from: 0,
        to: 300,
    },
    Period {
        class: 2,
        days: WORKDAYS,
        from: 1_320,
        to: 1_440,
    },
];

const TIMES: Times = Times {
    count: 2,
    entries: &PERIODS,
};

// Partition 1 has the motorways up to object 9,999, and then the trunk roads.
const ROADS: [Span<ObjectKey>; 2] = [
    Span {
        class: 1,
        low: ObjectKey {
            partition: 1,
            object: 1,
        },
        high: ObjectKey {
            partition: 1,
            object: 9_999,
        },
    },
    Span {
        class: 2,
        low: ObjectKey {
            partition: 1,
            object: 10_000,
        },
        high: ObjectKey {
            partition: 1,
            object: 99_999,
        },
    },
];

const LOCATIONS: Locations = Locations {
    count: 2,
    entries: &ROADS,
};

const CONTRACTS: [Span<ContractKey>; 2] = [
    Span {
        class: 1,
        low: ContractKey { text: *b"AA000000" },
        high: ContractKey { text: *b"MZ999999" },
    },
    Span {
        class: 2,
        low: ContractKey { text: *b"NA000000" },
        high: ContractKey { text: *b"ZZ999999" },
    },
];

const USERS: Users = Users {
    count: 2,
    entries: &CONTRACTS,
};

pub const SCHEME: Determinants<Vehicles, Times, Locations, Users> = Determinants {
    vehicle: &VEHICLES,
    time: &TIMES,
    location: &LOCATIONS,
    user: &USERS,
};

// Cents for ten kilometres: 19.9 cents a kilometre for clean heavy vehicles on motorways, and so on.
const RATES: [Rate; 16] = [
    Rate {
        vehicle: 1,
        location: 1,
        rate: 79,
    },
    Rate {
        vehicle: 1,
        location: 2,
        rate: 71,
    },
    Rate {
        vehicle: 2,
        location: 1,
        rate: 101,
    },
    Rate {
        vehicle: 2,
        location: 2,
        rate: 94,
    },
    Rate {
        vehicle: 3,
        location: 1,
        rate: 151,
    },
    Rate {
        vehicle: 3,
        location: 2,
        rate: 142,
    },
    Rate {
        vehicle: 4,
        location: 1,
        rate: 187,
    },
    Rate {
        vehicle: 4,
        location: 2,
        rate: 176,
    },
    Rate {
        vehicle: 5,
        location: 1,
        rate: 199,
    },
    Rate {
        vehicle: 5,
        location: 2,
        rate: 185,
    },
    Rate {
        vehicle: 6,
        location: 1,
        rate: 246,
    },
    Rate {
        vehicle: 6,
        location: 2,
        rate: 231,
    },
    Rate {
        vehicle: 7,
        location: 1,
        rate: 203,
    },
    Rate {
        vehicle: 7,
        location: 2,
        rate: 191,
    },
    Rate {
        vehicle: 8,
        location: 1,
        rate: 258,
    },
    Rate {
        vehicle: 8,
        location: 2,
        rate: 244,
    },
];

// By distance, rounded to the nearest cent; nothing below 5 cents, else at least 10 cents and at most 500 euros a trip.
const GENERAL: Tariff = Tariff {
    measure: Measure::Metres,
    unit: 10_000,
    rate: 258,
    rounding: Rounding::Nearest,
    threshold: 5,
    offset: 0,
    minimum: 10,
    cap: 50_000,
    vat: 1_900,
    vat_rounding: Rounding::Nearest,
};

pub const PRICES: PriceList = PriceList {
    general: GENERAL,
    rates: &RATES,
};

// A clean lorry of 24 t on a motorway, on Tuesday, 17 November 2026, at 8:30.
const LORRY: Usage = Usage {
    partition: 1,
    object: 7,
    contract: *b"DE123456",
    instant: Instant(29_915_070),
    axles: 3,
    mass: 2_400,
    emission: 6,
    metres: 25_450,
    minutes: 22,
    events: 1,
};

pub const TRIPS: [Usage; 12] = [
    LORRY,
    // a clean articulated lorry of 40 t, at 23:10
    Usage {
        axles: 5,
        mass: 4_000,
        metres: 312_800,
        instant: Instant(29_915_950),
        ..LORRY
    },
    // an older one, at 4:59 and at 5:00 the next morning
    Usage {
        axles: 5,
        mass: 4_000,
        emission: 5,
        metres: 88_120,
        instant: Instant(29_916_299),
        ..LORRY
    },
    Usage {
        axles: 5,
        mass: 4_000,
        emission: 5,
        metres: 88_120,
        instant: Instant(29_916_300),
        ..LORRY
    },
    // a trunk road, with a contract of the second range
    Usage {
        object: 10_000,
        contract: *b"PL000042",
        mass: 1_799,
        metres: 4_200,
        ..LORRY
    },
    // too short for a fee, and just long enough
    Usage {
        mass: 350,
        metres: 500,
        ..LORRY
    },
    Usage {
        mass: 350,
        metres: 600,
        ..LORRY
    },
    // as far as a usage may go, so that the cap is reached
    Usage {
        mass: 3_201,
        emission: 0,
        metres: 10_000_000,
        ..LORRY
    },
    // a van
    Usage {
        axles: 2,
        mass: 349,
        ..LORRY
    },
    // a Sunday afternoon
    Usage {
        instant: Instant(29_922_600),
        ..LORRY
    },
    // a road without toll
    Usage {
        object: 100_000,
        ..LORRY
    },
    // a contract between the two ranges
    Usage {
        contract: *b"MZ99999A",
        ..LORRY
    },
];
