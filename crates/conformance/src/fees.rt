// The edges of ranges, rounding, fees and VAT.
#[cfg(test)]
mod tests {
    use std::test::Fail;
    use tariff::{Amounts, Rounding, Tariff, Terms};

    // Ten a kilometre, nothing else: each test changes what it is about.
    const PLAIN: Terms = Terms {
        measure: 1,
        unit: 1_000,
        rate: 10,
        rounding: 3,
        threshold: 0,
        offset: 0,
        minimum: 0,
        cap: 1_000_000_000,
        vat: 1_900,
        vat_rounding: 3,
    };

    // The fee and the VAT for this many metres, or none where the terms are out of range.
    fn charged(terms: Terms, metres: u32) -> Option<(u32, u64)> {
        let amounts = Amounts {
            metres,
            minutes: 7,
            events: 5,
        };
        let charge = Tariff::try_from(terms).ok()?.charge(&amounts);
        Some((charge.fee, charge.vat))
    }

    #[test]
    fn base_below_the_threshold_is_free(rt: HostRuntime) {
        let terms = Terms {
            threshold: 100,
            offset: 100,
            minimum: 50,
            ..PLAIN
        };
        assert_eq!(rt;
            charged(terms, 9_900),
            Some((0, 0)),
            "neither the offset nor the minimum helps"
        );
        assert_eq!(rt;
            charged(terms, 10_000),
            Some((200, 38)),
            "a base at the threshold is charged"
        );
    }

    #[test]
    fn minimum_and_cap(rt: HostRuntime) {
        let terms = Terms {
            offset: 3,
            minimum: 100,
            cap: 120,
            ..PLAIN
        };
        assert_eq!(rt; charged(terms, 9_600), Some((100, 19)));
        assert_eq!(rt; charged(terms, 9_800), Some((101, 19)));
        assert_eq!(rt; charged(terms, 11_700), Some((120, 23)));
        assert_eq!(rt; charged(terms, 900_000), Some((120, 23)));
    }

    #[test]
    fn other_measures(rt: HostRuntime) {
        let by_minute = Terms {
            measure: 2,
            unit: 1,
            ..PLAIN
        };
        let by_event = Terms {
            measure: 3,
            unit: 1,
            ..PLAIN
        };
        assert_eq!(rt; charged(by_minute, 1), Some((70, 13)));
        assert_eq!(rt; charged(by_event, 1), Some((50, 10)));
    }

    #[test]
    fn largest_numbers(rt: HostRuntime) {
        let terms = Terms {
            unit: 1,
            rate: 1_000_000,
            offset: 1_000_000_000,
            vat: 10_000,
            ..PLAIN
        };
        assert_eq!(rt;
            charged(terms, 10_000_000),
            Some((1_000_000_000, 1_000_000_000))
        );
        let slow = Terms {
            unit: 1_000_000,
            rate: 1_000_000,
            ..PLAIN
        };
        assert_eq!(rt; charged(slow, 10_000_000), Some((10_000_000, 1_900_000)));
        assert_eq!(rt; charged(slow, u32::MAX), Some((1_000_000_000, 190_000_000)));
    }

    #[test]
    fn numbers_out_of_range(rt: HostRuntime) {
        let refused = [
            Terms {
                measure: 0,
                ..PLAIN
            },
            Terms {
                measure: 4,
                ..PLAIN
            },
            Terms { unit: 0, ..PLAIN },
            Terms {
                unit: 1_000_001,
                ..PLAIN
            },
            Terms {
                rate: 1_000_001,
                ..PLAIN
            },
            Terms {
                rounding: 0,
                ..PLAIN
            },
            Terms {
                rounding: 4,
                ..PLAIN
            },
            Terms {
                threshold: 1_000_000_001,
                ..PLAIN
            },
            Terms {
                offset: 1_000_000_001,
                ..PLAIN
            },
            Terms {
                minimum: 11,
                cap: 10,
                ..PLAIN
            },
            Terms {
                cap: 1_000_000_001,
                ..PLAIN
            },
            Terms {
                vat: 10_001,
                ..PLAIN
            },
            Terms {
                vat_rounding: 0,
                ..PLAIN
            },
            Terms {
                vat_rounding: 4,
                ..PLAIN
            },
        ];
        for terms in refused.iter() {
            assert!(rt; Tariff::try_from(*terms).is_err());
        }
    }

    #[test]
    fn numbers_come_back(rt: HostRuntime) -> Result<(), Fail> {
        let terms = Terms {
            measure: 2,
            rounding: 1,
            minimum: 10,
            cap: 10,
            vat: 10_000,
            vat_rounding: 2,
            ..PLAIN
        };
        let Ok(tariff) = Tariff::try_from(terms) else {
            return Err(Fail::new("in range"));
        };
        let back = Terms::from(tariff);
        assert_eq!(rt; (back.measure, back.rounding, back.vat_rounding), (2, 1, 2));
        assert_eq!(rt;
            (back.unit, back.rate, back.threshold, back.offset),
            (1_000, 10, 0, 0)
        );
        assert_eq!(rt; (back.minimum, back.cap, back.vat), (10, 10, 10_000));
        Ok(())
    }

    #[test]
    fn quotients(rt: HostRuntime) {
        assert_eq!(rt; Rounding::Up.divide(u64::MAX, 1), u64::MAX);
        assert_eq!(rt; Rounding::Nearest.divide(u64::MAX, 2), 1 << 63);
        assert_eq!(rt; Rounding::Nearest.divide(1, 3), 0);
        assert_eq!(rt; Rounding::Up.divide(1, u64::MAX), 1);
        assert_eq!(rt; Rounding::Down.divide(5, 0), 0);
    }
}
