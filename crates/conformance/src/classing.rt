// The edges of periods, spans and lists, and the order in which determinants are asked.
#[cfg(test)]
mod tests {
    use crate::axles::ByAxles;
    use classes::{
        Classes, ContractKey, Determinant, Determinants, Instant, Locations, ObjectKey, Period,
        Refusal, Span, Times, Usage, Users, Whole, in_order,
    };
    use std::test::Fail;

    const USAGE: Usage = Usage {
        partition: 1,
        object: 7,
        contract: *b"AB12    ",
        instant: Instant(6_360),
        axles: 4,
        mass: 3_200,
        emission: 6,
        metres: 1_000,
        minutes: 1,
        events: 1,
    };

    const fn at(instant: u32) -> Usage {
        Usage {
            instant: Instant(instant),
            ..USAGE
        }
    }

    #[test]
    fn period_ends(rt: HostRuntime) {
        // 6,360 is a Monday at 10:00
        let periods = [Period {
            class: 1,
            days: 1,
            from: 360,
            to: 1_200,
        }];
        let times = Times {
            count: 1,
            entries: &periods,
        };
        assert_eq!(rt; times.class(&at(6_119)), None);
        assert_eq!(rt; times.class(&at(6_120)), Some(1));
        assert_eq!(rt; times.class(&at(6_959)), Some(1));
        assert_eq!(rt; times.class(&at(6_960)), None, "minute 1,200 lies outside");
        assert_eq!(rt; times.class(&at(7_800)), None, "Tuesday");
    }

    #[test]
    fn first_usable_entry(rt: HostRuntime) {
        let whole_day = Period {
            class: 0,
            days: 127,
            from: 0,
            to: 1_440,
        };
        let periods = [
            whole_day,
            Period {
                class: 4,
                ..whole_day
            },
            Period {
                class: 3,
                ..whole_day
            },
            Period {
                class: 1,
                ..whole_day
            },
        ];
        let times = Times {
            count: 3,
            entries: &periods,
        };
        assert_eq!(rt;
            times.class(&USAGE),
            Some(3),
            "classes 0 and 4 are passed over"
        );
    }

    #[test]
    fn span_ends(rt: HostRuntime) {
        let low = ObjectKey {
            partition: 1,
            object: 7,
        };
        let high = ObjectKey {
            partition: 2,
            object: 0,
        };
        let spans = [Span {
            class: 1,
            low,
            high,
        }];
        let locations = Locations {
            count: 1,
            entries: &spans,
        };
        assert_eq!(rt; locations.class(&USAGE), Some(1));
        assert_eq!(rt; locations.class(&Usage { object: 6, ..USAGE }), None);
        assert_eq!(rt;
            locations.class(&Usage {
                partition: 2,
                object: 0,
                ..USAGE
            },),
            Some(1)
        );
        assert_eq!(rt;
            locations.class(&Usage {
                partition: 2,
                object: 1,
                ..USAGE
            },),
            None
        );
        assert_eq!(rt;
            locations.class(&Usage {
                partition: 0,
                object: 9,
                ..USAGE
            },),
            None
        );
    }

    fn contracts(class: u8, low: &[u8; 8], high: &[u8; 8]) -> Span<ContractKey> {
        Span {
            class,
            low: ContractKey { text: *low },
            high: ContractKey { text: *high },
        }
    }

    #[test]
    fn spans_in_order(rt: HostRuntime) {
        let first = contracts(1, b"AA      ", b"AB12    ");
        assert!(rt; in_order(&[first, contracts(2, b"AB12   !", b"AB12   !")]));
        assert!(rt;
            !in_order(&[first, contracts(2, b"AB12    ", b"AC      ")]),
            "one key in both"
        );
        assert!(rt;
            !in_order(&[contracts(2, b"B       ", b"A       ")]),
            "backward"
        );
        let spans = [first, contracts(2, b"AB12   !", b"ZZ      ")];
        let users = Users {
            count: 2,
            entries: &spans,
        };
        assert_eq!(rt; users.class(&USAGE), Some(1));
        assert_eq!(rt;
            users.class(&Usage {
                contract: *b"ab12    ",
                ..USAGE
            },),
            None
        );
    }

    fn classify<V: Determinant, T: Determinant, L: Determinant, U: Determinant>(
        vehicle: &V,
        time: &T,
        location: &L,
        user: &U,
    ) -> Result<Classes, Refusal> {
        let determinants = Determinants {
            vehicle,
            time,
            location,
            user,
        };
        determinants.classify(&USAGE)
    }

    #[test]
    fn determinants_are_asked_in_turn(rt: HostRuntime) -> Result<(), Fail> {
        let none = Times {
            count: 1,
            entries: &[],
        };
        let Ok(classes) = classify(&ByAxles, &Whole, &Whole, &Whole) else {
            return Err(Fail::new("every determinant gives a class"));
        };
        assert_eq!(rt;
            (
                classes.vehicle,
                classes.time,
                classes.location,
                classes.user,
            ),
            (3, 1, 1, 1)
        );
        let Err(Refusal::NoClass(role)) = classify(&ByAxles, &Whole, &none, &none) else {
            return Err(Fail::new("the third gives none"));
        };
        assert_eq!(rt; role.number(), 3);
        let Err(Refusal::NoClass(role)) = classify(&none, &none, &Whole, &Whole) else {
            return Err(Fail::new("the first gives none"));
        };
        assert_eq!(rt; role.number(), 1);
        Ok(())
    }
}
