// Books as editors use them: orders of edits, the order of refusals, issuing and pricing.
#[cfg(test)]
mod tests {
    use crate::axles::ByAxles;
    use book::Book;
    use charging::HIGHEST_AMOUNT;
    use classes::{Determinants, Instant, Role, Usage, Whole};
    use contents::Refusal;
    use lines::{ClassSet, Counts, Line, LineTable};
    use std::process::Abort;
    use std::test::Fail;
    use tariff::Terms;

    const TERMS: Terms = Terms {
        measure: 1,
        unit: 1_000,
        rate: 10,
        rounding: 3,
        threshold: 0,
        offset: 0,
        minimum: 100,
        cap: 1_000_000_000,
        vat: 1_900,
        vat_rounding: 3,
    };

    const USAGE: Usage = Usage {
        partition: 1,
        object: 7,
        contract: *b"AB12    ",
        instant: Instant(6_360),
        axles: 3,
        mass: 3_200,
        emission: 6,
        metres: 25_450,
        minutes: 0,
        events: 0,
    };

    const COUNTS: Counts = Counts {
        vehicles: 2,
        times: 1,
        locations: 2,
        users: 1,
    };

    // A line for these vehicle and location classes, by their bits.
    const fn line(vehicles: u64, locations: u64) -> Line {
        Line {
            tariff: 1,
            vehicles: ClassSet(vehicles),
            times: ClassSet(1),
            locations: ClassSet(locations),
            users: ClassSet(1),
        }
    }

    // One edit of a book, as a value, so that an order of edits is a table.
    #[derive(Clone, Copy)]
    enum Edit {
        Open(Counts),
        Put(u8, Terms),
        Add(u16, Line),
        Withdraw(u16),
        Restore(u16),
        Strike(u16),
        Reopen,
    }

    use Edit::*;

    // Done, or the number of the refusal, which is what is promised, and the line that an overlap names.
    type Told = Result<(), (u8, Option<u16>)>;

    const DONE: Told = Ok(());

    const fn refused(number: u8) -> Told {
        Err((number, None))
    }

    const fn overlaps(line: u16) -> Told {
        Err((11, Some(line)))
    }

    fn told(answer: Result<(), Refusal>) -> Told {
        answer.map_err(|refusal| match refusal {
            Refusal::Overlap(line) => (refusal.number(), Some(line)),
            _ => (refusal.number(), None),
        })
    }

    fn make(book: &mut Book, edit: Edit) -> Told {
        told(match edit {
            Open(counts) => book.open(counts),
            Put(number, terms) => book.put(number, terms),
            Add(number, line) => book.add(number, line),
            Withdraw(number) => book.withdraw(number),
            Restore(number) => book.restore(number),
            Strike(number) => book.strike(number),
            Reopen => book.reopen(),
        })
    }

    // Runs edits, and compares what each is told.
    fn run(rt: &impl Abort, book: &mut Book, edits: &[(Edit, Told)]) {
        for (step, expected) in edits {
            assert_eq!(rt; make(book, *step), *expected);
        }
    }

    // A draft with two vehicle and two location classes, and tariff 1.
    fn draft(rt: &impl Abort) -> Book {
        let mut book = Book::new();
        run(
            rt,
            &mut book,
            &[(Open(COUNTS), DONE), (Put(1, TERMS), DONE)],
        );
        book
    }

    #[test]
    fn restore_against_a_line_added_since(rt: HostRuntime) {
        let mut book = draft(&rt);
        let edits = [
            (Add(1, line(1, 3)), DONE),
            (Withdraw(1), DONE),
            (Add(4, line(1, 2)), DONE),
            (Restore(1), overlaps(4)),
            (Withdraw(4), DONE),
            (Restore(1), DONE),
            (Restore(4), overlaps(1)),
        ];
        run(&rt, &mut book, &edits);
    }

    #[test]
    fn restore_against_a_line_restored_since(rt: HostRuntime) {
        let mut book = draft(&rt);
        let edits = [
            (Add(2, line(3, 1)), DONE),
            (Withdraw(2), DONE),
            (Add(1, line(2, 3)), DONE),
            (Withdraw(1), DONE),
            (Restore(2), DONE),
            // a live line with a higher number, and then one with a lower
            (Restore(1), overlaps(2)),
            (Withdraw(2), DONE),
            (Restore(1), DONE),
            (Restore(2), overlaps(1)),
        ];
        run(&rt, &mut book, &edits);
    }

    #[test]
    fn restore_beside_a_line_that_was_there(rt: HostRuntime) {
        let mut book = draft(&rt);
        let edits = [
            (Add(1, line(1, 3)), DONE),
            (Add(2, line(2, 3)), DONE),
            (Withdraw(2), DONE),
            // it never overlapped line 1
            (Restore(2), DONE),
            (Withdraw(1), DONE),
            (Strike(1), DONE),
            // line 2 was there all along
            (Add(1, line(3, 1)), overlaps(2)),
        ];
        run(&rt, &mut book, &edits);
    }

    #[test]
    fn lines_of_one_tariff(rt: HostRuntime) {
        let mut book = draft(&rt);
        let edits = [
            (Add(1, line(1, 3)), DONE),
            (Add(2, line(2, 1)), DONE),
            (Add(3, line(2, 2)), DONE),
            // the lowest of two that overlap
            (Add(4, line(2, 3)), overlaps(2)),
            (Add(4, line(3, 2)), overlaps(1)),
        ];
        run(&rt, &mut book, &edits);
    }

    #[test]
    fn withdrawn_numbers_stay_taken(rt: HostRuntime) {
        let mut book = draft(&rt);
        let edits = [
            (Withdraw(256), refused(7)),
            (Strike(256), refused(8)),
            (Add(256, line(1, 1)), DONE),
            (Strike(256), refused(8)),
            (Restore(256), refused(8)),
            (Withdraw(256), DONE),
            (Withdraw(256), refused(7)),
            (Add(256, line(2, 2)), refused(6)),
            (Strike(256), DONE),
            (Restore(256), refused(8)),
            (Add(256, line(2, 2)), DONE),
            (Add(256, line(2, 2)), refused(6)),
        ];
        run(&rt, &mut book, &edits);
    }

    #[test]
    fn refusals_of_a_blank_book(rt: HostRuntime) {
        let mut book = Book::new();
        let edits = [
            (Put(0, TERMS), refused(1)),
            (Add(0, line(0, 0)), refused(1)),
            (Withdraw(0), refused(1)),
            (Restore(0), refused(1)),
            (Strike(0), refused(1)),
            (Reopen, refused(1)),
            (Open(Counts { users: 0, ..COUNTS }), refused(2)),
            (
                Open(Counts {
                    times: 65,
                    ..COUNTS
                }),
                refused(2),
            ),
            (Open(COUNTS), DONE),
            (Open(COUNTS), refused(1)),
        ];
        run(&rt, &mut book, &edits);
    }

    #[test]
    fn order_of_refusals(rt: HostRuntime) {
        let mut book = draft(&rt);
        let unfit = Terms { unit: 0, ..TERMS };
        let strange = Line {
            tariff: 65,
            ..line(0, 4)
        };
        let unput = Line {
            tariff: 64,
            ..strange
        };
        let edits = [
            (Put(0, unfit), refused(3)),
            (Put(65, TERMS), refused(3)),
            (Put(64, unfit), refused(4)),
            (Add(1, line(1, 3)), DONE),
            (Add(0, strange), refused(5)),
            (Add(257, strange), refused(5)),
            (Add(1, strange), refused(6)),
            (Add(2, strange), refused(3)),
            (Add(2, unput), refused(9)),
            (Add(2, line(0, 3)), refused(10)),
            (Add(2, line(1, 4)), refused(10)),
            (Add(2, line(3, 3)), overlaps(1)),
            (Reopen, refused(1)),
        ];
        run(&rt, &mut book, &edits);
    }

    // The version that issue answers, or the number of its refusal and the location class of a gap.
    fn issued(book: &mut Book) -> Result<u8, (u8, Option<u8>)> {
        book.issue().map_err(|refusal| match refusal {
            Refusal::Gap(classes) => (refusal.number(), Some(classes.location)),
            _ => (refusal.number(), None),
        })
    }

    // Issues a complete book again and again, until its version is 255.
    fn reissue(rt: &impl Abort, book: &mut Book) {
        for _ in 1..255 {
            assert_eq!(rt; make(book, Reopen), DONE);
            assert!(rt; issued(book).is_ok());
        }
    }

    #[test]
    fn issue_and_reopen(rt: HostRuntime) {
        let mut book = draft(&rt);
        assert_eq!(rt; issued(&mut book), Err((12, Some(1))), "no line at all");
        run(
            &rt,
            &mut book,
            &[(Add(1, line(1, 3)), DONE), (Add(2, line(2, 1)), DONE)],
        );
        assert_eq!(rt; issued(&mut book), Err((12, Some(2))));
        run(&rt, &mut book, &[(Add(3, line(2, 2)), DONE)]);
        assert_eq!(rt; issued(&mut book), Ok(1));
        assert_eq!(rt; issued(&mut book), Err((1, None)), "it is issued");
        run(&rt, &mut book, &[(Withdraw(1), refused(1))]);
        reissue(&rt, &mut book);
        assert_eq!(rt; book.contents().version, 255);
        run(&rt, &mut book, &[(Reopen, DONE), (Withdraw(3), DONE)]);
        assert_eq!(rt; issued(&mut book), Err((13, None)), "before the gap");
    }

    // The line, tariff and fee of a usage, by axles and by whole determinants; or the refusal and what it names.
    fn price(book: &Book, usage: &Usage) -> Result<(u16, u8, u32), (u8, Option<u8>)> {
        let determinants = Determinants {
            vehicle: &ByAxles,
            time: &Whole,
            location: &Whole,
            user: &Whole,
        };
        match book.price(&determinants, usage) {
            Ok(price) => Ok((price.line, price.tariff, price.charge.fee)),
            Err(refusal) => Err((refusal.number(), named(refusal))),
        }
    }

    // The determinant that a refusal names.
    fn named(refusal: Refusal) -> Option<u8> {
        match refusal {
            Refusal::CountUnlike(role) | Refusal::NoClass(role) => Some(role.number()),
            _ => None,
        }
    }

    // An issued book in which two lines share three vehicle classes.
    fn by_axles(rt: &impl Abort) -> Book {
        let mut book = Book::new();
        let counts = Counts {
            vehicles: 3,
            times: 1,
            locations: 1,
            users: 1,
        };
        let second = Line {
            tariff: 2,
            ..line(2, 1)
        };
        let edits = [
            (Open(counts), DONE),
            (Put(1, TERMS), DONE),
            (Put(2, Terms { rate: 20, ..TERMS }), DONE),
            (Add(7, line(5, 1)), DONE),
            (Add(3, second), DONE),
        ];
        run(rt, &mut book, &edits);
        assert_eq!(rt; price(&book, &USAGE), Err((1, None)), "a draft");
        assert_eq!(rt; issued(&mut book), Ok(1));
        book
    }

    #[test]
    fn prices(rt: HostRuntime) -> Result<(), Fail> {
        let book = by_axles(&rt);
        assert_eq!(rt; price(&book, &USAGE), Ok((3, 2, 509)));
        assert_eq!(rt; price(&book, &Usage { axles: 2, ..USAGE }), Ok((7, 1, 255)));
        assert_eq!(rt; price(&book, &Usage { axles: 9, ..USAGE }), Ok((7, 1, 255)));
        let most = Usage {
            metres: HIGHEST_AMOUNT,
            ..USAGE
        };
        assert_eq!(rt; price(&book, &most), Ok((3, 2, 200_000)));
        let unclassed = Usage { axles: 1, ..USAGE };
        assert_eq!(rt; price(&book, &unclassed), Err((16, Some(1))));
        let too_many = Usage {
            events: HIGHEST_AMOUNT + 1,
            ..unclassed
        };
        assert_eq!(rt;
            price(&book, &too_many),
            Err((15, None)),
            "before the class"
        );
        let others = Determinants {
            vehicle: &ByAxles,
            time: &ByAxles,
            location: &Whole,
            user: &ByAxles,
        };
        match book.price(&others, &too_many) {
            Err(Refusal::CountUnlike(Role::Time)) => Ok(()),
            _ => Err(Fail::new("the time determinant has another count")),
        }
    }

    #[test]
    fn put_replaces_a_tariff_under_live_lines(rt: HostRuntime) {
        let mut book = by_axles(&rt);
        let dearer = Terms { rate: 30, ..TERMS };
        run(
            &rt,
            &mut book,
            &[
                (Put(2, dearer), refused(1)),
                (Reopen, DONE),
                (Put(2, dearer), DONE),
            ],
        );
        assert_eq!(rt; issued(&mut book), Ok(2));
        assert_eq!(rt; price(&book, &USAGE), Ok((3, 2, 764)));
    }

    // 256 lines that share 64 classes of each determinant out by location and user.
    fn share_out(rt: &impl Abort, book: &mut Book) {
        for place in 0..LineTable::NUMBERS as u16 {
            let share = Line {
                tariff: 1,
                vehicles: ClassSet(u64::MAX),
                times: ClassSet(u64::MAX),
                locations: ClassSet(1 << (place / 4)),
                users: ClassSet(0xffff << (16 * (place % 4))),
            };
            assert_eq!(rt; make(book, Add(place + 1, share)), DONE);
        }
    }

    #[test]
    fn the_largest_book(rt: HostRuntime) {
        let mut book = Book::new();
        let counts = Counts {
            vehicles: 64,
            times: 64,
            locations: 64,
            users: 64,
        };
        run(
            &rt,
            &mut book,
            &[(Open(counts), DONE), (Put(1, TERMS), DONE)],
        );
        share_out(&rt, &mut book);
        assert_eq!(rt; issued(&mut book), Ok(1));
        run(&rt, &mut book, &[(Reopen, DONE), (Withdraw(256), DONE)]);
        assert_eq!(rt; issued(&mut book), Err((12, Some(64))));
    }
}
