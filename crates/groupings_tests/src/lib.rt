//! Tests of refusals, keys and groupings by their public calls.
#![tactic(auto)]

#[cfg(test)]
mod tests {
    use groupings::{Draw, Grouping, Polynomial, Universal, shared_rows};
    use keys::{Key, Pair, Station};
    use refusal::{Cause, Refusal, Side};
    use std::test::Fail;

    #[test]
    fn refusals_spell_number_and_values(rt: HostRuntime) -> Result<(), Fail> {
        let refusals = [
            (Refusal::RowsOutOfRange, "1"),
            (Refusal::SpanBelowCodes, "6"),
            (
                Refusal::WrongCellCount {
                    brought: 7686,
                    board: Side::Other,
                },
                "7 7686 1",
            ),
            (
                Refusal::WrongPlanNumber {
                    board: Side::Written,
                },
                "8 0",
            ),
            (
                Refusal::OutOfBalance {
                    cause: Cause::CellTooLarge,
                    row: 0,
                    group: 18,
                    cell: 0,
                },
                "12 2 0 18 0",
            ),
            (Refusal::BufferTooShort { needed: 76 }, "13 76"),
            (
                Refusal::SectionUnsound {
                    row: 3,
                    bit_place: 970,
                },
                "16 3 970",
            ),
            (Refusal::WrongLineForm { line: 9 }, "17 9"),
        ];
        for (refusal, text) in refusals {
            let spelt = format!(in rt.alloc(); "{refusal}")?;
            assert_eq!(rt; spelt.as_str(), text);
        }
        Ok(())
    }

    #[test]
    fn keys_come_back_from_their_codes(rt: HostRuntime) -> Result<(), Fail> {
        let station = Station::new(999_999_999)?;
        assert_eq!(rt; station.code(), 999_999_999);
        assert_eq!(rt;
            Station::new(1_000_000_000).err(),
            Some(Refusal::KeyOutOfRange)
        );
        assert!(rt; Station::from_code(1_000_000_000).is_none());
        let pair = Pair::new(17, 204)?;
        assert_eq!(rt; pair.code(), 17204);
        assert_eq!(rt; Pair::new(1000, 0).err(), Some(Refusal::KeyOutOfRange));
        assert_eq!(rt; Pair::new(0, 1000).err(), Some(Refusal::KeyOutOfRange));
        assert!(rt; Pair::from_code(1_000_000).is_none());
        let last = Pair::from_code(999_042).ok_or("a code without a key")?;
        assert_eq!(rt; (last.source(), last.destination()), (999, 42));
        Ok(())
    }

    #[test]
    fn universal_looks_at_used_rows_only(rt: HostRuntime) -> Result<(), Fail> {
        let mut drawn = [Draw {
            a: u32::MAX,
            b: u32::MAX,
        }; 16];
        drawn[0] = Draw { a: 5, b: 3 };
        drawn[1] = Draw {
            a: 2_147_483_646,
            b: 2,
        };
        let grouping = Universal::new(2, 7, drawn)?;
        assert_eq!(rt; (grouping.group(0, 10), grouping.group(1, 1)), (4, 1));
        assert_eq!(rt; (grouping.group(2, 10), grouping.group(0, 1 << 30)), (0, 0));
        assert_eq!(rt; (grouping.span(), grouping.spread()), (1 << 30, 2));
        assert_eq!(rt;
            Universal::new(3, 7, drawn).err(),
            Some(Refusal::DrawnNumberTooLarge)
        );
        assert_eq!(rt;
            Universal::new(17, 0, drawn).err(),
            Some(Refusal::RowsOutOfRange)
        );
        assert_eq!(rt;
            Universal::new(2, 4097, drawn).err(),
            Some(Refusal::WidthNotAllowed)
        );
        Ok(())
    }

    #[test]
    fn eight_widths_are_polynomial(rt: HostRuntime) {
        let sum = (0..5000usize)
            .filter(|width| Polynomial::new(16, *width, 1 << 30).is_ok())
            .fold(0, usize::saturating_add);
        assert_eq!(rt; sum, 31 + 61 + 127 + 251 + 509 + 1021 + 2039 + 4093);
        assert_eq!(rt;
            Polynomial::new(0, 61, 0).err(),
            Some(Refusal::RowsOutOfRange)
        );
        assert_eq!(rt;
            Polynomial::new(1, 62, 0).err(),
            Some(Refusal::WidthNotAllowed)
        );
        assert_eq!(rt;
            Polynomial::new(1, 61, 0).err(),
            Some(Refusal::SpanOutOfRange)
        );
        assert_eq!(rt;
            Polynomial::new(1, 61, (1 << 30) + 1).err(),
            Some(Refusal::SpanOutOfRange)
        );
    }

    // Every two of the codes below 2,000 in 16 rows of 31 groups, three digits to a code: some meet in two rows, none in three.
    #[test]
    fn spread_is_met_and_never_passed(rt: HostRuntime) -> Result<(), Fail> {
        let grouping = Polynomial::new(16, 31, 2000)?;
        assert_eq!(rt; grouping.spread(), 2);
        let mut most = 0;
        for code in 0..2000u32 {
            for other in code..2000u32 {
                if code != other {
                    most = shared_rows(&grouping, code, other).max(most);
                }
            }
        }
        assert_eq!(rt; most, 2);
        Ok(())
    }
}
