//! What spreading does on small graphs.
#![tactic(auto)]

#[cfg(test)]
mod tests {
    use faults::{Fault, Layer, Place, Refusal};
    use spread::{Arrow, EntrySet, InteropUse, YesNo, spread};
    use std::test::Fail;

    // 0 → 1 ⇄ 2 → 3, with the arrows against the way that facts go.
    #[test]
    fn a_circle_shares_what_comes_in(rt: HostRuntime) {
        let mut facts = [EntrySet(1), EntrySet(2), EntrySet(4), EntrySet(8)];
        let arrows = [
            Arrow { from: 2, to: 3 },
            Arrow { from: 1, to: 2 },
            Arrow { from: 0, to: 1 },
            Arrow { from: 2, to: 1 },
        ];
        assert!(rt; spread(&mut facts, &arrows).is_ok());
        assert_eq!(rt; facts[0], EntrySet(1));
        assert_eq!(rt; facts[1], EntrySet(7));
        assert_eq!(rt; facts[2], EntrySet(7));
        assert_eq!(rt; facts[3], EntrySet(15));
    }

    #[test]
    fn an_arrow_to_itself_changes_nothing(rt: HostRuntime) {
        let mut facts = [YesNo(true), YesNo(false)];
        let arrows = [Arrow { from: 0, to: 0 }, Arrow { from: 1, to: 1 }];
        assert!(rt; spread(&mut facts, &arrows).is_ok());
        assert_eq!(rt; facts[0], YesNo(true));
        assert_eq!(rt; facts[1], YesNo(false));
    }

    #[test]
    fn without_arrows_facts_stay(rt: HostRuntime) {
        let mut facts = [YesNo(false), YesNo(true)];
        assert!(rt; spread(&mut facts, &[]).is_ok());
        assert_eq!(rt; facts[0], YesNo(false));
        assert_eq!(rt; facts[1], YesNo(true));
    }

    #[test]
    fn without_places_every_arrow_is_refused(rt: HostRuntime) {
        let mut facts: [YesNo; 0] = [];
        assert!(rt; spread(&mut facts, &[]).is_ok());
        assert_eq!(rt;
            spread(&mut facts, &[Arrow { from: 0, to: 0 }]),
            Err(past_end(0))
        );
    }

    fn past_end(row: usize) -> Fault {
        Fault {
            refusal: Refusal::TargetPastEnd,
            layer: Layer::Link,
            place: Place { at: row, record: 0 },
        }
    }

    // Row 1 ends past the places, row 2 begins past them.
    #[test]
    fn the_first_bad_row_is_named(rt: HostRuntime) {
        let mut facts = [EntrySet(1), EntrySet(2)];
        let arrows = [
            Arrow { from: 0, to: 1 },
            Arrow { from: 1, to: 2 },
            Arrow { from: 9, to: 0 },
        ];
        assert_eq!(rt; spread(&mut facts, &arrows), Err(past_end(1)));
        assert_eq!(rt; facts[1], EntrySet(2));
    }

    // 64 places in a circle, each with the entry of its own rank, and the arrows against the way.
    #[test]
    fn a_circle_of_64_entries_is_full_everywhere(rt: HostRuntime) -> Result<(), Fail> {
        let mut facts = [EntrySet(0); 64];
        let mut arrows = [Arrow { from: 0, to: 0 }; 64];
        for rank in 0..64u32 {
            facts[rank as usize] = EntrySet::single(rank);
            arrows[rank as usize] = Arrow {
                from: (64 - rank) % 64,
                to: 63 - rank,
            };
        }
        assert!(rt; spread(&mut facts, &arrows).is_ok());
        for fact in &facts {
            assert_eq!(rt; fact.count(), 64);
            assert_eq!(rt; fact.first(), Some(0));
        }
        Ok(())
    }

    #[test]
    fn an_entry_set_counts_and_names_its_first(rt: HostRuntime) {
        assert_eq!(rt; EntrySet(0).first(), None);
        assert_eq!(rt; EntrySet(0).count(), 0);
        assert_eq!(rt; EntrySet(40).first(), Some(3));
        assert_eq!(rt; EntrySet(40).count(), 2);
        assert!(rt; EntrySet(40).holds(5) && !EntrySet(40).holds(4) && !EntrySet(40).holds(64));
        assert_eq!(rt; EntrySet::single(64), EntrySet(0));
    }

    // 0 uses in the manner of Node, 1 in the other, both lead to 2; 3 has none.
    #[test]
    fn uses_join_and_none_stays_none(rt: HostRuntime) {
        let node = Some(InteropUse {
            node: true,
            non_node: false,
        });
        let other = Some(InteropUse {
            node: false,
            non_node: true,
        });
        let mut facts = [node, other, None, None];
        assert!(rt;
            spread(
                &mut facts,
                &[Arrow { from: 0, to: 2 }, Arrow { from: 1, to: 2 }],
            )
            .is_ok()
        );
        assert!(rt;
            facts[2]
                == Some(InteropUse {
                    node: true,
                    non_node: true,
                })
        );
        assert!(rt; facts[3].is_none());
    }
}
