// What the check, the source and the writer do with a small card.
#![tactic(auto)]

/// A card of three modules, the last external, and two records.
/// - runtime 0, 3 modules, 2 records
/// - 0: ESM
/// - 1: CommonJS, awaits at 5 to 10, entry
/// - 2: external
/// - `Import` of 2 with star at 7 to 265
/// - `HotAccept`, not resolved
pub const SMALL: &[u8; 124] = b"\
    \x10\x00\x01\x00\x00\x00\x00\x00\x03\x00\x00\x00\x02\x00\x00\x00\
    \x18\x00\x02\x00\x01\x01\x00\x00\x00\x00\x00\x00\x00\x00\x00\x00\x00\x00\x00\x00\x00\x00\x00\x00\
    \x18\x00\x02\x00\x01\x02\x12\x00\x05\x00\x00\x00\x0a\x00\x00\x00\x00\x00\x00\x00\x02\x00\x00\x00\
    \x18\x00\x02\x00\x00\x00\x00\x00\x00\x00\x00\x00\x00\x00\x00\x00\x02\x00\x00\x00\x00\x00\x00\x00\
    \x12\x00\x03\x00\x00\x01\x02\x00\x00\x00\x07\x00\x00\x00\x09\x01\x00\x00\
    \x12\x00\x03\x00\x06\x00\xff\xff\xff\xff\x00\x00\x00\x00\x00\x00\x00\x00";

#[cfg(test)]
mod tests {
    use super::SMALL;
    use card::{CardSource, check_card};
    use card_writer::write_card;
    use faults::{Fault, Layer, Refusal};
    use source::{ImportKind, Module, ModuleSource, Span};

    fn refused(refusal: Refusal, at: usize) -> Result<(), Fault> {
        Err(refusal.found_by(Layer::Card, at, 0))
    }

    // What the check answers once the byte at `at` is `byte`.
    fn damaged(at: usize, byte: u8) -> Result<(), Fault> {
        let mut image = *SMALL;
        if at < image.len() {
            image[at] = byte;
        }
        check_card(&image)
    }

    #[test]
    fn lengths_and_limits_are_checked_first(rt: HostRuntime) {
        let image = *SMALL;
        assert_eq!(rt; check_card(&image), Ok(()));
        assert_eq!(rt;
            check_card(&image[0..15]),
            refused(Refusal::WrongLength, 15)
        );
        assert_eq!(rt; damaged(0, 17), refused(Refusal::WrongBlockHead, 0));
        assert_eq!(rt; damaged(2, 2), refused(Refusal::WrongBlockHead, 0));
        assert_eq!(rt; damaged(9, 17), refused(Refusal::TooManyModules, 0));
        assert_eq!(rt; damaged(13, 129), refused(Refusal::TooManyRecords, 0));
        assert_eq!(rt; damaged(8, 4), refused(Refusal::WrongLength, 124));
        assert_eq!(rt;
            check_card(&image[0..123]),
            refused(Refusal::WrongLength, 123)
        );
    }

    #[test]
    fn module_blocks_are_checked_in_turn(rt: HostRuntime) {
        assert_eq!(rt; damaged(40, 18), refused(Refusal::WrongBlockHead, 40));
        assert_eq!(rt; damaged(42, 3), refused(Refusal::WrongBlockHead, 40));
        assert_eq!(rt; damaged(44, 2), refused(Refusal::FieldOutOfValues, 40));
        assert_eq!(rt; damaged(45, 3), refused(Refusal::FieldOutOfValues, 40));
        assert_eq!(rt; damaged(46, 32), refused(Refusal::FieldOutOfValues, 40));
        assert_eq!(rt; damaged(69, 1), refused(Refusal::FieldOutOfValues, 64));
        assert_eq!(rt; damaged(72, 1), refused(Refusal::FieldOutOfValues, 64));
        assert_eq!(rt; damaged(84, 1), refused(Refusal::FieldOutOfValues, 64));
        assert_eq!(rt; damaged(56, 1), refused(Refusal::WrongFirstRecord, 1));
        assert_eq!(rt; damaged(60, 1), refused(Refusal::WrongFirstRecord, 2));
    }

    #[test]
    fn record_blocks_and_the_last_sum_come_last(rt: HostRuntime) {
        assert_eq!(rt; damaged(88, 24), refused(Refusal::WrongBlockHead, 88));
        assert_eq!(rt; damaged(92, 7), refused(Refusal::FieldOutOfValues, 88));
        assert_eq!(rt; damaged(111, 2), refused(Refusal::FieldOutOfValues, 106));
        let mut image = *SMALL;
        image[60] = 1;
        image[80] = 1;
        assert_eq!(rt; check_card(&image), refused(Refusal::WrongFirstRecord, 3));
    }

    #[test]
    fn a_card_is_read_by_offset(rt: HostRuntime) {
        let source = CardSource::open(SMALL);
        assert_eq!(rt; source.module_count(), 3);
        assert_eq!(rt; source.record_count(1), 2);
        assert_eq!(rt; source.record_count(2), 0);
        assert_eq!(rt; source.module(2), Module::External);
        assert_eq!(rt; source.look(1, 0), (ImportKind::Import, Some(2)));
        assert_eq!(rt; source.look(1, 1), (ImportKind::HotAccept, None));
        assert_eq!(rt; source.record(1, 0).span, Span { start: 7, end: 265 });
    }

    #[test]
    fn a_refused_image_opens_without_modules(rt: HostRuntime) {
        let image = *SMALL;
        let source = CardSource::open(&image[0..20]);
        assert_eq!(rt; source.module_count(), 0);
    }

    // Whether two sources give the same answers.
    fn alike(a: &CardSource, b: &CardSource) -> bool {
        a.runtime() == b.runtime()
            && a.module_count() == b.module_count()
            && (0..a.module_count()).all(|m| {
                a.module(m) == b.module(m)
                    && a.record_count(m) == b.record_count(m)
                    && (0..a.record_count(m)).all(|k| a.record(m, k) == b.record(m, k))
            })
    }

    #[test]
    fn each_damaged_byte_is_refused_or_means_another_source(rt: HostRuntime) {
        for at in 0..SMALL.len() {
            for byte in 0..=255 {
                let mut image = *SMALL;
                image[at] = byte;
                let other = byte != SMALL[at];
                if other && check_card(&image).is_ok() {
                    assert!(rt; !alike(&CardSource::open(&image), &CardSource::open(SMALL)));
                }
            }
        }
    }

    #[test]
    fn a_card_is_written_to_the_front_of_a_slice(rt: HostRuntime) {
        let source = CardSource::open(SMALL);
        let mut out = [9; 126];
        let short = write_card(&source, &mut out[0..123]);
        assert_eq!(rt;
            short.err(),
            Some(Refusal::WrongLength.found_by(Layer::Card, 123, 0))
        );
        assert_eq!(rt; out[0], 9);
        assert_eq!(rt; write_card(&source, &mut out).ok(), Some(124));
        let image = *SMALL;
        assert!(rt; out[0..124] == image[0..124]);
        assert_eq!(rt; (out[124], out[125]), (9, 9));
    }
}
