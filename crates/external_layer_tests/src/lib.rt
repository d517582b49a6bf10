// What a layer holds, and what a pile of two means.
#![tactic(auto)]

/// A card of two normal modules, of which the second has a record.
/// - runtime 0, 2 modules, 1 record
/// - 0: ESM
/// - 1: ESM, entry
/// - `Import` of 0 at 1 to 2
pub const TWO: &[u8; 82] = b"\
    \x10\x00\x01\x00\x00\x00\x00\x00\x02\x00\x00\x00\x01\x00\x00\x00\
    \x18\x00\x02\x00\x01\x01\x00\x00\x00\x00\x00\x00\x00\x00\x00\x00\x00\x00\x00\x00\x00\x00\x00\x00\
    \x18\x00\x02\x00\x01\x01\x10\x00\x00\x00\x00\x00\x00\x00\x00\x00\x00\x00\x00\x00\x01\x00\x00\x00\
    \x12\x00\x03\x00\x00\x00\x00\x00\x00\x00\x01\x00\x00\x00\x02\x00\x00\x00";

#[cfg(test)]
mod tests {
    use super::TWO;
    use card::CardSource;
    use external_layer::ExternalLayer;
    use faults::{Layer, Refusal};
    use source::{Module, ModuleSource};

    #[test]
    fn a_layer_has_64_seats(rt: HostRuntime) {
        let mut layer = ExternalLayer::new(CardSource::open(TWO));
        for number in 0..64 {
            assert_eq!(rt; layer.hold(number), Ok(()));
        }
        assert_eq!(rt; layer.hold(63), Ok(()));
        assert_eq!(rt;
            layer.hold(64),
            Err(Refusal::LayerFull.found_by(Layer::Source, 0, 0))
        );
        assert!(rt; layer.holds(63));
        assert!(rt; !layer.holds(64));
    }

    #[test]
    fn a_held_module_is_external_without_records(rt: HostRuntime) {
        let mut layer = ExternalLayer::new(CardSource::open(TWO));
        assert_eq!(rt; layer.record_count(1), 1);
        assert_eq!(rt; layer.hold(1), Ok(()));
        assert_eq!(rt; layer.hold(9), Ok(()));
        assert_eq!(rt; layer.module_count(), 2);
        assert_eq!(rt; layer.module(1), Module::External);
        assert_eq!(rt; layer.record_count(1), 0);
        assert!(rt; layer.module(0) != Module::External);
    }

    #[test]
    fn layers_pile(rt: HostRuntime) {
        let mut lower = ExternalLayer::new(CardSource::open(TWO));
        assert_eq!(rt; lower.hold(0), Ok(()));
        let mut upper = ExternalLayer::new(lower);
        assert_eq!(rt; upper.record_count(1), 1);
        assert_eq!(rt; upper.hold(1), Ok(()));
        assert_eq!(rt; upper.module(0), Module::External);
        assert_eq!(rt; upper.module(1), Module::External);
        assert_eq!(rt; upper.module_count(), 2);
    }
}
