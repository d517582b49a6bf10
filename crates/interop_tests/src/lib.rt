// What the questions answer, rule by rule.
#![tactic(auto)]

#[cfg(test)]
mod tests {
    use faults::{Fault, Layer, Refusal};
    use interop::{ChunkAssignments, ImportRow, ObserverRow, Question, Specifier};
    use row_source::{ModuleRow, RowSource};
    use source::{ExportsKind, Module, NormalModule, Span};
    use spread::InteropUse;

    const WINCH: u32 = 7;

    fn normal(node_esm: bool) -> ModuleRow {
        ModuleRow {
            described: Module::Normal(NormalModule {
                scanned: ExportsKind::Esm,
                lazy_export: false,
                top_level_await: false,
                module_or_exports: false,
                node_esm,
                entry: false,
                await_span: Span { start: 0, end: 0 },
            }),
            first: 0,
            count: 0,
        }
    }

    // 0 is a `.js`, 1 an `.mjs`, 2 is external, 3 a `.js`.
    fn modules() -> [ModuleRow; 4] {
        let external = ModuleRow {
            described: Module::External,
            first: 0,
            count: 0,
        };
        [normal(false), normal(true), external, normal(false)]
    }

    fn used(node: bool, non_node: bool) -> InteropUse {
        InteropUse { node, non_node }
    }

    fn observer(observer: u32, uses: InteropUse) -> ObserverRow {
        ObserverRow {
            namespace: WINCH,
            observer,
            uses,
        }
    }

    fn import(importer: u32, specifier: Specifier) -> ImportRow {
        ImportRow {
            importer,
            specifier,
        }
    }

    fn past_source(row: usize) -> Fault {
        Refusal::RowPastSource.found_by(Layer::Interop, row, 0)
    }

    fn ask<'a>(
        source: &'a RowSource<'a>,
        chunks: ChunkAssignments<'a>,
        observers: &'a [ObserverRow],
        namespace: u32,
        chunk: u32,
    ) -> Question<'a, RowSource<'a>> {
        Question {
            source,
            chunks,
            observers,
            namespace,
            chunk,
        }
    }

    #[test]
    fn an_observer_counts_in_its_own_chunk(rt: HostRuntime) {
        let modules = modules();
        let source = RowSource::open(0, &modules, &[]);
        let chunks = ChunkAssignments::new(&[Some(0), Some(5)], &[]);
        let rows = [
            observer(0, used(false, true)),
            observer(1, used(true, false)),
        ];
        assert_eq!(rt;
            ask(&source, chunks, &rows, WINCH, 0).recorded_use(),
            Ok(Some(used(false, true)))
        );
        assert_eq!(rt;
            ask(&source, chunks, &rows, WINCH, 5).recorded_use(),
            Ok(Some(used(true, false)))
        );
        assert_eq!(rt;
            ask(&source, chunks, &rows, WINCH, 6).recorded_use(),
            Ok(None)
        );
        assert_eq!(rt; ask(&source, chunks, &rows, 8, 0).recorded_use(), Ok(None));
    }

    // Module 0 has no chunk, the chunk of 1 was removed, and 3 is past the end of the list.
    #[test]
    fn an_observer_without_a_live_chunk_counts_in_each(rt: HostRuntime) {
        let modules = modules();
        let source = RowSource::open(0, &modules, &[]);
        let chunks = ChunkAssignments::new(&[None, Some(5)], &[4, 5]);
        assert_eq!(rt; chunks.live_chunk(1), None);
        assert_eq!(rt; chunks.live_chunk(3), None);
        let unassigned = [observer(0, used(false, true))];
        assert_eq!(rt;
            ask(&source, chunks, &unassigned, WINCH, 9).recorded_use(),
            Ok(Some(used(false, true)))
        );
        let removed = [observer(1, used(true, false))];
        assert_eq!(rt;
            ask(&source, chunks, &removed, WINCH, 9).recorded_use(),
            Ok(Some(used(true, false)))
        );
        let past = [observer(3, used(false, false))];
        assert_eq!(rt;
            ask(&source, chunks, &past, WINCH, 9).recorded_use(),
            Ok(Some(used(false, false)))
        );
    }

    #[test]
    fn star_and_default_imports_need_interop(rt: HostRuntime) {
        let modules = modules();
        let source = RowSource::open(0, &modules, &[]);
        let chunks = ChunkAssignments::new(&[], &[]);
        let star = [import(0, Specifier::Namespace)];
        assert_eq!(rt;
            ask(&source, chunks, &[], WINCH, 0).modes(&star),
            Ok(Some(used(false, true)))
        );
        let default = [import(1, Specifier::Default)];
        assert_eq!(rt;
            ask(&source, chunks, &[], WINCH, 0).modes(&default),
            Ok(Some(used(true, false)))
        );
        let external = [import(2, Specifier::Default)];
        assert_eq!(rt;
            ask(&source, chunks, &[], WINCH, 0).modes(&external),
            Ok(Some(used(false, true)))
        );
    }

    #[test]
    fn named_imports_contribute_nothing(rt: HostRuntime) {
        let modules = modules();
        let source = RowSource::open(0, &modules, &[]);
        let chunks = ChunkAssignments::new(&[], &[]);
        let named = [import(1, Specifier::Named(3))];
        assert_eq!(rt;
            ask(&source, chunks, &[], WINCH, 0).recorded_use(),
            Ok(None)
        );
        assert_eq!(rt; ask(&source, chunks, &[], WINCH, 0).modes(&named), Ok(None));
        assert_eq!(rt;
            ask(&source, chunks, &[], WINCH, 0).reader(&named),
            Ok(false)
        );
    }

    #[test]
    fn modes_mix_and_doubled_rows_change_nothing(rt: HostRuntime) {
        let modules = modules();
        let source = RowSource::open(0, &modules, &[]);
        let chunks = ChunkAssignments::new(&[], &[]);
        let seen = observer(0, used(true, false));
        let star = import(3, Specifier::Namespace);
        assert_eq!(rt;
            ask(&source, chunks, &[seen], WINCH, 0).modes(&[star]),
            Ok(Some(used(true, true)))
        );
        assert_eq!(rt;
            ask(&source, chunks, &[seen, seen], WINCH, 0).modes(&[star, star]),
            Ok(Some(used(true, true)))
        );
        assert_eq!(rt;
            ask(&source, chunks, &[seen, seen], WINCH, 0).reader(&[star, star]),
            Ok(false)
        );
    }

    // The import was written in an `.mjs` that is gone: the recorded use is Node's, and a `.js` reads it.
    #[test]
    fn a_reader_is_a_module_and_not_a_use(rt: HostRuntime) {
        let modules = modules();
        let source = RowSource::open(0, &modules, &[]);
        let chunks = ChunkAssignments::new(&[], &[]);
        let other = [observer(0, used(true, false))];
        assert_eq!(rt;
            ask(&source, chunks, &other, WINCH, 0).reader(&[]),
            Ok(false)
        );
        let node = [observer(1, used(false, true))];
        assert_eq!(rt; ask(&source, chunks, &node, WINCH, 0).reader(&[]), Ok(true));
        let star = [import(1, Specifier::Namespace)];
        assert_eq!(rt; ask(&source, chunks, &[], WINCH, 0).reader(&star), Ok(true));
    }

    #[test]
    fn rows_past_the_source_are_refused(rt: HostRuntime) {
        let modules = modules();
        let source = RowSource::open(0, &modules, &[]);
        let chunks = ChunkAssignments::new(&[], &[]);
        let last = observer(3, used(false, false));
        let past = observer(4, used(false, false));
        let named = [import(9, Specifier::Named(0))];
        assert_eq!(rt;
            ask(&source, chunks, &[last, past], 0, 0).recorded_use(),
            Err(past_source(1))
        );
        assert_eq!(rt;
            ask(&source, chunks, &[last, past], 0, 0).modes(&named),
            Err(past_source(1))
        );
        assert_eq!(rt;
            ask(&source, chunks, &[last], 0, 0).modes(&named),
            Err(past_source(0))
        );
        assert_eq!(rt;
            ask(&source, chunks, &[last], 0, 0).reader(&named),
            Err(past_source(0))
        );
    }
}
