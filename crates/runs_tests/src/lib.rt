// Lists of calls with refused, repeated and misordered ones, and what they come to.
#![tactic(auto)]

#[cfg(test)]
mod tests {
    use faults::{Fault, Layer, Place, Refusal};
    use link::Link;
    use marks::{AwaitRow, Helper, LinkOptions, MarkRow, OutputFormat, WrapKind, WrapperRow};
    use row_source::{ModuleRow, RowSource};
    use runs::{Work, run, run_to_end};
    use settled::{Asked, Pass};
    use source::{ExportsKind, ImportKind, ImportRecord, Module, NormalModule, Span};
    use spread::{Arrow, EntrySet, YesNo};

    const NOWHERE: Span = Span { start: 0, end: 0 };

    fn module(scanned: ExportsKind, awaits: bool, first: u32, count: u32) -> ModuleRow {
        ModuleRow {
            described: Module::Normal(NormalModule {
                scanned,
                lazy_export: false,
                top_level_await: awaits,
                module_or_exports: false,
                node_esm: false,
                entry: false,
                await_span: NOWHERE,
            }),
            first,
            count,
        }
    }

    // 0 is the runtime, 1 has no kind, and 3 awaits.
    fn modules() -> [ModuleRow; 4] {
        [
            module(ExportsKind::Esm, false, 0, 0),
            module(ExportsKind::None, false, 0, 0),
            module(ExportsKind::Esm, false, 0, 3),
            module(ExportsKind::Esm, true, 3, 0),
        ]
    }

    fn record(kind: ImportKind, target: u32) -> ImportRecord {
        ImportRecord {
            kind,
            target: Some(target),
            star: false,
            span: NOWHERE,
        }
    }

    // 2 imports 1, then requires 1 and 3.
    fn records() -> [ImportRecord; 3] {
        [
            record(ImportKind::Import, 1),
            record(ImportKind::Require, 1),
            record(ImportKind::Require, 3),
        ]
    }

    fn options() -> LinkOptions {
        LinkOptions {
            format: OutputFormat::Esm,
            splitting_off: false,
            strict_order: false,
            manual_groups: false,
            profiler_names: false,
        }
    }

    // A call that may use so many arrows, places and results.
    fn lent(pass: Pass, arrows: usize, places: usize, results: usize) -> Asked {
        Asked {
            pass,
            arrows,
            places,
            results,
            answer: None,
        }
    }

    fn whole(pass: Pass) -> Asked {
        lent(pass, 9, 9, 9)
    }

    fn refused(refusal: Refusal) -> Option<Result<usize, Fault>> {
        Some(Err(Fault {
            refusal,
            layer: Layer::Link,
            place: Place { at: 0, record: 0 },
        }))
    }

    fn mark(kind: ExportsKind, wrap: WrapKind, required: bool, awaiting: bool) -> MarkRow {
        MarkRow {
            kind,
            wrap,
            required,
            dynamic: false,
            awaiting,
            entries: 0,
        }
    }

    // The first record to 1 is an import, so it is ESM; both that are required are wrapped.
    fn settled_marks() -> [MarkRow; 4] {
        [
            mark(ExportsKind::Esm, WrapKind::None, false, false),
            mark(ExportsKind::Esm, WrapKind::Esm, true, false),
            mark(ExportsKind::Esm, WrapKind::None, false, false),
            mark(ExportsKind::Esm, WrapKind::Esm, true, true),
        ]
    }

    fn no_marks() -> [MarkRow; 4] {
        [mark(ExportsKind::CommonJs, WrapKind::Cjs, true, true); 4]
    }

    fn no_rows() -> [AwaitRow; 1] {
        [AwaitRow {
            importer: 0,
            record: 0,
            source: 0,
            span: NOWHERE,
            await_span: NOWHERE,
        }]
    }

    fn run_calls(marks: &mut [MarkRow], list: &mut [AwaitRow], calls: &mut [Asked]) -> bool {
        let modules = modules();
        let records = records();
        let source = RowSource::open(0, &modules, &records);
        let begun = run(
            &mut Link::new(),
            &source,
            options(),
            marks,
            &mut Work {
                facts: &mut [YesNo(false); 4],
                flags: &mut [YesNo(false); 4],
                sets: &mut [EntrySet(0); 4],
                ends: &mut [0; 4],
                found: &mut [None; 4],
                arrows: &mut [Arrow { from: 0, to: 0 }; 3],
            },
            list,
            calls,
        );
        begun.is_ok()
    }

    // Wrap before kinds settles nothing, and star and await are first lent too little.
    #[test]
    fn refused_repeated_and_misordered_calls_settle(rt: HostRuntime) {
        let mut calls = [
            whole(Pass::Wrap),
            lent(Pass::Star, 2, 9, 9),
            whole(Pass::Kinds),
            lent(Pass::Await, 9, 9, 0),
            whole(Pass::Star),
            whole(Pass::Kinds),
            whole(Pass::Await),
            lent(Pass::Wrap, 9, 3, 9),
            whole(Pass::Wrap),
        ];
        let mut marks = no_marks();
        let mut list = no_rows();
        assert!(rt; run_calls(&mut marks, &mut list, &mut calls));
        assert_eq!(rt; calls[0].answer, Some(Ok(0)));
        assert_eq!(rt; calls[1].answer, refused(Refusal::WorkTooShort));
        assert_eq!(rt; calls[3].answer, refused(Refusal::ResultsTooShort));
        assert_eq!(rt; calls[6].answer, Some(Ok(1)));
        assert_eq!(rt; calls[7].answer, refused(Refusal::WorkTooShort));
        assert_eq!(rt; calls[8].answer, Some(Ok(0)));
        assert_eq!(rt; (list[0].importer, list[0].record), (2, 2));
        assert_eq!(rt; list[0].source, 3);
        assert_eq!(rt; marks, settled_marks());
    }

    #[test]
    fn the_usual_order_settles_the_same(rt: HostRuntime) {
        let mut calls = [
            whole(Pass::Kinds),
            whole(Pass::Star),
            whole(Pass::Wrap),
            whole(Pass::Await),
        ];
        let mut marks = no_marks();
        assert!(rt; run_calls(&mut marks, &mut no_rows(), &mut calls));
        assert_eq!(rt; marks, settled_marks());
    }

    // Runs the calls and finishes; how many wrappers there are, or the fault.
    fn finish_after(
        marks: &mut [MarkRow],
        calls: &mut [Asked],
        wrappers: &mut [WrapperRow],
    ) -> Result<usize, Fault> {
        let modules = modules();
        let records = records();
        let source = RowSource::open(0, &modules, &records);
        run_to_end(
            &mut Link::new(),
            &source,
            options(),
            marks,
            &mut Work {
                facts: &mut [YesNo(false); 4],
                flags: &mut [YesNo(false); 4],
                sets: &mut [EntrySet(0); 4],
                ends: &mut [0; 4],
                found: &mut [None; 4],
                arrows: &mut [Arrow { from: 0, to: 0 }; 3],
            },
            &mut no_rows(),
            calls,
            wrappers,
        )
    }

    fn no_wrappers() -> [WrapperRow; 4] {
        [WrapperRow {
            module: 9,
            wrap: WrapKind::None,
            helper: Helper::Esm,
            eval: false,
        }; 4]
    }

    #[test]
    fn finish_writes_a_wrapper_for_each_wrapped_module(rt: HostRuntime) {
        let mut calls = [
            whole(Pass::Await),
            whole(Pass::Kinds),
            whole(Pass::Wrap),
            whole(Pass::Star),
        ];
        let mut marks = no_marks();
        let mut wrappers = no_wrappers();
        assert_eq!(rt; finish_after(&mut marks, &mut calls, &mut wrappers), Ok(2));
        assert_eq!(rt; (wrappers[0].module, wrappers[1].module), (1, 3));
        assert_eq!(rt; wrappers[2].module, 9);
        assert_eq!(rt; marks, settled_marks());
    }

    #[test]
    fn finish_is_refused_while_star_came_before_kinds_alone(rt: HostRuntime) {
        let mut calls = [
            whole(Pass::Star),
            whole(Pass::Kinds),
            whole(Pass::Wrap),
            whole(Pass::Await),
        ];
        assert_eq!(rt;
            Some(finish_after(&mut no_marks(), &mut calls, &mut no_wrappers())),
            refused(Refusal::NotAtThisStage)
        );
    }
}
