// Row faults at each limit and one past it, and what opened rows answer.
#![tactic(auto)]

#[cfg(test)]
mod tests {
    use faults::{Fault, Layer, Refusal};
    use row_source::{ModuleRow, RowSource, check_rows};
    use source::{
        ExportsKind, ImportKind, ImportRecord, Module, ModuleSource, NormalModule, Span, no_record,
    };
    use std::alloc::{AllocError, Global};
    use std::test::Fail;

    fn esm() -> Module {
        Module::Normal(NormalModule {
            scanned: ExportsKind::Esm,
            lazy_export: false,
            top_level_await: false,
            module_or_exports: false,
            node_esm: false,
            entry: false,
            await_span: Span { start: 0, end: 0 },
        })
    }

    fn import(target: Option<u32>) -> ImportRecord {
        ImportRecord {
            kind: ImportKind::Import,
            target,
            star: false,
            span: Span { start: 1, end: 2 },
        }
    }

    fn row(described: Module, first: u32, count: u32) -> ModuleRow {
        ModuleRow {
            described,
            first,
            count,
        }
    }

    fn refused(refusal: Refusal, at: usize) -> Result<(), Fault> {
        Err(refusal.found_by(Layer::Source, at, 0))
    }

    // So many modules, the first with all of so many records.
    fn verdict(
        heap: Global,
        modules: usize,
        records: u32,
    ) -> Result<Result<(), Fault>, AllocError> {
        let mut rows = Vec::new(heap);
        rows.push(row(esm(), 0, records))?;
        for _ in 1..modules {
            rows.push(row(Module::External, records, 0))?;
        }
        let mut imports = Vec::new(heap);
        for _ in 0..records {
            imports.push(import(None))?;
        }
        Ok(check_rows(rows.as_slice(), imports.as_slice()))
    }

    #[test]
    fn limits(rt: HostRuntime) -> Result<(), Fail> {
        let heap = rt.alloc();
        assert_eq!(rt; verdict(heap, 4096, 32768)?, Ok(()));
        assert_eq!(rt;
            verdict(heap, 4097, 32768)?,
            refused(Refusal::TooManyModules, 0)
        );
        assert_eq!(rt;
            verdict(heap, 4096, 32769)?,
            refused(Refusal::TooManyRecords, 0)
        );
        assert_eq!(rt;
            verdict(heap, 4097, 32769)?,
            refused(Refusal::TooManyModules, 0)
        );
        Ok(())
    }

    #[test]
    fn an_external_row_has_no_records(rt: HostRuntime) {
        let rows = [row(esm(), 0, 0), row(Module::External, 0, 1)];
        assert_eq!(rt;
            check_rows(&rows, &[import(None)]),
            refused(Refusal::FieldOutOfValues, 1)
        );
        // blankness is looked at before the first record row
        let elsewhere = [row(esm(), 0, 0), row(Module::External, 7, 1)];
        assert_eq!(rt;
            check_rows(&elsewhere, &[import(None)]),
            refused(Refusal::FieldOutOfValues, 1)
        );
        // a blank external row still begins where the one before ends
        let blank = [row(esm(), 0, 1), row(Module::External, 0, 0)];
        assert_eq!(rt;
            check_rows(&blank, &[import(None)]),
            refused(Refusal::WrongFirstRecord, 1)
        );
    }

    #[test]
    fn records_follow_one_another(rt: HostRuntime) {
        assert_eq!(rt;
            check_rows(&[row(esm(), 1, 1)], &[import(None)]),
            refused(Refusal::WrongFirstRecord, 0)
        );
        assert_eq!(rt;
            check_rows(&[row(esm(), 0, 0)], &[import(None)]),
            refused(Refusal::WrongFirstRecord, 1)
        );
        assert_eq!(rt;
            check_rows(&[row(esm(), 0, 2)], &[import(None)]),
            refused(Refusal::WrongFirstRecord, 1)
        );
        assert_eq!(rt;
            check_rows(&[row(esm(), 0, u32::MAX), row(esm(), u32::MAX, 1)], &[]),
            refused(Refusal::WrongFirstRecord, 2)
        );
    }

    #[test]
    fn a_target_is_below_the_mark_for_none(rt: HostRuntime) {
        let rows = [row(esm(), 0, 2)];
        assert_eq!(rt;
            check_rows(&rows, &[import(None), import(Some(u32::MAX - 1))]),
            Ok(())
        );
        assert_eq!(rt;
            check_rows(&rows, &[import(None), import(Some(u32::MAX))]),
            refused(Refusal::FieldOutOfValues, 1)
        );
        // record rows are looked at after all module rows, and before the last sum
        assert_eq!(rt;
            check_rows(&[row(esm(), 1, 0)], &[import(Some(u32::MAX))]),
            refused(Refusal::WrongFirstRecord, 0)
        );
        assert_eq!(rt;
            check_rows(&[row(esm(), 0, 0)], &[import(Some(u32::MAX))]),
            refused(Refusal::FieldOutOfValues, 0)
        );
    }

    #[test]
    fn opened_rows_answer(rt: HostRuntime) {
        let rows = [
            row(esm(), 0, 1),
            row(Module::External, 1, 0),
            row(esm(), 1, 2),
        ];
        let records = [import(Some(1)), import(Some(2)), import(None)];
        let source = RowSource::open(9, &rows, &records);
        assert_eq!(rt; source.runtime(), 9);
        assert_eq!(rt; source.module_count(), 3);
        assert_eq!(rt; source.record_count(2), 2);
        assert!(rt; source.module(1) == Module::External);
        assert!(rt; source.module(3) == Module::External);
        assert!(rt; source.record(2, 0) == import(Some(2)));
        assert!(rt; source.record(2, 2) == no_record());
        assert!(rt; source.record(3, 0) == no_record());
        assert!(rt; source.look(0, 0).1 == Some(1));
    }

    #[test]
    fn refused_rows_open_empty(rt: HostRuntime) {
        let rows = [row(esm(), 1, 0)];
        let source = RowSource::open(9, &rows, &[]);
        assert_eq!(rt; source.module_count(), 0);
        assert_eq!(rt; source.runtime(), 0);
    }
}
