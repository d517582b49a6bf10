// The rows as a source.
ghost use Rattle.std.specs.Prelude.{◌≡◌, true, is_ok};
ghost use Rattle.source.specs.Meaning.{records_of};
ghost use Rattle.row_source.specs.Checks.{rows_verdict};
ghost use Rattle.row_source.specs.Rows.{rows_meaning, opened};
ghost use Rattle.row_source.specs.Propers.{rows_proper};

use crate::check::check_rows;
use crate::rows::ModuleRow;
use source::{ImportRecord, Module, ModuleSource, no_record};

/// Rows that the check accepts, read where they lie.
#[derive(Clone, Copy)]
pub struct RowSource<'a> {
    runtime: u32,
    modules: &'a [ModuleRow],
    records: &'a [ImportRecord],
    ghost accepted: { is_ok (rows_verdict modules.now records.now) ≡ true },
}

impl<'a> RowSource<'a> {
    /// The rows as a source; where the check refuses them, no modules and 0 for the runtime.
    pub fn open(
        runtime: u32,
        modules: &'a [ModuleRow],
        records: &'a [ImportRecord],
    ) -> RowSource<'a>
        ensures { rows_meaning result.runtime result.modules.now result.records.now ≡ opened runtime modules.now records.now }
    {
        if check_rows(modules, records).is_ok() {
            RowSource {
                runtime,
                modules,
                records,
            }
        } else {
            RowSource {
                runtime: 0,
                modules: &[],
                records: &[],
            }
        }
    }

    /// The record rows that are the module's own.
    fn records_of(&self, m: usize) -> &[ImportRecord]
        ensures { result.now ≡ records_of (rows_meaning self.now.runtime self.now.modules.now self.now.records.now) m }
    {
        let Some(row) = self.modules.get(m) else {
            return &[];
        };
        let first = row.first as usize;
        &self.records[first..first + row.count as usize]
    }
}

impl<'a> ModuleSource for RowSource<'a> {
    ghost meaning = { λ s. rows_meaning s.runtime s.modules.now s.records.now };

    ghost proper = { λ s. rows_proper s.runtime s.modules.now s.records.now s.accepted };

    fn module_count(&self) -> usize {
        self.modules.len()
    }

    fn runtime(&self) -> u32 {
        self.runtime
    }

    fn module(&self, m: usize) -> Module {
        self.modules
            .get(m)
            .map_or(Module::External, |row| row.described)
    }

    fn record_count(&self, m: usize) -> usize {
        self.records_of(m).len()
    }

    fn record(&self, m: usize, k: usize) -> ImportRecord {
        self.records_of(m).get(k).copied().unwrap_or_else(no_record)
    }
}
