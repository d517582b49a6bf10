// Reads the text form, line by line.
use crate::errors::{Expected, TableError};
use row_source::ModuleRow;
use source::{ExportsKind, ImportKind, ImportRecord, Module, NormalModule, Span};
use std::alloc::Global;
use std::str::SplitWhitespace;
use table_words::{Flag, LineError, Worded, end_line, raise, read_lines, read_number, read_span};

/// What a table says, as rows: whether they make a source is for the row check to tell.
#[derive(Drop)]
pub struct Table {
    pub runtime: u32,
    pub modules: Vec<ModuleRow>,
    pub records: Vec<ImportRecord>,
}

// The rows so far; the runtime is none until its line has come.
#[derive(Drop)]
struct Draft {
    runtime: Option<u32>,
    modules: Vec<ModuleRow>,
    records: Vec<ImportRecord>,
}

/// The rows of a text table, or the first line that does not read.
pub fn read_table(heap: Global, text: &str) -> Result<Table, TableError> {
    let mut draft = Draft {
        runtime: None,
        modules: Vec::new(heap),
        records: Vec::new(heap),
    };
    read_lines(text, |first, words| draft.read_line(first, words))?;
    let Draft {
        runtime,
        modules,
        records,
    } = draft;
    Ok(Table {
        runtime: runtime.ok_or(TableError::NoRuntime)?,
        modules,
        records,
    })
}

impl Draft {
    fn read_line(
        &mut self,
        first: &str,
        words: SplitWhitespace<'_>,
    ) -> Result<(), LineError<Expected>> {
        if self.runtime.is_none() {
            return self.read_runtime(first, words);
        }
        match first {
            "module" => self.read_module(words),
            "external" => {
                end_line(words, Expected::End)?;
                self.push_module(Module::External)
            }
            _ => {
                let kind = ImportKind::from_word(first).ok_or(Expected::LineWord)?;
                self.push_record(read_record(kind, words)?)
            }
        }
    }

    fn read_runtime(
        &mut self,
        first: &str,
        mut words: SplitWhitespace<'_>,
    ) -> Result<(), LineError<Expected>> {
        if first != "runtime" {
            return Err(Expected::RuntimeLine.into());
        }
        let runtime = words
            .next()
            .and_then(|word| read_number(word))
            .ok_or(Expected::Number)?;
        end_line(words, Expected::End)?;
        self.runtime = Some(runtime);
        Ok(())
    }

    fn read_module(&mut self, mut words: SplitWhitespace<'_>) -> Result<(), LineError<Expected>> {
        let scanned = words
            .next()
            .and_then(ExportsKind::from_word)
            .ok_or(Expected::ExportsKind)?;
        let mut module = plain_module(scanned);
        for word in words.by_ref() {
            if let Some(flag) = Flag::from_word(word) {
                module = raise(module, flag).ok_or(Expected::FlagOrSpan)?;
            } else {
                module.await_span = read_span(word).ok_or(Expected::FlagOrSpan)?;
                break;
            }
        }
        end_line(words, Expected::End)?;
        self.push_module(Module::Normal(module))
    }

    fn push_module(&mut self, described: Module) -> Result<(), LineError<Expected>> {
        let first = u32::try_from(self.records.len()).map_err(|_| Expected::FewerRecords)?;
        self.modules.push(ModuleRow {
            described,
            first,
            count: 0,
        })?;
        Ok(())
    }

    // The record is the last module's.
    fn push_record(&mut self, record: ImportRecord) -> Result<(), LineError<Expected>> {
        let row = self.modules.last_mut().ok_or(Expected::ModuleFirst)?;
        row.count = row.count.saturating_add(1);
        self.records.push(record)?;
        Ok(())
    }
}

fn plain_module(scanned: ExportsKind) -> NormalModule {
    NormalModule {
        scanned,
        lazy_export: false,
        top_level_await: false,
        module_or_exports: false,
        node_esm: false,
        entry: false,
        await_span: Span { start: 0, end: 0 },
    }
}

fn read_record(kind: ImportKind, mut words: SplitWhitespace<'_>) -> Result<ImportRecord, Expected> {
    let target = match words.next() {
        Some("-") => None,
        word => Some(
            word.and_then(|word| read_number(word))
                .ok_or(Expected::Target)?,
        ),
    };
    let mut word = words.next();
    let star = word == Some("star");
    if star {
        word = words.next();
    }
    let span = word.and_then(|word| read_span(word)).ok_or(Expected::Span)?;
    end_line(words, Expected::End)?;
    Ok(ImportRecord {
        kind,
        target,
        star,
        span,
    })
}
