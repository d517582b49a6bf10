// Reads the text form of interop rows, line by line.
use crate::errors::{Expected, RowsError};
use crate::uses::read_use;
use interop::{ImportRow, ObserverRow, Specifier};
use source::MODULE_LIMIT;
use std::alloc::Global;
use std::str::SplitWhitespace;
use table_words::{LineError, end_line, read_lines, read_number};

/// Observers and imports in their order, the chunk of each module, and the chunks that were removed.
#[derive(Drop)]
pub struct InteropRows {
    pub observers: Vec<ObserverRow>,
    pub imports: Vec<ImportRow>,
    pub assigned: Vec<Option<u32>>,
    pub removed: Vec<u32>,
}

/// The rows of a text, or the first line that does not read.
pub fn read_rows(heap: Global, text: &str) -> Result<InteropRows, RowsError> {
    let mut rows = InteropRows {
        observers: Vec::new(heap),
        imports: Vec::new(heap),
        assigned: Vec::new(heap),
        removed: Vec::new(heap),
    };
    read_lines(text, |first, words| match first {
        "observer" => rows.read_observer(words),
        "import" => rows.read_import(words),
        "assign" => rows.read_assign(words),
        "removed" => rows.read_removed(words),
        _ => Err(Expected::LineWord.into()),
    })?;
    Ok(rows)
}

fn next_number(words: &mut SplitWhitespace<'_>) -> Result<u32, Expected> {
    words
        .next()
        .and_then(|word| read_number(word))
        .ok_or(Expected::Number)
}

impl InteropRows {
    fn read_observer(&mut self, mut words: SplitWhitespace<'_>) -> Result<(), LineError<Expected>> {
        let namespace = next_number(&mut words)?;
        let observer = next_number(&mut words)?;
        let uses = words
            .next()
            .and_then(|word| read_use(word))
            .ok_or(Expected::Use)?;
        end_line(words, Expected::End)?;
        self.observers.push(ObserverRow {
            namespace,
            observer,
            uses,
        })?;
        Ok(())
    }

    // Other names than `default` go by the number of their row.
    fn read_import(&mut self, mut words: SplitWhitespace<'_>) -> Result<(), LineError<Expected>> {
        let importer = next_number(&mut words)?;
        let name = words.next().ok_or(Expected::Name)?;
        end_line(words, Expected::End)?;
        let specifier = match name {
            "*" => Specifier::Namespace,
            "default" => Specifier::Default,
            _ => Specifier::Named(u32::try_from(self.imports.len()).unwrap_or(0)),
        };
        self.imports.push(ImportRow {
            importer,
            specifier,
        })?;
        Ok(())
    }

    fn read_assign(&mut self, mut words: SplitWhitespace<'_>) -> Result<(), LineError<Expected>> {
        let m = next_number(&mut words)? as usize;
        if m >= MODULE_LIMIT {
            return Err(Expected::ModuleNumber.into());
        }
        let chunk = match words.next() {
            Some("-") => None,
            word => Some(
                word.and_then(|word| read_number(word))
                    .ok_or(Expected::Chunk)?,
            ),
        };
        end_line(words, Expected::End)?;
        if m >= self.assigned.len() {
            self.assigned.resize(m + 1, None)?;
        }
        if let Some(assigned) = self.assigned.get_mut(m) {
            *assigned = chunk;
        }
        Ok(())
    }

    fn read_removed(&mut self, mut words: SplitWhitespace<'_>) -> Result<(), LineError<Expected>> {
        let chunk = next_number(&mut words)?;
        end_line(words, Expected::End)?;
        self.removed.push(chunk)?;
        Ok(())
    }
}
