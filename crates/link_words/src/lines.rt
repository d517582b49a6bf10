// The lines that tell what a link settled.
ghost use Rattle.std.specs.Prelude.{◌≡◌, Some};
ghost use Rattle.link_words.specs.Words.{kind_word, first_word};

use crate::words::wrap_word;
use marks::{AwaitRow, MarkRow, WrapperRow};
use source::{ExportsKind, Module};
use spread::EntrySet;
use std::fmt;
use table_words::Worded;

fn kind_word(described: Module, kind: ExportsKind) -> &'static str
    ensures { result.now ≡ kind_word described kind }
{
    match described {
        Module::External => "external",
        Module::Normal(_) => kind.word(),
    }
}

// The first rank of an entry set, or `none`.
#[derive(Clone, Copy)]
struct First(Option<u32>);

impl fmt::Display for First {
    ghost output = { λ first. Some (first_word first.0) };

    fn fmt<W: fmt::Write>(&self, f: &mut fmt::Formatter<W>) -> fmt::Result {
        match self.0 {
            Some(rank) => write!(f, "{rank}"),
            None => write!(f, "none"),
        }
    }
}

/// What is settled of module m.
#[derive(Clone, Copy)]
pub struct MarkLine {
    pub m: usize,
    pub described: Module,
    pub row: MarkRow,
}

impl fmt::Display for MarkLine {
    fn fmt<W: fmt::Write>(&self, f: &mut fmt::Formatter<W>) -> fmt::Result {
        let MarkLine { m, described, row } = *self;
        let kind = kind_word(described, row.kind);
        let wrap = wrap_word(row.wrap);
        let required = row.required.word();
        let dynamic = row.dynamic.word();
        let awaiting = row.awaiting.word();
        let set = EntrySet(row.entries);
        let entries = set.count();
        let first = First(set.first());
        writeln!(
            f,
            "mark module={m} kind={kind} wrap={wrap} required={required} dynamic={dynamic} awaiting={awaiting} entries={entries} first={first}"
        )
    }
}

/// A `require` that would have to wait, and for which `await`.
#[derive(Clone, Copy)]
pub struct AwaitLine(pub AwaitRow);

impl fmt::Display for AwaitLine {
    fn fmt<W: fmt::Write>(&self, f: &mut fmt::Formatter<W>) -> fmt::Result {
        let AwaitRow {
            importer,
            record,
            source,
            span,
            await_span,
        } = self.0;
        let (start, end) = (span.start, span.end);
        let (await_start, await_end) = (await_span.start, await_span.end);
        writeln!(
            f,
            "await importer={importer} record={record} start={start} end={end} source={source} await_start={await_start} await_end={await_end}"
        )
    }
}

/// A wrapper that is to be written.
#[derive(Clone, Copy)]
pub struct WrapperLine(pub WrapperRow);

impl fmt::Display for WrapperLine {
    fn fmt<W: fmt::Write>(&self, f: &mut fmt::Formatter<W>) -> fmt::Result {
        let module = self.0.module;
        let wrap = wrap_word(self.0.wrap);
        let helper = self.0.helper.text();
        let eval = self.0.eval.word();
        writeln!(
            f,
            "wrapper module={module} wrap={wrap} helper={helper} eval={eval}"
        )
    }
}
