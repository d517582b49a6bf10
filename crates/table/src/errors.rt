// Why a table does not read.
use std::fmt;
use table_words::{LineError, TextError};

/// What a line should have had in the place where it has something else.
#[derive(Clone, Copy, PartialEq, Eq, Debug)]
pub enum Expected {
    RuntimeLine,
    LineWord,
    ModuleFirst,
    Number,
    ExportsKind,
    FlagOrSpan,
    Target,
    Span,
    End,
    FewerRecords,
}

impl fmt::Display for Expected {
    fn fmt<W: fmt::Write>(&self, f: &mut fmt::Formatter<W>) -> fmt::Result {
        f.write_str(match self {
            Expected::RuntimeLine => "`runtime NUMBER` before any other line",
            Expected::LineWord => "`module`, `external` or a record's kind",
            Expected::ModuleFirst => "`module` or `external` before the first record",
            Expected::Number => "a number below 4294967296",
            Expected::ExportsKind => "`none`, `esm` or `cjs`",
            Expected::FlagOrSpan =>
                "`lazy`, `await`, `module`, `node`, `entry`, each once, or START..END",
            Expected::Target => "a target's number, or `-`",
            Expected::Span => "START..END",
            Expected::End => "the line's end",
            Expected::FewerRecords => "fewer than 4294967296 records",
        })
    }
}

impl From<Expected> for LineError<Expected> {
    fn from(expected: Expected) -> LineError<Expected> {
        LineError::Expected(expected)
    }
}

/// A line or want of memory, or a text with no line but blank ones.
#[derive(Clone, Copy, PartialEq, Eq, Debug)]
pub enum TableError {
    Text(TextError<Expected>),
    NoRuntime,
}

impl From<TextError<Expected>> for TableError {
    fn from(error: TextError<Expected>) -> TableError {
        TableError::Text(error)
    }
}

impl fmt::Display for TableError {
    fn fmt<W: fmt::Write>(&self, f: &mut fmt::Formatter<W>) -> fmt::Result {
        match self {
            TableError::Text(error) => write!(f, "{error}"),
            TableError::NoRuntime => write!(f, "no line `runtime NUMBER`"),
        }
    }
}
