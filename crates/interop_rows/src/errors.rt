// Why interop rows do not read.
use std::fmt;
use table_words::{LineError, TextError};

/// What a line should have had in the place where it has something else.
#[derive(Clone, Copy, PartialEq, Eq, Debug)]
pub enum Expected {
    LineWord,
    Number,
    Use,
    Name,
    ModuleNumber,
    Chunk,
    End,
}

impl fmt::Display for Expected {
    fn fmt<W: fmt::Write>(&self, f: &mut fmt::Formatter<W>) -> fmt::Result {
        f.write_str(match self {
            Expected::LineWord => "`observer`, `import`, `assign` or `removed`",
            Expected::Number => "a number below 4294967296",
            Expected::Use => "`neither`, `node`, `other` or `node,other`",
            Expected::Name => "`*`, `default` or a name",
            Expected::ModuleNumber => "a module's number below 4096",
            Expected::Chunk => "a chunk's number, or `-`",
            Expected::End => "the line's end",
        })
    }
}

impl From<Expected> for LineError<Expected> {
    fn from(expected: Expected) -> LineError<Expected> {
        LineError::Expected(expected)
    }
}

/// A bad line by its number, from 1 on, with what it should have had, or want of memory.
pub type RowsError = TextError<Expected>;
