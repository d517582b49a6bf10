// Texts of lines: each line has words, and a comment from `#` on.
ghost use Rattle.std.specs.Prelude.{◌≡◌, ◌<◌, IfOk, IfErr, MatchResult, string_len, All};
ghost use Rattle.table_words.specs.declared.lines.LineError.TheVariants.{NoMemory};
ghost use Rattle.table_words.specs.Lines.{at_line, NamesLine};

use std::alloc::{AllocError, AllocFailed, Global};
use std::fmt;
use std::str::SplitWhitespace;

/// Why one line does not read: what it should have had in the place where it has something else, or want of memory.
#[derive(Clone, Copy, PartialEq, Eq, Debug)]
pub enum LineError<E> {
    Expected(E),
    NoMemory,
}

impl<E> From<AllocError> for LineError<E> {
    ghost from_gives = { λ _ e. e ≡ NoMemory };

    fn from(_error: AllocError) -> LineError<E> {
        LineError::NoMemory
    }
}

impl<E, T: Drop> From<AllocFailed<T>> for LineError<E> {
    ghost from_gives = { λ _ e. e ≡ NoMemory };

    fn from(_error: AllocFailed<T>) -> LineError<E> {
        LineError::NoMemory
    }
}

impl<E> LineError<E> {
    /// Of the line with this number.
    pub fn at_line(self, line: usize) -> TextError<E>
        ensures { result ≡ at_line self line }
    {
        match self {
            LineError::Expected(expected) => TextError::BadLine { line, expected },
            LineError::NoMemory => TextError::NoMemory,
        }
    }
}

/// Why a text does not read: a bad line by its number, from 1 on, or want of memory.
#[derive(Clone, Copy, PartialEq, Eq, Debug)]
pub enum TextError<E> {
    BadLine { line: usize, expected: E },
    NoMemory,
}

impl<E: fmt::Display> fmt::Display for TextError<E> {
    fn fmt<W: fmt::Write>(&self, f: &mut fmt::Formatter<W>) -> fmt::Result {
        match self {
            TextError::BadLine { line, expected } => write!(f, "line {line}: expected {expected}"),
            TextError::NoMemory => write!(f, "no memory left"),
        }
    }
}

/// Hands over the first word of each line that has one, and the words after it, up to the first line that does not read.
pub fn read_lines<E, F: FnMut(&str, SplitWhitespace<'_>) -> Result<(), LineError<E>>>(
    text: &str,
    mut read: F,
) -> Result<(), TextError<E>>
    requires { F.IsAlwaysCallable read }
    ensures { IfErr result NamesLine }
{
    for (i, line) in text.lines().enumerate() {
        let content = line.split_once('#').map_or(line, |(content, _)| content);
        let mut words = content.split_whitespace();
        if let Some(first) = words.next() {
            read(first, words).map_err(|error| error.at_line(i.saturating_add(1)))?;
        }
    }
    Ok(())
}

/// No word is left, or this was expected in place of the next.
pub fn end_line<E: Drop>(mut words: SplitWhitespace<'_>, end: E) -> Result<(), E>
    ensures { MatchResult result (λ _. (after : _) × ⟦<SplitWhitespace<'static> as Iterator>⟧.next_gives words.entry None after) (λ expected. expected ≡ end) }
{
    match words.next() {
        None => Ok(()),
        Some(_) => Err(end),
    }
}

/// The words of a text, each owned.
pub fn owned_words(heap: Global, text: &str) -> Result<Vec<String>, AllocError>
    ensures { IfOk result (λ words. All (λ word. 0 < string_len word) words.items) }
{
    text.split_whitespace()
        .map(|word| -> Result<String, AllocError> { String::from_str(heap, word) })
        .try_collect(heap)
}
