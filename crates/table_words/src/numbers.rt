// Numbers and spans of the text form.
ghost use Rattle.table_words.specs.Numbers.{Numbered, Spanned};

use source::Span;

/// A decimal number below 2^32, by its digits alone: no sign.
pub fn read_number(word: &str) -> Option<u32>
    ensures { Numbered word.now result }
{
    if word.starts_with('+') {
        return None;
    }
    word.parse::<u32>().ok()
}

/// `START..END`.
pub fn read_span(word: &str) -> Option<Span>
    ensures { Spanned word.now result }
{
    let (start, rest) = word.split_once('.')?;
    let end = rest.strip_prefix('.')?;
    Some(Span {
        start: read_number(start)?,
        end: read_number(end)?,
    })
}
