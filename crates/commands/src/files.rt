// Files that hold a source.
use crate::errors::{CommandError, in_file};
use crate::sources::Contents;
use interop_rows::{InteropRows, read_rows as read_interop_rows};
use std::alloc::Global;
use std::fs;
use std::str::from_utf8;
use table::read_table;

/// A larger file is not read: the largest source has some seven hundred kilobytes as a card, and a megabyte as a table.
const FILE_LIMIT: u64 = 16_777_216;

/// The length and kind with which every card begins.
const CARD_HEAD: [u8; 4] = [16, 0, 1, 0];

/// The file's bytes, or why there are none.
fn read_file(rt: &HostRuntime, path: &str) -> Result<Vec<u8>, CommandError> {
    let heap = rt.alloc();
    let size = in_file(heap, path, fs::metadata(rt, path))?.len();
    if size > FILE_LIMIT {
        return Err(format!(in heap; "{path}: larger than {FILE_LIMIT} bytes")?.into());
    }
    in_file(heap, path, fs::read(rt, path))
}

fn text_of<'a>(heap: Global, path: &str, bytes: &'a [u8]) -> Result<&'a str, CommandError> {
    in_file(
        heap,
        path,
        from_utf8(bytes).map_err(|_| "not a text in UTF-8"),
    )
}

/// Whether a file is taken for a card: by its name, or else by its first four bytes.
fn is_card(path: &str, bytes: &[u8]) -> bool {
    if path.ends_with(".card") {
        return true;
    }
    if path.ends_with(".table") {
        return false;
    }
    bytes.starts_with(&CARD_HEAD)
}

/// What the file holds. A card is whatever its bytes are: the check tells what is wrong with them.
pub fn read_contents(rt: &HostRuntime, path: &str) -> Result<Contents, CommandError> {
    let heap = rt.alloc();
    let bytes = read_file(rt, path)?;
    if is_card(path, bytes.as_slice()) {
        return Ok(Contents::Image(bytes));
    }
    if bytes.is_empty() {
        return Err(format!(in heap; "{path}: empty, so neither a table nor a card")?.into());
    }
    let text = text_of(heap, path, bytes.as_slice())?;
    Ok(Contents::Rows(in_file(heap, path, read_table(heap, text))?))
}

pub fn write_file(rt: &HostRuntime, path: &str, bytes: &[u8]) -> Result<(), CommandError> {
    in_file(rt.alloc(), path, fs::write(rt, path, bytes))
}

/// The interop rows of a text file.
pub fn read_interop_file(rt: &HostRuntime, path: &str) -> Result<InteropRows, CommandError> {
    let heap = rt.alloc();
    let bytes = read_file(rt, path)?;
    let text = text_of(heap, path, bytes.as_slice())?;
    in_file(heap, path, read_interop_rows(heap, text))
}
