// The fields of a block, by their offset after the block's length and kind: what they say, and whether one is wrong.
ghost use Rattle.std.specs.Prelude.{◌≡◌, ◌^◌, ◌<◌};
ghost use Rattle.card.specs.Fields.{exports_of, import_of, flag_of, target_of, module_of, record_of, module_wrong, record_wrong};

use crate::bytes::{u16_at, u32_at};
use source::{ExportsKind, ImportKind, ImportRecord, Module, NormalModule, Span};

// One function a field, since each kind has its own number past the last.
fn exports_of(number: u8) -> ExportsKind
    ensures { result ≡ exports_of number }
{
    ExportsKind::try_from(number).unwrap_or(ExportsKind::CommonJs)
}

pub fn import_of(number: u8) -> ImportKind
    ensures { result ≡ import_of number }
{
    ImportKind::try_from(number).unwrap_or(ImportKind::HotAccept)
}

/// Whether the flag of this bit is among the flags.
fn flag_of(flags: u16, bit: u32) -> bool
    requires { bit < 16 }
    ensures { result ≡ flag_of flags (2 ^ bit) }
{
    flags >> bit & 1 == 1
}

/// 2^32 - 1 stands for none.
pub fn target_of(number: u32) -> Option<u32>
    ensures { result ≡ target_of number }
{
    (number < u32::MAX).then_some(number)
}

/// What a module's fields describe.
pub fn module_of(fields: &[u8; 20]) -> Module
    ensures { result ≡ module_of fields.now }
{
    if fields[0] == 0 {
        return Module::External;
    }
    let flags = u16_at(fields, 2);
    Module::Normal(NormalModule {
        scanned: exports_of(fields[1]),
        lazy_export: flag_of(flags, 0),
        top_level_await: flag_of(flags, 1),
        module_or_exports: flag_of(flags, 2),
        node_esm: flag_of(flags, 3),
        entry: flag_of(flags, 4),
        await_span: Span {
            start: u32_at(fields, 4),
            end: u32_at(fields, 8),
        },
    })
}

/// The record that a record's fields stand for.
pub fn record_of(fields: &[u8; 14]) -> ImportRecord
    ensures { result ≡ record_of fields.now }
{
    ImportRecord {
        kind: import_of(fields[0]),
        target: target_of(u32_at(fields, 2)),
        star: fields[1] == 1,
        span: Span {
            start: u32_at(fields, 6),
            end: u32_at(fields, 10),
        },
    }
}

/// Whether a field is outside its values. Of an external module all but the first record's number is 0.
pub fn module_wrong(fields: &[u8; 20]) -> bool
    ensures { result ≡ module_wrong fields.now }
{
    let flags = u16_at(fields, 2);
    match fields[0] {
        0 => {
            fields[1] != 0
                || flags != 0
                || u32_at(fields, 4) != 0
                || u32_at(fields, 8) != 0
                || u32_at(fields, 16) != 0
        }
        1 => ExportsKind::try_from(fields[1]).is_err() || flags > 31,
        _ => true,
    }
}

pub fn record_wrong(fields: &[u8; 14]) -> bool
    ensures { result ≡ record_wrong fields.now }
{
    ImportKind::try_from(fields[0]).is_err() || fields[1] > 1
}
