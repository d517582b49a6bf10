// The last step of a link: which wrappers are written, each with the helper that makes it, as in
// `var require_bar = __commonJSMin((exports, module) => { .. });` and `var init_bar = __esmMin(() => { .. });`
ghost use Rattle.std.specs.Prelude.{◌≡◌, ◌≤◌, ◌++◌, length, drop};
ghost use Rattle.source.specs.Meaning.{count_of, module_at};
ghost use Rattle.marks.specs.Passes.{FinishDid};
ghost use Rattle.wrappers.specs.Wrappers.{strict_wraps, ends_wrapped, wrapper_row, wrapper_rows};

use marks::{Helper, LinkOptions, Mark, MarkRow, WrapKind, WrapperRow, write_front};
use source::{ExportsKind, Module, ModuleSource};

// Strict order with manual groups wraps every normal CommonJS module.
fn strict_wraps(options: LinkOptions, module: Module, kind: ExportsKind) -> bool
    ensures { result ≡ strict_wraps options «module» kind }
{
    match (module, kind) {
        (Module::Normal(_), ExportsKind::CommonJs) => options.strict_order & options.manual_groups,
        _ => false,
    }
}

// Whether a wrapper is written for the module.
fn ends_wrapped(options: LinkOptions, module: Module, row: MarkRow) -> bool
    ensures { result ≡ ends_wrapped options «module» row }
{
    let mark = Mark::read(row);
    match module {
        Module::External => false,
        Module::Normal(_) => mark.is_wrapped() | strict_wraps(options, module, mark.kind()),
    }
}

fn wrapper_row(options: LinkOptions, m: u32, kind: ExportsKind) -> WrapperRow
    ensures { result ≡ wrapper_row options m kind }
{
    match kind {
        ExportsKind::CommonJs => WrapperRow {
            module: m,
            wrap: WrapKind::Cjs,
            helper: if options.profiler_names {
                Helper::CommonJs
            } else {
                Helper::CommonJsMin
            },
            eval: false,
        },
        ExportsKind::None | ExportsKind::Esm => WrapperRow {
            module: m,
            wrap: WrapKind::Esm,
            helper: if options.profiler_names {
                Helper::Esm
            } else {
                Helper::EsmMin
            },
            eval: true,
        },
    }
}

/// How many wrappers finish writes over these rows.
pub fn count_wrappers<S: ModuleSource>(source: &S, options: LinkOptions, rows: &[MarkRow]) -> usize
    requires { count_of (S.meaning source.now) ≤ length rows.now }
    ensures { result ≡ length (wrapper_rows (S.meaning source.now) options rows.now (count_of (S.meaning source.now))) }
{
    let mut n: usize = 0;
    // Counted by hand: the proof of `filter(..).count()` over numbers did not close.
    for m in 0..source.module_count() {
        if ends_wrapped(options, source.module(m), rows[m]) {
            n += 1;
        }
    }
    n
}

/// Writes one row for each wrapper, in module order, and answers how many there are; rows past them stay.
pub fn write_wrappers<S: ModuleSource>(
    source: &S,
    options: LinkOptions,
    rows: &[MarkRow],
    list: &mut [WrapperRow],
) -> usize
    requires small { count_of (S.meaning source.now) ≤ 4096 }
    requires rows { count_of (S.meaning source.now) ≤ length rows.now }
    requires room { length (wrapper_rows (S.meaning source.now) options rows.now (count_of (S.meaning source.now))) ≤ length list.old }
    ensures count { result ≡ length (wrapper_rows (S.meaning source.now) options rows.now (count_of (S.meaning source.now))) }
    ensures list { list.new ≡ wrapper_rows (S.meaning source.now) options rows.now (count_of (S.meaning source.now)) ++ drop result list.old }
{
    let mut n: usize = 0;
    for m in 0..source.module_count() {
        let row = rows[m];
        if ends_wrapped(options, source.module(m), row) {
            // The rows are lent memory, so that their count stands beside them.
            list[n] = wrapper_row(options, m as u32, row.kind);
            n += 1;
        }
    }
    n
}

/// Wraps what strict order with manual groups asks for, and writes each row whole.
pub fn finish_rows<S: ModuleSource>(source: &S, options: LinkOptions, rows: &mut [MarkRow])
    requires { count_of (S.meaning source.now) ≤ length rows.old }
    ensures { FinishDid (S.meaning source.now) options rows.old rows.new }
{
    write_front(rows, source.module_count(), |m, row| {
        let mark = Mark::read(row);
        let kind = mark.kind();
        let strict = strict_wraps(options, source.module(m), kind);
        mark.marked(kind, mark.is_wrapped() | strict).row()
    });
}
