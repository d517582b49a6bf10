// `export * from './driver.js'` passes on names that nobody knows before the driver has run, where the driver is external
// or CommonJS. A module whose star records come to such a one has dynamic exports.
ghost use Rattle.std.specs.Prelude.{◌≡◌, ◌<◌, ◌≤◌, true, ◌↔◌, length};
ghost use Rattle.source.specs.Meaning.{count_of, module_at, record_total};
ghost use Rattle.marks.specs.declared.options.LinkOptions.{LinkOptions};
ghost use Rattle.marks.specs.Passes.{StarDid};
ghost use Rattle.marks.specs.Records.{HasStar};
ghost use Rattle.marks.specs.Rows.{Written};
ghost use Rattle.ways.specs.Targets.{Filled};
ghost use Rattle.ways.specs.Ways.{Targets};
ghost use Rattle.dynamic_exports.specs.Stars.{open_end, OpenAt, StarredRow};

use marks::{Mark, MarkRow, write_front};
use source::{ExportsKind, Module, ModuleSource};
use spread::{Arrow, YesNo};
use ways::{Checked, Linkable, Pick, Way, clear, point_at, spread_linkable};

// External, or of the CommonJS kind.
// By cases, as a reader would list them.
fn is_open_end(module: Module, kind: ExportsKind) -> bool
    ensures { result ≡ open_end «module» kind }
{
    match (module, kind) {
        (Module::External, _) => true,
        (Module::Normal(_), ExportsKind::CommonJs) => true,
        (Module::Normal(_), ExportsKind::None | ExportsKind::Esm) => false,
    }
}

fn has_star<S: ModuleSource>(source: &S, m: usize) -> bool
    ensures { (result ≡ true) ↔ HasStar (S.meaning source.now) m }
{
    let Module::Normal(_) = source.module(m) else {
        return false;
    };
    // A loop: the proof of `any` over numbers did not close.
    for k in 0..source.record_count(m) {
        if source.record(m, k).star {
            return true;
        }
    }
    false
}

// Yes at each module that a star's names may end in.
fn open_ends<S: ModuleSource>(source: &S, rows: &[MarkRow], facts: &mut [YesNo])
    requires rows { count_of (S.meaning source.now) ≤ length rows.now }
    requires facts { count_of (S.meaning source.now) ≤ length facts.old }
    ensures { Filled (count_of (S.meaning source.now)) (OpenAt (S.meaning source.now) rows.now) facts.new }
{
    write_front(
        facts,
        source.module_count(),
        |m, _| YesNo(is_open_end(source.module(m), Mark::read(rows[m]).kind())),
    );
}

// The row written whole, dynamic where it was or where stars come to an open end.
fn dynamic_row<S: ModuleSource>(
    source: &S,
    facts: &[YesNo],
    starred: &[YesNo],
    m: usize,
    row: MarkRow,
) -> MarkRow
    requires facts { m < length facts.now }
    requires starred { m < length starred.now }
    ensures { StarredRow (S.meaning source.now) facts.now starred.now m row result }
{
    let dynamic = facts[m].0 & (starred[m].0 | has_star(source, m));
    Mark::read(row).with_dynamic(row.dynamic | dynamic).row()
}

// As the wrap pass writes its rows: what is shared is `write_front`.
fn write_dynamic<S: ModuleSource>(
    source: &S,
    rows: &mut [MarkRow],
    facts: &[YesNo],
    starred: &[YesNo],
)
    requires rows { count_of (S.meaning source.now) ≤ length rows.old }
    requires facts { count_of (S.meaning source.now) ≤ length facts.now }
    requires starred { count_of (S.meaning source.now) ≤ length starred.now }
    ensures { Written (count_of (S.meaning source.now)) (StarredRow (S.meaning source.now) facts.now starred.now) rows.old rows.new }
{
    write_front(
        rows,
        source.module_count(),
        |m, row| dynamic_row(source, facts, starred, m, row),
    );
}

// The pass, over a source whose type says that its records can be followed.
fn mark_dynamic<S: Linkable>(
    source: &S,
    rows: &mut [MarkRow],
    facts: &mut [YesNo],
    starred: &mut [YesNo],
    arrows: &mut [Arrow],
)
    requires rows { count_of (S.meaning source.now) ≤ length rows.old }
    requires facts { count_of (S.meaning source.now) ≤ length facts.old }
    requires starred { count_of (S.meaning source.now) ≤ length starred.old }
    requires room { record_total (S.meaning source.now) ≤ length arrows.old }
    ensures { (o : LinkOptions) → StarDid (S.meaning source.now) o rows.old rows.new }
{
    open_ends(source, rows, facts);
    spread_linkable(source, Way::Stars, facts, arrows);
    clear(source, starred);
    point_at(source, Pick::Stars, facts, starred);
    write_dynamic(source, rows, facts, starred);
}

/// Dynamic becomes yes for the modules with a star record, or the target of one, from which star records lead to an
/// external or CommonJS module, itself included. Circles count.
pub fn determine_dynamic_exports<S: ModuleSource>(
    source: &S,
    rows: &mut [MarkRow],
    facts: &mut [YesNo],
    starred: &mut [YesNo],
    arrows: &mut [Arrow],
)
    requires small { count_of (S.meaning source.now) ≤ 4096 }
    requires rows { count_of (S.meaning source.now) ≤ length rows.old }
    requires facts { count_of (S.meaning source.now) ≤ length facts.old }
    requires starred { count_of (S.meaning source.now) ≤ length starred.old }
    requires room { record_total (S.meaning source.now) ≤ length arrows.old }
    requires targets { Targets (S.meaning source.now) }
    ensures { (o : LinkOptions) → StarDid (S.meaning source.now) o rows.old rows.new }
{
    mark_dynamic(&Checked::new(source), rows, facts, starred, arrows);
}
