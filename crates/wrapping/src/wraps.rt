// A module that may run late, as at its first `require('./bar.js')`, stands in a wrapper, and so does whatever it pulls
// along: `var require_bar = __commonJS((exports, module) => { .. });`, `var init_bar = __esm(() => { .. });`
ghost use Rattle.std.specs.Prelude.{◌≡◌, ◌<◌, ◌≤◌, true, ◌↔◌, length};
ghost use Rattle.source.specs.Meaning.{count_of, record_total};
ghost use Rattle.marks.specs.declared.options.LinkOptions.{LinkOptions};
ghost use Rattle.marks.specs.Passes.{WrapDid};
ghost use Rattle.marks.specs.Rows.{Written};
ghost use Rattle.ways.specs.Targets.{Filled};
ghost use Rattle.ways.specs.Ways.{Targets};
ghost use Rattle.wrapping.specs.Wraps.{MayWrap, Starts, WrappedRow};

use marks::{Mark, MarkRow, write_front};
use source::{ExportsKind, Module, ModuleSource};
use spread::{Arrow, YesNo};
use ways::{Checked, Linkable, Pick, Way, clear, point_at, spread_linkable};

// A normal module but the runtime.
fn may_wrap<S: ModuleSource>(source: &S, m: usize) -> bool
    ensures { (result ≡ true) ↔ MayWrap (S.meaning source.now) m }
{
    matches!(source.module(m), Module::Normal(_)) && m != source.runtime() as usize
}

// A CommonJS module that some record points to, or one that is wrapped already.
fn starts<S: ModuleSource>(source: &S, rows: &[MarkRow], pointed: &[YesNo], m: usize) -> bool
    requires rows { m < length rows.now }
    requires pointed { m < length pointed.now }
    ensures { (result ≡ true) ↔ Starts (S.meaning source.now) rows.now pointed.now m }
{
    let mark = Mark::read(rows[m]);
    let common = mark.kind() == ExportsKind::CommonJs;
    may_wrap(source, m) & ((pointed[m].0 & common) | mark.is_wrapped())
}

// Yes at each module from which wrapping starts.
fn wrap_starts<S: ModuleSource>(
    source: &S,
    rows: &[MarkRow],
    pointed: &[YesNo],
    facts: &mut [YesNo],
)
    requires rows { count_of (S.meaning source.now) ≤ length rows.now }
    requires pointed { count_of (S.meaning source.now) ≤ length pointed.now }
    requires facts { count_of (S.meaning source.now) ≤ length facts.old }
    ensures { Filled (count_of (S.meaning source.now)) (Starts (S.meaning source.now) rows.now pointed.now) facts.new }
{
    write_front(
        facts,
        source.module_count(),
        |m, _| YesNo(starts(source, rows, pointed, m)),
    );
}

// The row written whole: wrapped by its kind where it was or is reached, required where it was or is pointed to.
fn wrapped_row<S: ModuleSource>(
    source: &S,
    facts: &[YesNo],
    required: &[YesNo],
    m: usize,
    row: MarkRow,
) -> MarkRow
    requires facts { m < length facts.now }
    requires required { m < length required.now }
    ensures { WrappedRow (S.meaning source.now) facts.now required.now m row result }
{
    let mark = Mark::read(row);
    let reached = may_wrap(source, m) & facts[m].0;
    let marked = mark.marked(mark.kind(), mark.is_wrapped() | reached);
    marked.with_required(mark.required() | required[m].0).row()
}

fn write_wraps<S: ModuleSource>(
    source: &S,
    rows: &mut [MarkRow],
    facts: &[YesNo],
    required: &[YesNo],
)
    requires rows { count_of (S.meaning source.now) ≤ length rows.old }
    requires facts { count_of (S.meaning source.now) ≤ length facts.now }
    requires required { count_of (S.meaning source.now) ≤ length required.now }
    ensures { Written (count_of (S.meaning source.now)) (WrappedRow (S.meaning source.now) facts.now required.now) rows.old rows.new }
{
    write_front(
        rows,
        source.module_count(),
        |m, row| wrapped_row(source, facts, required, m, row),
    );
}

// The pass, over a source whose type says that its records can be followed.
fn mark_wraps<S: Linkable>(
    source: &S,
    rows: &mut [MarkRow],
    facts: &mut [YesNo],
    flags: &mut [YesNo],
    arrows: &mut [Arrow],
)
    requires rows { count_of (S.meaning source.now) ≤ length rows.old }
    requires facts { count_of (S.meaning source.now) ≤ length facts.old }
    requires flags { count_of (S.meaning source.now) ≤ length flags.old }
    requires room { record_total (S.meaning source.now) ≤ length arrows.old }
    ensures { (o : LinkOptions) → WrapDid (S.meaning source.now) o rows.old rows.new }
{
    clear(source, flags);
    point_at(source, Pick::Every, facts, flags);
    wrap_starts(source, rows, flags, facts);
    spread_linkable(source, Way::Wrappers, facts, arrows);
    clear(source, flags);
    point_at(source, Pick::Required, facts, flags);
    write_wraps(source, rows, facts, flags);
}

/// From normal CommonJS targets of normal modules' records, and normal modules already wrapped, the runtime aside,
/// records lead on; the normal modules but the runtime so reached are wrapped by their kind. Required becomes yes for a
/// normal target of a `Require`, and for an external one of a reached importer's.
pub fn wrap_modules<S: ModuleSource>(
    source: &S,
    rows: &mut [MarkRow],
    facts: &mut [YesNo],
    flags: &mut [YesNo],
    arrows: &mut [Arrow],
)
    requires small { count_of (S.meaning source.now) ≤ 4096 }
    requires rows { count_of (S.meaning source.now) ≤ length rows.old }
    requires facts { count_of (S.meaning source.now) ≤ length facts.old }
    requires flags { count_of (S.meaning source.now) ≤ length flags.old }
    requires room { record_total (S.meaning source.now) ≤ length arrows.old }
    requires targets { Targets (S.meaning source.now) }
    ensures { (o : LinkOptions) → WrapDid (S.meaning source.now) o rows.old rows.new }
{
    mark_wraps(&Checked::new(source), rows, facts, flags, arrows);
}
