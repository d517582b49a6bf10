// `require('./bar.js')` has its answer at once, so it cannot wait for an `await` that bar.js comes to. Each such record
// gives a row.
ghost use Rattle.std.specs.Prelude.{◌≡◌, ℕ, ◌<◌, ◌≤◌, ◌&&◌, length};
ghost use Rattle.source.specs.Meaning.{count_of, record_total};
ghost use Rattle.marks.specs.Passes.{Awaits};
ghost use Rattle.ways.specs.Targets.{flag, Filled, is_require};
ghost use Rattle.ways.specs.Ways.{Targets};
ghost use Rattle.tla.specs.Rows.{await_span, row_total, RowOf, RowsWritten, RowCount, AwaitRows};
ghost use Rattle.tla.specs.Once.{Known, WaitsFor};

use crate::imports::{Imports, copy_imports};
use crate::memory::{Forgetful, Memory, Remembered};
use crate::search::tla_source;
use marks::AwaitRow;
use source::{ImportKind, Module, ModuleSource, Span};
use spread::{Arrow, YesNo};
use ways::{Checked, Linkable};

// A record of this kind to module t is a `require` of a module that waits.
fn gives_row(facts: &[YesNo], kind: ImportKind, t: usize) -> bool
    requires { t < length facts.now }
    ensures { result ≡ (is_require kind && flag facts.now t) }
{
    (kind == ImportKind::Require) & facts[t].0
}

fn await_span(module: Module) -> Span
    ensures { result ≡ await_span «module» }
{
    match module {
        Module::External => Span { start: 0, end: 0 },
        Module::Normal(normal) => normal.await_span,
    }
}

/// How many rows there are, where the facts say which modules wait. An external module has no records, so every module
/// is looked at.
pub fn count_await_rows<S: ModuleSource>(source: &S, facts: &[YesNo]) -> usize
    requires records { record_total (S.meaning source.now) ≤ 32768 }
    requires facts { count_of (S.meaning source.now) ≤ length facts.now }
    requires waits { Filled (count_of (S.meaning source.now)) (Awaits (S.meaning source.now)) facts.now }
    requires targets { Targets (S.meaning source.now) }
    ensures count { result ≡ row_total (S.meaning source.now) (flag facts.now) }
    ensures only { (other : ℕ) → RowCount (S.meaning source.now) other → other ≡ result }
{
    let mut n: usize = 0;
    // Counted by hand: even over the numbers of modules the proof of `filter(..).count()` did not close.
    for m in 0..source.module_count() {
        for k in 0..source.record_count(m) {
            let (kind, target) = source.look(m, k);
            let Some(t) = target else {
                continue;
            };
            if gives_row(facts, kind, t as usize) {
                n += 1;
            }
        }
    }
    n
}

// The module whose `await` module t waits for: the one that is remembered, or else the one that a search finds.
fn known_source<S: Linkable, M: Memory>(
    imports: &Imports<'_, S>,
    entered: &mut [YesNo],
    memory: &mut M,
    t: usize,
) -> usize
    requires entered { count_of (S.meaning imports.now.source.now) ≤ length entered.old }
    requires known { Known (S.meaning imports.now.source.now) (M.known memory.old) }
    requires target { t < count_of (S.meaning imports.now.source.now) }
    requires waits { Awaits (S.meaning imports.now.source.now) t }
    ensures source { WaitsFor (S.meaning imports.now.source.now) t result }
    ensures known { Known (S.meaning imports.now.source.now) (M.known memory.new) }
{
    if let Some(s) = memory.recall(t) {
        return s;
    }
    let s = tla_source(imports, entered, t).unwrap();
    memory.keep(t, s);
    s
}

// The row of record k of module m, a `require` of module t that waits.
fn await_row<S: Linkable, M: Memory>(
    imports: &Imports<'_, S>,
    entered: &mut [YesNo],
    memory: &mut M,
    m: usize,
    k: usize,
    t: usize,
) -> AwaitRow
    requires entered { count_of (S.meaning imports.now.source.now) ≤ length entered.old }
    requires known { Known (S.meaning imports.now.source.now) (M.known memory.old) }
    requires importer { m < 4096 }
    requires place { k < 32768 }
    requires target { t < count_of (S.meaning imports.now.source.now) }
    requires waits { Awaits (S.meaning imports.now.source.now) t }
    ensures row { RowOf (S.meaning imports.now.source.now) m k t result }
    ensures known { Known (S.meaning imports.now.source.now) (M.known memory.new) }
{
    let found = known_source(imports, entered, memory, t);
    AwaitRow {
        importer: m as u32,
        record: k as u32,
        source: found as u32,
        span: imports.source.record(m, k).span,
        await_span: await_span(imports.source.module(found)),
    }
}

// Writes the rows in scan order, and says how many there are.
fn write_rows<S: Linkable, M: Memory>(
    imports: &Imports<'_, S>,
    facts: &[YesNo],
    entered: &mut [YesNo],
    memory: &mut M,
    list: &mut [AwaitRow],
) -> usize
    requires records { record_total (S.meaning imports.now.source.now) ≤ 32768 }
    requires facts { count_of (S.meaning imports.now.source.now) ≤ length facts.now }
    requires waits { Filled (count_of (S.meaning imports.now.source.now)) (Awaits (S.meaning imports.now.source.now)) facts.now }
    requires entered { count_of (S.meaning imports.now.source.now) ≤ length entered.old }
    requires known { Known (S.meaning imports.now.source.now) (M.known memory.old) }
    requires room { row_total (S.meaning imports.now.source.now) (flag facts.now) ≤ length list.old }
    ensures { RowsWritten (S.meaning imports.now.source.now) (flag facts.now) (count_of (S.meaning imports.now.source.now)) list.old list.new result }
{
    let source = imports.source;
    let mut n: usize = 0;
    for m in 0..source.module_count() {
        for k in 0..source.record_count(m) {
            let (kind, target) = source.look(m, k);
            let Some(t) = target else {
                continue;
            };
            let t = t as usize;
            if gives_row(facts, kind, t) {
                // The rows are lent memory, so that their count stands beside them.
                let row = await_row(imports, entered, memory, m, k, t);
                list[n] = row;
                n += 1;
            }
        }
    }
    n
}

// The rows as a memory lets them be found, over a source whose type says that its records can be followed.
// Slices stand apart, as the link is lent them.
fn search_rows<S: Linkable, M: Memory>(
    source: &S,
    facts: &[YesNo],
    ends: &mut [usize],
    arrows: &mut [Arrow],
    entered: &mut [YesNo],
    memory: &mut M,
    list: &mut [AwaitRow],
) -> usize
    requires records { record_total (S.meaning source.now) ≤ 32768 }
    requires facts { count_of (S.meaning source.now) ≤ length facts.now }
    requires waits { Filled (count_of (S.meaning source.now)) (Awaits (S.meaning source.now)) facts.now }
    requires ends { count_of (S.meaning source.now) ≤ length ends.old }
    requires arrows { record_total (S.meaning source.now) ≤ length arrows.old }
    requires entered { count_of (S.meaning source.now) ≤ length entered.old }
    requires known { Known (S.meaning source.now) (M.known memory.old) }
    requires room { row_total (S.meaning source.now) (flag facts.now) ≤ length list.old }
    ensures { AwaitRows (S.meaning source.now) list.old list.new result }
{
    copy_imports(source, ends, arrows);
    let imports = Imports::new(source, ends, arrows);
    write_rows(&imports, facts, entered, memory, list)
}

/// Writes one row for each `require` of a module that waits, in scan order, and says how many there are. The facts say
/// which modules wait; rows past the last one stay. Each `require` has a search of its own.
pub fn write_await_rows<S: ModuleSource>(
    source: &S,
    facts: &[YesNo],
    ends: &mut [usize],
    arrows: &mut [Arrow],
    entered: &mut [YesNo],
    list: &mut [AwaitRow],
) -> usize
    requires small { count_of (S.meaning source.now) ≤ 4096 }
    requires records { record_total (S.meaning source.now) ≤ 32768 }
    requires facts { count_of (S.meaning source.now) ≤ length facts.now }
    requires waits { Filled (count_of (S.meaning source.now)) (Awaits (S.meaning source.now)) facts.now }
    requires ends { count_of (S.meaning source.now) ≤ length ends.old }
    requires arrows { record_total (S.meaning source.now) ≤ length arrows.old }
    requires entered { count_of (S.meaning source.now) ≤ length entered.old }
    requires targets { Targets (S.meaning source.now) }
    requires room { row_total (S.meaning source.now) (flag facts.now) ≤ length list.old }
    ensures { AwaitRows (S.meaning source.now) list.old list.new result }
{
    search_rows(
        &Checked::new(source),
        facts,
        ends,
        arrows,
        entered,
        &mut Forgetful,
        list,
    )
}

/// The same with one search for each module that is asked for: what a search found is known from then on.
// Slices stand apart, as the link is lent them.
pub fn write_await_rows_once<S: ModuleSource>(
    source: &S,
    facts: &[YesNo],
    ends: &mut [usize],
    arrows: &mut [Arrow],
    entered: &mut [YesNo],
    found: &mut [Option<usize>],
    list: &mut [AwaitRow],
) -> usize
    requires small { count_of (S.meaning source.now) ≤ 4096 }
    requires records { record_total (S.meaning source.now) ≤ 32768 }
    requires facts { count_of (S.meaning source.now) ≤ length facts.now }
    requires waits { Filled (count_of (S.meaning source.now)) (Awaits (S.meaning source.now)) facts.now }
    requires ends { count_of (S.meaning source.now) ≤ length ends.old }
    requires arrows { record_total (S.meaning source.now) ≤ length arrows.old }
    requires entered { count_of (S.meaning source.now) ≤ length entered.old }
    requires found { count_of (S.meaning source.now) ≤ length found.old }
    requires targets { Targets (S.meaning source.now) }
    requires room { row_total (S.meaning source.now) (flag facts.now) ≤ length list.old }
    ensures { AwaitRows (S.meaning source.now) list.old list.new result }
{
    let mut memory = Remembered::new(&mut found[..source.module_count()]);
    search_rows(
        &Checked::new(source),
        facts,
        ends,
        arrows,
        entered,
        &mut memory,
        list,
    )
}
