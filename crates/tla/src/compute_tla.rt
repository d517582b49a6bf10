// `await load();` at the top level holds up whoever imports the module: an importer waits for what its imports lead to.
ghost use Rattle.std.specs.Prelude.{◌≡◌, ◌≤◌, length};
ghost use Rattle.source.specs.Meaning.{count_of, record_total};
ghost use Rattle.marks.specs.declared.options.LinkOptions.{LinkOptions};
ghost use Rattle.marks.specs.Passes.{Awaits, AwaitDid};
ghost use Rattle.ways.specs.Targets.{Filled};
ghost use Rattle.ways.specs.Ways.{Targets};
ghost use Rattle.tla.specs.Awaiting.{has_await, AwaitAt};

use marks::{Mark, MarkRow, write_front};
use source::{Module, ModuleSource};
use spread::{Arrow, YesNo};
use ways::{Checked, Linkable, Way, spread_linkable};

pub fn has_await(module: Module) -> bool
    ensures { result ≡ has_await «module» }
{
    matches!(module, Module::Normal(normal) if normal.top_level_await)
}

// Yes at each module that has an `await` of its own.
fn own_awaits<S: ModuleSource>(source: &S, facts: &mut [YesNo])
    requires { count_of (S.meaning source.now) ≤ length facts.old }
    ensures { Filled (count_of (S.meaning source.now)) (AwaitAt (S.meaning source.now)) facts.new }
{
    write_front(
        facts,
        source.module_count(),
        |m, _| YesNo(has_await(source.module(m))),
    );
}

// Yes at each module that waits, over a source whose type says that its records can be followed.
fn spread_awaits<S: Linkable>(source: &S, facts: &mut [YesNo], arrows: &mut [Arrow])
    requires facts { count_of (S.meaning source.now) ≤ length facts.old }
    requires room { record_total (S.meaning source.now) ≤ length arrows.old }
    ensures { Filled (count_of (S.meaning source.now)) (Awaits (S.meaning source.now)) facts.new }
{
    own_awaits(source, facts);
    spread_linkable(source, Way::Awaits, facts, arrows);
}

/// The facts become yes exactly at the normal modules from which imports lead to one with a top-level await, itself
/// included. Circles count.
pub fn find_awaiting<S: ModuleSource>(source: &S, facts: &mut [YesNo], arrows: &mut [Arrow])
    requires small { count_of (S.meaning source.now) ≤ 4096 }
    requires facts { count_of (S.meaning source.now) ≤ length facts.old }
    requires room { record_total (S.meaning source.now) ≤ length arrows.old }
    requires targets { Targets (S.meaning source.now) }
    ensures { Filled (count_of (S.meaning source.now)) (Awaits (S.meaning source.now)) facts.new }
{
    spread_awaits(&Checked::new(source), facts, arrows);
}

/// Writes each row whole, awaiting where it was or where the facts say so.
pub fn mark_awaiting<S: ModuleSource>(source: &S, rows: &mut [MarkRow], facts: &[YesNo])
    requires rows { count_of (S.meaning source.now) ≤ length rows.old }
    requires facts { count_of (S.meaning source.now) ≤ length facts.now }
    requires waits { Filled (count_of (S.meaning source.now)) (Awaits (S.meaning source.now)) facts.now }
    ensures { (o : LinkOptions) → AwaitDid (S.meaning source.now) o rows.old rows.new }
{
    write_front(rows, source.module_count(), |m, row| {
        Mark::read(row)
            .with_awaiting(row.awaiting | facts[m].0)
            .row()
    });
}

/// Awaiting becomes yes for the modules that wait, and the facts say which they are.
pub fn determine_awaiting<S: ModuleSource>(
    source: &S,
    rows: &mut [MarkRow],
    facts: &mut [YesNo],
    arrows: &mut [Arrow],
)
    requires small { count_of (S.meaning source.now) ≤ 4096 }
    requires rows { count_of (S.meaning source.now) ≤ length rows.old }
    requires facts { count_of (S.meaning source.now) ≤ length facts.old }
    requires room { record_total (S.meaning source.now) ≤ length arrows.old }
    requires targets { Targets (S.meaning source.now) }
    ensures marks { (o : LinkOptions) → AwaitDid (S.meaning source.now) o rows.old rows.new }
    ensures facts { Filled (count_of (S.meaning source.now)) (Awaits (S.meaning source.now)) facts.new }
{
    find_awaiting(source, facts, arrows);
    mark_awaiting(source, rows, facts);
}
