// Each entry of the script, as `node bar3.js`, brings the modules that it imports or requires, and those that they do.
ghost use Rattle.std.specs.Prelude.{◌≡◌, ◌≤◌, length};
ghost use Rattle.source.specs.Meaning.{count_of, module_at, record_total};
ghost use Rattle.marks.specs.declared.options.LinkOptions.{LinkOptions};
ghost use Rattle.marks.specs.Passes.{EntriesDid, is_entry, rank};
ghost use Rattle.marks.specs.Rows.{Written};
ghost use Rattle.ways.specs.Ways.{Targets};
ghost use Rattle.entries.specs.Starts.{Ranked, EnteredRow};

use marks::{Mark, MarkRow, write_front};
use source::{Module, ModuleSource};
use spread::{Arrow, EntrySet, Fact};
use ways::{Checked, Linkable, Way, spread_linkable};

fn is_entry<S: ModuleSource>(source: &S, m: usize) -> bool
    ensures { result ≡ is_entry (module_at (S.meaning source.now) m) }
{
    matches!(source.module(m), Module::Normal(normal) if normal.entry)
}

/// How many entry modules there are.
pub fn count_entries<S: ModuleSource>(source: &S) -> usize
    ensures { result ≡ rank (S.meaning source.now) (count_of (S.meaning source.now)) }
{
    let mut n: usize = 0;
    // Counted by hand: the proof of `filter(..).count()` over numbers did not close.
    for m in 0..source.module_count() {
        if is_entry(source, m) {
            n += 1;
        }
    }
    n
}

// Each entry module starts with its own rank, in module order; every other module with none.
fn entry_starts<S: ModuleSource>(source: &S, facts: &mut [EntrySet])
    requires small { count_of (S.meaning source.now) ≤ 4096 }
    requires facts { count_of (S.meaning source.now) ≤ length facts.old }
    ensures { Ranked (count_of (S.meaning source.now)) (S.meaning source.now) facts.new }
{
    // The next rank depends on the modules before, so that no rule of one place makes the set.
    let mut next: u32 = 0;
    for m in 0..source.module_count() {
        if is_entry(source, m) {
            facts[m] = EntrySet::single(next);
            next += 1;
        } else {
            facts[m] = EntrySet::none();
        }
    }
}

fn write_entries<S: ModuleSource>(source: &S, rows: &mut [MarkRow], facts: &[EntrySet])
    requires rows { count_of (S.meaning source.now) ≤ length rows.old }
    requires facts { count_of (S.meaning source.now) ≤ length facts.now }
    ensures { Written (count_of (S.meaning source.now)) (EnteredRow facts.now) rows.old rows.new }
{
    write_front(
        rows,
        source.module_count(),
        |m, row| Mark::read(row).with_entries(facts[m].0).row(),
    );
}

// The pass, over a source whose type says that its records can be followed.
fn mark_entries<S: Linkable>(
    source: &S,
    rows: &mut [MarkRow],
    facts: &mut [EntrySet],
    arrows: &mut [Arrow],
)
    requires few { rank (S.meaning source.now) (count_of (S.meaning source.now)) ≤ 64 }
    requires rows { count_of (S.meaning source.now) ≤ length rows.old }
    requires facts { count_of (S.meaning source.now) ≤ length facts.old }
    requires room { record_total (S.meaning source.now) ≤ length arrows.old }
    ensures { (o : LinkOptions) → EntriesDid (S.meaning source.now) o rows.old rows.new }
{
    entry_starts(source, facts);
    spread_linkable(source, Way::Entries, facts, arrows);
    write_entries(source, rows, facts);
}

/// Each module gets the set of entries, by rank, that `Import` and `Require` records lead from, itself included.
pub fn determine_entries<S: ModuleSource>(
    source: &S,
    rows: &mut [MarkRow],
    facts: &mut [EntrySet],
    arrows: &mut [Arrow],
)
    requires small { count_of (S.meaning source.now) ≤ 4096 }
    requires few { rank (S.meaning source.now) (count_of (S.meaning source.now)) ≤ 64 }
    requires rows { count_of (S.meaning source.now) ≤ length rows.old }
    requires facts { count_of (S.meaning source.now) ≤ length facts.old }
    requires room { record_total (S.meaning source.now) ≤ length arrows.old }
    requires targets { Targets (S.meaning source.now) }
    ensures { (o : LinkOptions) → EntriesDid (S.meaning source.now) o rows.old rows.new }
{
    mark_entries(&Checked::new(source), rows, facts, arrows);
}
