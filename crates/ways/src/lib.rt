// Facts that spread along the records of a source: which records lead on, for each question, and in which direction.
#![tactic(auto)]

ghost use Rattle.std.specs.Prelude.{◌≡◌, ◌≤◌, length};
ghost use Rattle.source.specs.Meaning.{count_of, record_at, record_total};
ghost use Rattle.ways.specs.Ways.{Targets, followed, drawn, Copied, Carried};

mod linkable;
mod targets;

pub use linkable::{Checked, Linkable};
use source::{ImportKind, Module, ModuleSource};
use spread::{Arrow, Fact, spread};
pub use targets::{Pick, clear, point_at};

/// What is asked of the records: which of them lead on, and whether facts go with them or against them.
// Cases and no closures: promises say which records lead on by the case.
#[derive(Clone, Copy)]
pub enum Way {
    /// Against star records: what a module's stars come to.
    Stars,
    /// With every record of all but the runtime: what a wrapped module pulls along.
    Wrappers,
    /// Against imports: what a module waits for.
    Awaits,
    /// With imports and requires: what an entry brings.
    Entries,
}

// Whether record k of module m, of this kind, leads on.
fn follows<S: ModuleSource>(source: &S, way: Way, m: usize, k: usize, kind: ImportKind) -> bool
    requires { kind ≡ (record_at (S.meaning source.now) m k).kind }
    ensures { result ≡ followed way (S.meaning source.now) m (record_at (S.meaning source.now) m k) }
{
    match way {
        Way::Stars => source.record(m, k).star,
        Way::Wrappers => m != source.runtime() as usize,
        Way::Awaits => kind == ImportKind::Import,
        Way::Entries => matches!(kind, ImportKind::Import | ImportKind::Require),
    }
}

// The arrow of a record of module m to module t.
fn draw(way: Way, m: u32, t: u32) -> Arrow
    ensures { result ≡ drawn way m t }
{
    match way {
        Way::Stars | Way::Awaits => Arrow { from: t, to: m },
        Way::Wrappers | Way::Entries => Arrow { from: m, to: t },
    }
}

// Every record that leads on, as an arrow; the answer is how many there are.
fn copy_arrows<S: Linkable>(source: &S, way: Way, arrows: &mut [Arrow]) -> usize
    requires { record_total (S.meaning source.now) ≤ length arrows.old }
    ensures { Copied way (S.meaning source.now) arrows.new result }
{
    let mut n: usize = 0;
    // A source answers by number: this scan of its records is written out wherever it fills something, since of what a
    // closure or an iterator's consumer changes no proof is left.
    for m in 0..source.module_count() {
        let Module::Normal(_) = source.module(m) else {
            continue;
        };
        for k in 0..source.record_count(m) {
            let (kind, target) = source.look(m, k);
            let Some(t) = target else {
                continue;
            };
            if follows(source, way, m, k, kind) {
                // The arrows are lent memory, so that their count stands beside them.
                arrows[n] = draw(way, m as u32, t);
                n += 1;
            }
        }
    }
    n
}

/// Brings each fact to wherever the records lead from its module.
pub fn spread_along<S: ModuleSource, F: Fact>(
    source: &S,
    way: Way,
    facts: &mut [F],
    arrows: &mut [Arrow],
)
    requires small { count_of (S.meaning source.now) ≤ 4096 }
    requires facts { count_of (S.meaning source.now) ≤ length facts.old }
    requires room { record_total (S.meaning source.now) ≤ length arrows.old }
    requires targets { Targets (S.meaning source.now) }
    ensures { Carried F.zero F.join way (S.meaning source.now) facts.old facts.new }
{
    spread_linkable(&Checked::new(source), way, facts, arrows);
}

/// The same of a source whose type says that its records can be followed.
pub fn spread_linkable<S: Linkable, F: Fact>(
    source: &S,
    way: Way,
    facts: &mut [F],
    arrows: &mut [Arrow],
)
    requires facts { count_of (S.meaning source.now) ≤ length facts.old }
    requires room { record_total (S.meaning source.now) ≤ length arrows.old }
    ensures { Carried F.zero F.join way (S.meaning source.now) facts.old facts.new }
{
    let n = copy_arrows(source, way, arrows);
    let _ = spread(facts, &arrows[0..n]);
}
