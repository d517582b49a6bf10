// Flags at the targets of records.
ghost use Rattle.std.specs.Prelude.{◌≡◌, ℕ, ◌<◌, ◌≤◌, false, length};
ghost use Rattle.source.specs.Meaning.{count_of, record_at};
ghost use Rattle.ways.specs.Ways.{Targets};
ghost use Rattle.ways.specs.Targets.{flag, picked, PointedAt, Cleared};

use source::{ImportKind, Module, ModuleSource};
use spread::YesNo;

/// Which records raise the flag at their target.
// Cases and no closures, as for `Way`.
#[derive(Clone, Copy)]
pub enum Pick {
    /// Every resolved record.
    Every,
    /// Star records.
    Stars,
    /// `Require` records to a normal module, and to an external one from an importer with a yes, the runtime aside.
    Required,
}

// Whether record k of module m, of this kind and to this target, raises the flag there.
// Seven parameters: what the scan has looked up already is handed on.
fn picks<S: ModuleSource>(
    source: &S,
    pick: Pick,
    from: &[YesNo],
    m: usize,
    k: usize,
    kind: ImportKind,
    t: usize,
) -> bool
    requires kind { kind ≡ (record_at (S.meaning source.now) m k).kind }
    requires from { m < length from.now }
    ensures { result ≡ picked pick (S.meaning source.now) (flag from.now) m (record_at (S.meaning source.now) m k) t }
{
    match pick {
        Pick::Every => true,
        Pick::Stars => source.record(m, k).star,
        Pick::Required => (kind == ImportKind::Require)
            & (matches!(source.module(t), Module::Normal(_))
                | ((m != source.runtime() as usize) & from[m].0)),
    }
}

/// Every flag of a module is no.
pub fn clear<S: ModuleSource>(source: &S, flags: &mut [YesNo])
    requires { count_of (S.meaning source.now) ≤ length flags.old }
    ensures { Cleared (count_of (S.meaning source.now)) flags.old flags.new }
{
    flags[..source.module_count()].fill(YesNo(false));
}

/// Raises the flag at the target of every record that is picked.
pub fn point_at<S: ModuleSource>(source: &S, pick: Pick, from: &[YesNo], flags: &mut [YesNo])
    requires from { count_of (S.meaning source.now) ≤ length from.now }
    requires flags { count_of (S.meaning source.now) ≤ length flags.old }
    requires targets { Targets (S.meaning source.now) }
    ensures { PointedAt pick (S.meaning source.now) (flag from.now) flags.old flags.new }
{
    // A source answers by number, and flags are written at its targets, in no order of their own.
    for m in 0..source.module_count() {
        let Module::Normal(_) = source.module(m) else {
            continue;
        };
        for k in 0..source.record_count(m) {
            let (kind, target) = source.look(m, k);
            let Some(t) = target else {
                continue;
            };
            let t = t as usize;
            if picks(source, pick, from, m, k, kind, t) {
                flags[t] = YesNo(true);
            }
        }
    }
}
