// The imports of all modules as arrows, by where those of each module end.
ghost use Rattle.std.specs.Prelude.{◌≡◌, ◌<◌, ◌≤◌, map, length};
ghost use Rattle.source.specs.Meaning.{count_of, record_total};
ghost use Rattle.ways.specs.Ways.{is_import};
ghost use Rattle.tla.specs.Search.{imports_of, start_of, LaidByEnds};

use source::ImportKind;
use spread::Arrow;
use ways::Linkable;

fn is_import(kind: ImportKind) -> bool
    ensures { result ≡ is_import kind }
{
    matches!(kind, ImportKind::Import)
}

/// Every resolved import as an arrow, in scan order; those of module m end at `ends[m]`, and begin where those of the
/// module before end.
pub fn copy_imports<S: Linkable>(source: &S, ends: &mut [usize], arrows: &mut [Arrow])
    requires ends { count_of (S.meaning source.now) ≤ length ends.old }
    requires room { record_total (S.meaning source.now) ≤ length arrows.old }
    ensures { LaidByEnds (S.meaning source.now) ends.new arrows.new }
{
    let mut n: usize = 0;
    for m in 0..source.module_count() {
        for k in 0..source.record_count(m) {
            let (kind, target) = source.look(m, k);
            let Some(t) = target else {
                continue;
            };
            if is_import(kind) {
                // The arrows are lent memory, so that their count stands beside them.
                arrows[n] = Arrow {
                    from: m as u32,
                    to: t,
                };
                n += 1;
            }
        }
        // By number: places past the last module stay.
        ends[m] = n;
    }
}

/// A source with the arrows of its imports.
#[derive(Drop)]
pub struct Imports<'a, S: Linkable> {
    pub source: &'a S,
    ends: &'a [usize],
    arrows: &'a [Arrow],
    ghost laid: { LaidByEnds (S.ModuleSource.meaning source.now) ends.now arrows.now },
}

impl<'a, S: Linkable> Imports<'a, S> {
    pub fn new(source: &'a S, ends: &'a [usize], arrows: &'a [Arrow]) -> Imports<'a, S>
        requires { LaidByEnds (S.meaning source.now) ends.now arrows.now }
        ensures { result.source.now ≡ source.now }
    {
        Imports {
            source,
            ends,
            arrows,
        }
    }

    fn first(&self, m: usize) -> usize
        requires { m < count_of (S.meaning self.now.source.now) }
        ensures { result ≡ start_of self.now.ends.now m }
    {
        if m == 0 { 0 } else { self.ends[m - 1] }
    }

    /// The arrows of the imports of module m.
    pub fn of(&self, m: usize) -> &[Arrow]
        requires { m < count_of (S.meaning self.now.source.now) }
        ensures { map (λ a. a.to) result.now ≡ imports_of (S.meaning self.now.source.now) m }
    {
        &self.arrows[self.first(m)..self.ends[m]]
    }
}
