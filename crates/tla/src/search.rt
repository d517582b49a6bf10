// The module whose `await` a module waits for: the first one found by following imports in order.
ghost use Rattle.std.specs.Prelude.{◌≡◌, ◌<◌, ◌≤◌, [], ◌∷◌, length};
ghost use Rattle.source.specs.Meaning.{count_of};
ghost use Rattle.tla.specs.Search.{Only, Searches, SourceOf, Told};

use crate::compute_tla::has_await;
use crate::imports::Imports;
use source::ModuleSource;
use spread::YesNo;
use ways::{Linkable, clear};

// Searches depth-first from module m. A module is entered once, so the search ends in circles too.
fn find_tla_source<S: Linkable>(
    imports: &Imports<'_, S>,
    entered: &mut [YesNo],
    m: usize,
) -> Option<usize>
    requires entered { count_of (S.meaning imports.now.source.now) ≤ length entered.old }
    requires place { m < count_of (S.meaning imports.now.source.now) }
    ensures { Searches (S.meaning imports.now.source.now) entered.old (m ∷ []) result entered.new }
{
    if entered[m].0 {
        return None;
    }
    entered[m] = YesNo(true);
    if has_await(imports.source.module(m)) {
        return Some(m);
    }
    for arrow in imports.of(m) {
        if let Some(found) = find_tla_source(imports, entered, arrow.to as usize) {
            return Some(found);
        }
    }
    None
}

/// The module whose `await` module m waits for, by a search that begins with no module entered. None exactly where m
/// waits for none.
pub fn tla_source<S: Linkable>(
    imports: &Imports<'_, S>,
    entered: &mut [YesNo],
    m: usize,
) -> Option<usize>
    requires entered { count_of (S.meaning imports.now.source.now) ≤ length entered.old }
    requires place { m < count_of (S.meaning imports.now.source.now) }
    ensures search { SourceOf (S.meaning imports.now.source.now) m result }
    ensures told { Told (S.meaning imports.now.source.now) m result }
    ensures only { Only (S.meaning imports.now.source.now) m result }
{
    clear(imports.source, entered);
    find_tla_source(imports, entered, m)
}
