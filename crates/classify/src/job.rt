// Begin, kinds, star, wrap, entries, await and finish, one after another.
ghost use Rattle.std.specs.Prelude.{IfOk};
ghost use Rattle.classify.specs.Jobs.{Settles, Small};

use marks::{AwaitRow, LinkOptions, MarkRow, WrapperRow};
use run_list::{ListError, run_job};
use source::ModuleSource;
use std::alloc::Global;

/// What a link comes to: a mark for each module, a row for each `require` of a module that awaits, a row for each wrapper.
#[derive(Drop)]
pub struct Classified {
    pub marks: Vec<MarkRow>,
    pub awaits: Vec<AwaitRow>,
    pub wrappers: Vec<WrapperRow>,
}

/// Every mark and row that the link settles, or why there is none.
pub fn classify<S: ModuleSource>(
    heap: Global,
    source: &S,
    options: LinkOptions,
) -> Result<Classified, ListError>
    ensures small { IfOk result Small }
    ensures settled { IfOk result (Settles (S.meaning source.now) options) }
{
    let done = run_job(heap, source, options)?;
    done.finish?;
    Ok(Classified {
        marks: done.marks,
        awaits: done.awaits,
        wrappers: done.wrappers,
    })
}
