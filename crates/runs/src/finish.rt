// A link is run to its end: begun, asked for calls, and finished.
ghost use Rattle.std.specs.Prelude.{◌≡◌, length, None, Ok};
ghost use Rattle.link.specs.declared.stage.Call.TheVariants.{Begin};
ghost use Rattle.link.specs.Calls.{call_verdict};
ghost use Rattle.runs.specs.Ended.{EndLeaves, EndsSettled};
ghost use Rattle.runs.specs.Made.{SameSizes, places_of};

use crate::calls::run;
use crate::work::Work;
use faults::Fault;
use link::Link;
use marks::{AwaitRow, LinkOptions, MarkRow, WrapperRow};
use settled::Asked;
use source::ModuleSource;

// Source, options, marks, lists and calls are the caller's own, each for itself; what calls work with is one struct.
/// Begins, makes the calls in their order, and finishes. Finish is accepted only once all is settled, whatever the order
/// of the calls was, and so are then the marks.
pub fn run_to_end<S: ModuleSource>(
    link: &mut Link,
    source: &S,
    options: LinkOptions,
    marks: &mut [MarkRow],
    work: &mut Work<'_>,
    list: &mut [AwaitRow],
    calls: &mut [Asked],
    wrappers: &mut [WrapperRow],
) -> Result<usize, Fault>
    ensures leaves { EndLeaves (call_verdict Begin link.old.stage options (S.meaning source.now) (record { marks = length marks.old; work = None }) (Ok tt)) result (S.meaning source.now) options (length work.old.arrows.now) (places_of work.old) calls.old calls.new (record { link = link.old; marks = marks.old; list = list.old }) (record { link = link.new; marks = marks.new; list = list.new }) wrappers.old wrappers.new }
    ensures settled { EndsSettled result (S.meaning source.now) options marks.new wrappers.new }
    ensures sizes { SameSizes work.old work.new }
{
    run(link, source, options, marks, work, list, calls)?;
    link.finish(source, marks, wrappers)
}
