// A link is begun, and then asked for one call after another.
ghost use Rattle.std.specs.Prelude.{◌≡◌, length, None, Ok};
ghost use Rattle.link.specs.declared.stage.Call.TheVariants.{Begin};
ghost use Rattle.link.specs.Calls.{call_verdict, counted};
ghost use Rattle.runs.specs.Made.{At, SameSizes, places_of, shortest, lent_to, Made, MadeOf, RunLeaves, EveryOrder, OneRun};

use crate::work::Work;
use faults::Fault;
use link::Link;
use marks::{AwaitRow, LinkOptions, MarkRow};
use settled::{Asked, Pass};
use source::ModuleSource;
use spread::{Arrow, EntrySet, YesNo};

// The answer of a call that writes no rows.
fn uncounted(answer: Result<(), Fault>) -> Result<usize, Fault>
    ensures { result ≡ counted answer 0 }
{
    answer.map(|()| 0)
}

// Asks for one pass, which may use all that it is lent.
fn ask<S: ModuleSource>(
    link: &mut Link,
    source: &S,
    pass: Pass,
    marks: &mut [MarkRow],
    work: &mut Work<'_>,
    list: &mut [AwaitRow],
) -> Result<usize, Fault>
    requires flags { length work.old.flags.now ≡ length work.old.facts.now }
    requires sets { length work.old.sets.now ≡ length work.old.facts.now }
    requires ends { length work.old.ends.now ≡ length work.old.facts.now }
    requires found { length work.old.found.now ≡ length work.old.facts.now }
    ensures { Made (S.meaning source.now) pass (lent_to pass (length marks.old) (length work.old.arrows.now) (length work.old.facts.now)) (length list.old) result (record { link = link.old; marks = marks.old; list = list.old }) (record { link = link.new; marks = marks.new; list = list.new }) }
{
    // By cases: which calls are made is data that a caller hands over.
    match pass {
        Pass::Kinds => uncounted(link.kinds(source, marks)),
        Pass::Star => uncounted(link.star(source, marks, work.facts, work.flags, work.arrows)),
        Pass::Wrap => uncounted(link.wrap(source, marks, work.facts, work.flags, work.arrows)),
        Pass::Await => link.awaits(
            source,
            marks,
            work.facts,
            work.flags,
            work.ends,
            work.found,
            work.arrows,
            list,
        ),
        Pass::Entries => uncounted(link.entries(source, marks, work.sets, work.arrows)),
    }
}

// The shortest of the slices that have a place for each module.
fn shortest(
    facts: &[YesNo],
    flags: &[YesNo],
    sets: &[EntrySet],
    ends: &[usize],
    found: &[Option<usize>],
) -> usize
    ensures { result ≡ shortest (length facts.now) (length flags.now) (length sets.now) (length ends.now) (length found.now) }
{
    let pair = facts.len().min(flags.len());
    pair.min(sets.len().min(ends.len().min(found.len())))
}

// Makes one call, with no more of the slices than it asks for.
// The slices stand apart: a struct cut into parts of its slices, field by field, is not covered by the check.
fn make<S: ModuleSource>(
    link: &mut Link,
    source: &S,
    marks: &mut [MarkRow],
    facts: &mut [YesNo],
    flags: &mut [YesNo],
    sets: &mut [EntrySet],
    ends: &mut [usize],
    found: &mut [Option<usize>],
    arrows: &mut [Arrow],
    list: &mut [AwaitRow],
    asked: Asked,
) -> Result<usize, Fault>
    ensures { MadeOf (S.meaning source.now) (length arrows.old) (shortest (length facts.old) (length flags.old) (length sets.old) (length ends.old) (length found.old)) asked result (record { link = link.old; marks = marks.old; list = list.old }) (record { link = link.new; marks = marks.new; list = list.new }) }
{
    let places = asked.places.min(shortest(facts, flags, sets, ends, found));
    let steps = asked.arrows.min(arrows.len());
    let room = asked.results.min(list.len());
    let mut part = Work {
        facts: &mut facts[..places],
        flags: &mut flags[..places],
        sets: &mut sets[..places],
        ends: &mut ends[..places],
        found: &mut found[..places],
        arrows: &mut arrows[..steps],
    };
    ask(
        link,
        source,
        asked.pass,
        marks,
        &mut part,
        &mut list[..room],
    )
}

/// Begins, and makes the calls in their order; each call's answer is written to its row. Where begin is refused, nothing
/// is changed.
pub fn run<S: ModuleSource>(
    link: &mut Link,
    source: &S,
    options: LinkOptions,
    marks: &mut [MarkRow],
    work: &mut Work<'_>,
    list: &mut [AwaitRow],
    calls: &mut [Asked],
) -> Result<(), Fault>
    ensures answer { result ≡ call_verdict Begin link.old.stage options (S.meaning source.now) (record { marks = length marks.old; work = None }) (Ok tt) }
    ensures calls { RunLeaves result (S.meaning source.now) options (length work.old.arrows.now) (places_of work.old) calls.old calls.new (record { link = link.old; marks = marks.old; list = list.old }) (record { link = link.new; marks = marks.new; list = list.new }) }
    ensures settles { EveryOrder result (S.meaning source.now) options calls.new marks.new }
    ensures sizes { SameSizes work.old work.new }
{
    link.begin(source, options, marks)?;
    for call in calls.iter_mut() {
        let answer = make(
            link,
            source,
            marks,
            work.facts,
            work.flags,
            work.sets,
            work.ends,
            work.found,
            work.arrows,
            list,
            *call,
        );
        call.answer = Some(answer);
    }
    Ok(())
}

/// What `run` promises leaves it no choice.
pub fn one_run()
    ensures { OneRun }
{}
