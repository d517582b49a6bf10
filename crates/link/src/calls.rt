// The calls of a link. Each makes its checks first, and a refused one leaves link, marks and lists as they were.
ghost use Rattle.std.specs.Prelude.{◌≡◌, min, length, Some, None, Ok, Err, MatchResult};
ghost use Rattle.faults.specs.declared.Refusal.TheVariants.{NotAtThisStage};
ghost use Rattle.marks.specs.Passes.{BeginDid, KindsDid, StarDid, WrapDid, AwaitDid, EntriesDid, FinishDid};
ghost use Rattle.lawful.specs.Lawful.{link_fault, source_verdict};
ghost use Rattle.link.specs.declared.stage.Call.TheVariants.{Begin, Kinds, Star, Wrap, Await, Entries, Finish};
ghost use Rattle.link.specs.declared.stage.Stage.TheVariants.{Fresh};
ghost use Rattle.link.specs.Stages.{after};
ghost use Rattle.link.specs.Calls.{call_verdict, entries_verdict, finish_answer, wrappers_of, stage_left, options_left, Leaves, ListLeaves, AwaitAnswer, AwaitLeaves};

use crate::stage::{Call, Stage, stage_after};
use dynamic_exports::determine_dynamic_exports;
use entries::{count_entries, determine_entries};
use exports_kind::determine_exports_kinds;
use faults::{Fault, Layer, Refusal};
use lawful::{Lent, check_source};
use marks::{AwaitRow, LinkOptions, MarkRow, OutputFormat, WrapperRow};
use source::ModuleSource;
use spread::{Arrow, EntrySet, YesNo};
use tla::{count_await_rows, find_awaiting, mark_awaiting, write_await_rows_once};
use wrappers::{begin_rows, count_wrappers, finish_rows, write_wrappers};
use wrapping::wrap_modules;

/// A link: the options that it was begun with, and its stage.
#[derive(Clone, Copy)]
pub struct Link {
    options: LinkOptions,
    stage: Stage,
}

fn refused(refusal: Refusal) -> Fault
    ensures { result ≡ link_fault refusal 0 0 }
{
    refusal.found_by(Layer::Link, 0, 0)
}

// The stage after the call, or refusal 1.
fn next_stage(stage: Stage, call: Call) -> Result<Stage, Fault>
    ensures { MatchResult result (λ next. after stage call ≡ Some next) (λ f. (after stage call ≡ None) × (f ≡ link_fault NotAtThisStage 0 0)) }
{
    stage_after(stage, call).ok_or(refused(Refusal::NotAtThisStage))
}

impl Link {
    /// A link that is not begun.
    pub fn new() -> Link
        ensures { result.stage ≡ Fresh }
    {
        Link {
            options: LinkOptions {
                format: OutputFormat::Esm,
                splitting_off: false,
                strict_order: false,
                manual_groups: false,
                profiler_names: false,
            },
            stage: Stage::Fresh,
        }
    }

    // The stage after the call, where the stage, the source and the slices let it happen, or the first fault.
    fn admit<S: ModuleSource>(
        &self,
        call: Call,
        source: &S,
        marks: usize,
        work: Option<(usize, usize)>,
    ) -> Result<Stage, Fault>
        ensures { MatchResult result (λ next. (after self.now.stage call ≡ Some next) × (source_verdict self.now.options (S.meaning source.now) (record { marks = marks; work = work }) ≡ Ok tt)) (λ f. call_verdict call self.now.stage self.now.options (S.meaning source.now) (record { marks = marks; work = work }) (Ok tt) ≡ Err f) }
    {
        let next = next_stage(self.stage, call)?;
        check_source(source, self.options, Lent { marks, work })?;
        Ok(next)
    }

    /// Keeps the options, writes the scanned kinds and clears the rest of every mark.
    pub fn begin<S: ModuleSource>(
        &mut self,
        source: &S,
        options: LinkOptions,
        marks: &mut [MarkRow],
    ) -> Result<(), Fault>
        ensures answer { result ≡ call_verdict Begin self.old.stage options (S.meaning source.now) (record { marks = length marks.old; work = None }) (Ok tt) }
        ensures stage { self.new.stage ≡ stage_left Begin self.old.stage result }
        ensures options { self.new.options ≡ options_left result options self.old.options }
        ensures marks { Leaves (BeginDid (S.meaning source.now)) result marks.old marks.new }
    {
        let begun = Link { options, ..*self };
        let stage = begun.admit(Call::Begin, source, marks.len(), None)?;
        begin_rows(source, marks);
        self.options = options;
        self.stage = stage;
        Ok(())
    }

    /// Settles the kinds: what the first counting record to each module makes of it.
    pub fn kinds<S: ModuleSource>(&mut self, source: &S, marks: &mut [MarkRow]) -> Result<(), Fault>
        ensures answer { result ≡ call_verdict Kinds self.old.stage self.old.options (S.meaning source.now) (record { marks = length marks.old; work = None }) (Ok tt) }
        ensures stage { self.new.stage ≡ stage_left Kinds self.old.stage result }
        ensures options { self.new.options ≡ self.old.options }
        ensures marks { Leaves (KindsDid (S.meaning source.now) self.old.options) result marks.old marks.new }
    {
        let stage = self.admit(Call::Kinds, source, marks.len(), None)?;
        determine_exports_kinds(source, self.options, marks);
        self.stage = stage;
        Ok(())
    }

    /// Marks the modules whose names are known only when they have run.
    pub fn star<S: ModuleSource>(
        &mut self,
        source: &S,
        marks: &mut [MarkRow],
        facts: &mut [YesNo],
        starred: &mut [YesNo],
        arrows: &mut [Arrow],
    ) -> Result<(), Fault>
        ensures answer { result ≡ call_verdict Star self.old.stage self.old.options (S.meaning source.now) (record { marks = length marks.old; work = Some (length arrows.old, min (length facts.old) (length starred.old)) }) (Ok tt) }
        ensures stage { self.new.stage ≡ stage_left Star self.old.stage result }
        ensures options { self.new.options ≡ self.old.options }
        ensures marks { Leaves (StarDid (S.meaning source.now) self.old.options) result marks.old marks.new }
    {
        let work = Some((arrows.len(), facts.len().min(starred.len())));
        let stage = self.admit(Call::Star, source, marks.len(), work)?;
        determine_dynamic_exports(source, marks, facts, starred, arrows);
        self.stage = stage;
        Ok(())
    }

    // As `star`, but for its pass: a function with the pass as a parameter would have both contracts to say.
    /// Wraps what wrapped modules pull along, and marks what is required.
    pub fn wrap<S: ModuleSource>(
        &mut self,
        source: &S,
        marks: &mut [MarkRow],
        facts: &mut [YesNo],
        flags: &mut [YesNo],
        arrows: &mut [Arrow],
    ) -> Result<(), Fault>
        ensures answer { result ≡ call_verdict Wrap self.old.stage self.old.options (S.meaning source.now) (record { marks = length marks.old; work = Some (length arrows.old, min (length facts.old) (length flags.old)) }) (Ok tt) }
        ensures stage { self.new.stage ≡ stage_left Wrap self.old.stage result }
        ensures options { self.new.options ≡ self.old.options }
        ensures marks { Leaves (WrapDid (S.meaning source.now) self.old.options) result marks.old marks.new }
    {
        let work = Some((arrows.len(), facts.len().min(flags.len())));
        let stage = self.admit(Call::Wrap, source, marks.len(), work)?;
        wrap_modules(source, marks, facts, flags, arrows);
        self.stage = stage;
        Ok(())
    }

    /// Marks the modules that wait for a top-level `await`, and writes one row for each `require` of such a module.
    // Slices stand apart, as in every call here: a struct for this one alone would have to be put together for it.
    pub fn awaits<S: ModuleSource>(
        &mut self,
        source: &S,
        marks: &mut [MarkRow],
        facts: &mut [YesNo],
        entered: &mut [YesNo],
        ends: &mut [usize],
        found: &mut [Option<usize>],
        arrows: &mut [Arrow],
        list: &mut [AwaitRow],
    ) -> Result<usize, Fault>
        ensures answer { AwaitAnswer (call_verdict Await self.old.stage self.old.options (S.meaning source.now) (record { marks = length marks.old; work = Some (length arrows.old, min (min (length facts.old) (length entered.old)) (min (length ends.old) (length found.old))) }) (Ok tt)) (S.meaning source.now) (length list.old) result }
        ensures stage { self.new.stage ≡ stage_left Await self.old.stage result }
        ensures options { self.new.options ≡ self.old.options }
        ensures marks { Leaves (AwaitDid (S.meaning source.now) self.old.options) result marks.old marks.new }
        ensures list { AwaitLeaves (S.meaning source.now) result list.old list.new }
    {
        let shortest = facts
            .len()
            .min(entered.len())
            .min(ends.len().min(found.len()));
        let work = Some((arrows.len(), shortest));
        let stage = self.admit(Call::Await, source, marks.len(), work)?;
        find_awaiting(source, facts, arrows);
        if list.len() < count_await_rows(source, facts) {
            return Err(refused(Refusal::ResultsTooShort));
        }
        mark_awaiting(source, marks, facts);
        let count = write_await_rows_once(source, facts, ends, arrows, entered, found, list);
        self.stage = stage;
        Ok(count)
    }

    /// Gives each module the set of entries that lead to it.
    pub fn entries<S: ModuleSource>(
        &mut self,
        source: &S,
        marks: &mut [MarkRow],
        facts: &mut [EntrySet],
        arrows: &mut [Arrow],
    ) -> Result<(), Fault>
        ensures answer { result ≡ call_verdict Entries self.old.stage self.old.options (S.meaning source.now) (record { marks = length marks.old; work = Some (length arrows.old, length facts.old) }) (entries_verdict (S.meaning source.now)) }
        ensures stage { self.new.stage ≡ stage_left Entries self.old.stage result }
        ensures options { self.new.options ≡ self.old.options }
        ensures marks { Leaves (EntriesDid (S.meaning source.now) self.old.options) result marks.old marks.new }
    {
        let work = Some((arrows.len(), facts.len()));
        let stage = self.admit(Call::Entries, source, marks.len(), work)?;
        if count_entries(source) > 64 {
            return Err(refused(Refusal::TooManyEntries));
        }
        determine_entries(source, marks, facts, arrows);
        self.stage = stage;
        Ok(())
    }

    /// Closes the link: wraps what strict order with manual groups asks for, and writes one row for each wrapper.
    #[tactic(auto, using(crate::proofs::Accepts::refused_anyway))]
    pub fn finish<S: ModuleSource>(
        &mut self,
        source: &S,
        marks: &mut [MarkRow],
        list: &mut [WrapperRow],
    ) -> Result<usize, Fault>
        ensures answer { result ≡ finish_answer self.old.stage self.old.options (S.meaning source.now) marks.old (length list.old) }
        ensures stage { self.new.stage ≡ stage_left Finish self.old.stage result }
        ensures options { self.new.options ≡ self.old.options }
        ensures marks { Leaves (FinishDid (S.meaning source.now) self.old.options) result marks.old marks.new }
        ensures list { ListLeaves (wrappers_of self.old.options (S.meaning source.now) marks.old) result list.old list.new }
    {
        let stage = self.admit(Call::Finish, source, marks.len(), None)?;
        if list.len() < count_wrappers(source, self.options, marks) {
            return Err(refused(Refusal::ResultsTooShort));
        }
        let count = write_wrappers(source, self.options, marks, list);
        finish_rows(source, self.options, marks);
        self.stage = stage;
        Ok(count)
    }
}
