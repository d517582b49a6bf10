// Begin, a list of calls and finish, one after another.
ghost use Rattle.std.specs.Prelude.{◌≡◌, ◌≤◌, length, None, vec_items, IfOk};
ghost use Rattle.faults.specs.Faults.{and_then};
ghost use Rattle.lawful.specs.Lawful.{source_verdict};
ghost use Rattle.link.specs.Calls.{entries_verdict};
ghost use Rattle.runs.specs.Ended.{EndsSettled};
ghost use Rattle.run_list.specs.Lists.{FewRows, RowsSettle, Settles, Small};

use crate::error::ListError;
use entries::count_entries;
use faults::{Fault, Layer, Refusal};
use lawful::{Lent, check_source};
use link::Link;
use marks::{AwaitRow, Helper, LinkOptions, MarkRow, WrapKind, WrapperRow};
use runs::{Work, run_to_end};
use settled::{Asked, Pass};
use source::{ExportsKind, MODULE_LIMIT, ModuleSource, RECORD_LIMIT, Span, count_records};
use spread::{Arrow, EntrySet, YesNo};
use std::alloc::{AllocError, Global};

/// What the calls came to: a mark for each module, a row for each `require` of a module that awaits, a row for each wrapper.
#[derive(Drop)]
pub struct ListRun {
    pub marks: Vec<MarkRow>,
    /// The calls in their order, each with its answer.
    pub calls: Vec<Asked>,
    pub awaits: Vec<AwaitRow>,
    /// How many wrappers there are, or why finish was refused.
    pub finish: Result<usize, Fault>,
    pub wrappers: Vec<WrapperRow>,
}

/// What calls came to, but for their answers: the rows of a `ListRun`.
#[derive(Drop)]
pub struct Rows {
    pub marks: Vec<MarkRow>,
    pub awaits: Vec<AwaitRow>,
    /// How many wrappers there are, or why finish was refused.
    pub finish: Result<usize, Fault>,
    pub wrappers: Vec<WrapperRow>,
}

/// What the calls work with, one entry a module or one a record.
#[derive(Drop)]
struct Memory {
    facts: Vec<YesNo>,
    flags: Vec<YesNo>,
    ends: Vec<usize>,
    found: Vec<Option<usize>>,
    sets: Vec<EntrySet>,
    arrows: Vec<Arrow>,
}

fn blank_mark() -> MarkRow {
    MarkRow {
        kind: ExportsKind::None,
        wrap: WrapKind::None,
        required: false,
        dynamic: false,
        awaiting: false,
        entries: 0,
    }
}

fn blank_await() -> AwaitRow {
    AwaitRow {
        importer: 0,
        record: 0,
        source: 0,
        span: Span { start: 0, end: 0 },
        await_span: Span { start: 0, end: 0 },
    }
}

fn blank_wrapper() -> WrapperRow {
    WrapperRow {
        module: 0,
        wrap: WrapKind::None,
        helper: Helper::Esm,
        eval: false,
    }
}

/// How many modules there are, as far as the limit goes.
fn modules_of<S: ModuleSource>(source: &S) -> usize
    ensures { result ≤ 4096 }
{
    source.module_count().min(MODULE_LIMIT)
}

/// How many records the modules have, as far as the limit goes; of too many modules none are counted.
fn records_of<S: ModuleSource>(source: &S) -> usize
    ensures { result ≤ 32768 }
{
    if source.module_count() > MODULE_LIMIT {
        return 0;
    }
    count_records(source).unwrap_or(RECORD_LIMIT)
}

impl Memory {
    fn sized(heap: Global, modules: usize, records: usize) -> Result<Memory, AllocError>
        ensures { IfOk result (λ memory. length (vec_items memory.arrows) ≡ records) }
    {
        Ok(Memory {
            facts: vec![in heap; YesNo(false); modules]?,
            flags: vec![in heap; YesNo(false); modules]?,
            ends: vec![in heap; 0usize; modules]?,
            found: vec![in heap; None; modules]?,
            sets: vec![in heap; EntrySet(0); modules]?,
            arrows: vec![in heap; Arrow { from: 0, to: 0 }; records]?,
        })
    }
}

// A call for a pass that may use all that is lent.
fn asked(pass: Pass) -> Asked {
    Asked {
        pass,
        arrows: RECORD_LIMIT,
        places: MODULE_LIMIT,
        results: RECORD_LIMIT,
        answer: None,
    }
}

fn asked_all(heap: Global, passes: &[Pass]) -> Result<Vec<Asked>, AllocError> {
    Ok(passes.iter().map(|pass| asked(*pass)).collect(heap)?)
}

// How many rows the last accepted await wrote.
fn await_rows(calls: &[Asked]) -> usize {
    let written = |call: &Asked| match (call.pass, call.answer) {
        (Pass::Await, Some(Ok(n))) => Some(n),
        _ => None,
    };
    calls.iter().rev().find_map(written).unwrap_or(0)
}

// Begins, makes the calls, and finishes.
fn run_calls<S: ModuleSource>(
    source: &S,
    options: LinkOptions,
    marks: &mut [MarkRow],
    memory: &mut Memory,
    list: &mut [AwaitRow],
    calls: &mut [Asked],
    wrappers: &mut [WrapperRow],
) -> Result<usize, Fault>
    ensures { EndsSettled result (S.meaning source.now) options marks.new wrappers.new }
{
    let mut link = Link::new();
    let mut work = Work {
        facts: memory.facts.as_mut_slice(),
        flags: memory.flags.as_mut_slice(),
        sets: memory.sets.as_mut_slice(),
        ends: memory.ends.as_mut_slice(),
        found: memory.found.as_mut_slice(),
        arrows: memory.arrows.as_mut_slice(),
    };
    run_to_end(
        &mut link, source, options, marks, &mut work, list, calls, wrappers,
    )
}

// Asks for await rows and wrapper rows, begins, makes the calls and finishes.
fn run_over<S: ModuleSource>(
    heap: Global,
    source: &S,
    options: LinkOptions,
    mut marks: Vec<MarkRow>,
    mut memory: Memory,
    calls: &mut [Asked],
) -> Result<Rows, ListError>
    requires modules { length (vec_items marks) ≤ 4096 }
    requires records { length (vec_items memory.arrows) ≤ 32768 }
    ensures small { IfOk result FewRows }
    ensures settled { IfOk result (RowsSettle (S.meaning source.now) options) }
{
    let mut awaits = vec![in heap; blank_await(); memory.arrows.len()]?;
    let mut wrappers = vec![in heap; blank_wrapper(); marks.len()]?;
    let finish = run_calls(
        source,
        options,
        marks.as_mut_slice(),
        &mut memory,
        awaits.as_mut_slice(),
        calls,
        wrappers.as_mut_slice(),
    );
    if let Some(fault) = refused_begin(finish) {
        return Err(fault.into());
    }
    awaits.truncate(await_rows(calls));
    wrappers.truncate(finish.unwrap_or(0));
    Ok(Rows {
        marks,
        awaits,
        finish,
        wrappers,
    })
}

/// Begins, makes these calls one after another, and then finish. Where begin is refused there is nothing else.
pub fn run_list<S: ModuleSource>(
    heap: Global,
    source: &S,
    options: LinkOptions,
    passes: &[Pass],
) -> Result<ListRun, ListError>
    ensures small { IfOk result Small }
    ensures settled { IfOk result (Settles (S.meaning source.now) options) }
{
    let modules = modules_of(source);
    let marks = vec![in heap; blank_mark(); modules]?;
    let memory = Memory::sized(heap, modules, records_of(source))?;
    let mut calls = asked_all(heap, passes)?;
    let rows = run_over(heap, source, options, marks, memory, calls.as_mut_slice())?;
    Ok(ListRun {
        marks: rows.marks,
        calls,
        awaits: rows.awaits,
        finish: rows.finish,
        wrappers: rows.wrappers,
    })
}

// What begin would refuse, and that there are more entries than entries could tell apart.
fn check_job<S: ModuleSource>(source: &S, options: LinkOptions, marks: usize) -> Result<(), Fault>
    ensures { result ≡ and_then (source_verdict options (S.meaning source.now) (record { marks = marks; work = None })) (entries_verdict (S.meaning source.now)) }
{
    check_source(source, options, Lent { marks, work: None })?;
    if count_entries(source) > 64 {
        return Err(Refusal::TooManyEntries.found_by(Layer::Link, 0, 0));
    }
    Ok(())
}

/// Begins, makes all five passes and finishes. What begin refuses, and too many entries, is refused before any pass, and
/// before memory for await rows and wrapper rows is asked for.
pub fn run_job<S: ModuleSource>(
    heap: Global,
    source: &S,
    options: LinkOptions,
) -> Result<Rows, ListError>
    ensures small { IfOk result FewRows }
    ensures settled { IfOk result (RowsSettle (S.meaning source.now) options) }
{
    let modules = modules_of(source);
    let marks = vec![in heap; blank_mark(); modules]?;
    let memory = Memory::sized(heap, modules, records_of(source))?;
    check_job(source, options, modules)?;
    let mut calls = [
        asked(Pass::Kinds),
        asked(Pass::Star),
        asked(Pass::Wrap),
        asked(Pass::Entries),
        asked(Pass::Await),
    ];
    let rows = run_over(heap, source, options, marks, memory, &mut calls)?;
    match refused_call(&calls) {
        Some(fault) => Err(fault.into()),
        None => Ok(rows),
    }
}

// Finish makes begin's checks of the same source again and has room for every wrapper, so it can only be refused for the
// stage, which begin never is.
fn refused_begin(answer: Result<usize, Fault>) -> Option<Fault> {
    answer
        .err()
        .filter(|fault| fault.refusal != Refusal::NotAtThisStage)
}

// Why the first refused call was refused, if one was.
fn refused_call(calls: &[Asked]) -> Option<Fault> {
    calls.iter().find_map(|call| call.answer?.err())
}

impl ListRun {
    /// Why the first refused pass was refused, if one was.
    pub fn refused_pass(&self) -> Option<Fault> {
        refused_call(self.calls.as_slice())
    }
}
