// The commands that classify a source: its lines, and its graph.
ghost use Rattle.std.specs.Prelude.{IfOk};
ghost use Rattle.commands.specs.Reports.{Quiet};

use commands::{CommandError, Refused, Report, in_file, read_contents};
use external_layer::ExternalLayer;
use faults::Fault;
use link_report::{dot_text, link_report};
use link_words::{LinkWords, WordsError, read_link_words, rule_words};
use run_list::{ListError, ListRun, run_list};
use source::ModuleSource;
use std::alloc::{AllocError, Global};
use std::fmt;

const USAGE: &str =
    "FILE [--format=esm|cjs|iife|umd] [--no-splitting] [--strict-order] [--manual-groups] [--profiler-names] [--external=N].. [--calls=kinds,star,wrap,await,entries]";

/// How a classified source is told. The source is of another type where modules were made external, so that no closure
/// can stand for a case.
#[derive(Clone, Copy)]
pub enum Told {
    Lines,
    Graph,
}

// A refusal, and what its rule says.
#[derive(Clone, Copy)]
struct Explained(Fault);

impl fmt::Display for Explained {
    fn fmt<W: fmt::Write>(&self, f: &mut fmt::Formatter<W>) -> fmt::Result {
        let refused = Refused(self.0);
        let rule = rule_words(self.0.refusal);
        write!(f, "{refused}: {rule}")
    }
}

// The words of the command, or the first that is not understood.
fn read_words(heap: Global, command: &str, words: &[String]) -> Result<LinkWords, CommandError> {
    read_link_words(heap, words).try_map_err(|error| -> Result<CommandError, CommandError> {
        match error {
            WordsError::NoMemory => Ok(AllocError.into()),
            WordsError::BadWord(i) => {
                let word = words.get(i).map_or("", |word| word.as_str());
                Ok(format!(in heap;
                    "not understood: {word}; usage: tuchovai {command} {USAGE}"
                )?.into())
            }
        }
    })
}

// The calls that the words ask for, all of them accepted.
fn accepted_run<S: ModuleSource>(
    heap: Global,
    source: &S,
    asked: &LinkWords,
) -> Result<ListRun, ListError> {
    let done = run_list(heap, source, asked.options, asked.passes.as_slice())?;
    match done.refused_pass() {
        Some(fault) => Err(fault.into()),
        None => Ok(done),
    }
}

fn tell<S: ModuleSource>(
    heap: Global,
    path: &str,
    source: &S,
    asked: &LinkWords,
    told: Told,
) -> Result<Report, CommandError>
    ensures { IfOk result Quiet }
{
    match told {
        Told::Lines => {
            let report = link_report(heap, source, asked)?;
            Ok(Report::quiet(heap, report.text, report.refused))
        }
        Told::Graph => match accepted_run(heap, source, asked) {
            Ok(done) => Ok(Report::quiet(heap, dot_text(heap, source, &done)?, false)),
            // By hand: a fault is told with the file's name, and memory without.
            Err(ListError::Memory) => Err(AllocError.into()),
            Err(ListError::Refused(fault)) => in_file(heap, path, Err(Explained(fault))),
        },
    }
}

// With the asked modules made external.
fn tell_layered<S: ModuleSource>(
    heap: Global,
    path: &str,
    source: &S,
    asked: &LinkWords,
    told: Told,
) -> Result<Report, CommandError>
    ensures { IfOk result Quiet }
{
    if asked.externals.is_empty() {
        return tell(heap, path, source, asked, told);
    }
    let mut layer = ExternalLayer::new(source);
    for number in asked.externals.as_slice() {
        if *number as usize >= source.module_count() {
            return Err(format!(in heap;
                "{path}: there is no module {number} to make external"
            )?.into());
        }
        in_file(
            heap,
            path,
            layer.hold(*number).map_err(|fault| Explained(fault)),
        )?;
    }
    tell(heap, path, &layer, asked, told)
}

/// `link FILE ..` and `dot FILE ..`, from the words after the file.
pub fn link(
    rt: &HostRuntime,
    command: &str,
    path: &str,
    words: &[String],
    told: Told,
) -> Result<Report, CommandError>
    ensures { IfOk result Quiet }
{
    let heap = rt.alloc();
    let asked = read_words(heap, command, words)?;
    let contents = read_contents(rt, path)?;
    let source = in_file(
        heap,
        path,
        contents.checked().map_err(|fault| Explained(fault)),
    )?;
    tell_layered(heap, path, &source, &asked, told)
}

/// How the command is called.
pub fn link_usage(heap: Global, command: &str) -> Result<CommandError, AllocError> {
    Ok(format!(in heap; "usage: tuchovai {command} {USAGE}")?.into())
}
