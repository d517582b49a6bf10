// One run of the program.
ghost use Rattle.std.specs.Prelude.{IfOk};
ghost use Rattle.commands.specs.Reports.{Quiet, Whole};

use crate::ask::{INTEROP_USAGE, interop};
use crate::errors::{CommandError, in_file};
use crate::files::{read_contents, write_file};
use crate::refused::Refused;
use crate::report::Report;
use crate::sources::{Contents, OpenSource};
use card_image::{ImageError, card_image};
use source::{ModuleSource, RECORD_LIMIT, count_records};
use std::alloc::{AllocError, Global};
use table::write_table;

const HELP: &str =
    "tuchovai settles how each JavaScript module is exported, wrapped, starred and awaited.

usage: tuchovai COMMAND ..

  pack TABLE CARD   writes the source of a text table as a card
  show FILE         prints the modules of FILE as a text table
  check FILE        says whether FILE holds a source, or the first fault
  interop FILE ROWS --chunk=N --namespace=N
                    says which modes an external module needs in a chunk, by the rows in ROWS
  help              prints this text
  --version         prints the version

FILE is a card where its name ends in .card, a text table where it ends in .table, and else told by its first four bytes.
Status 1 says that a file was refused or that the words were not understood.
";

const VERSION: &str = "tuchovai 0.1.0\n";

/// What the program says to its words, those after its own name.
pub fn run(rt: &HostRuntime, words: &[String]) -> Result<Report, AllocError>
    ensures { IfOk result Whole }
{
    Report::of_command(rt.alloc(), run_command(rt, words))
}

fn run_command(rt: &HostRuntime, words: &[String]) -> Result<Report, CommandError>
    ensures { IfOk result Quiet }
{
    let heap = rt.alloc();
    let Some(command) = words.first() else {
        return Ok(said(heap, HELP)?);
    };
    match (command.as_str(), words) {
        ("help", [_]) => Ok(said(heap, HELP)?),
        ("--version", [_]) => Ok(said(heap, VERSION)?),
        ("show", [_, path]) => show(rt, path.as_str()),
        ("check", [_, path]) => check(rt, path.as_str()),
        ("pack", [_, from, to]) => pack(rt, from.as_str(), to.as_str()),
        ("interop", [_, path, rows, options @ ..]) => interop(
            rt,
            path.as_str(),
            rows.as_str(),
            options,
        ),
        ("interop", _) => Err(String::from_str(heap, INTEROP_USAGE)?.into()),
        ("pack", _) => Err(String::from_str(heap, "usage: tuchovai pack TABLE CARD")?.into()),
        ("show" | "check", _) => Err(format!(in heap; "usage: tuchovai {command} FILE")?.into()),
        _ => Err(format!(in heap;
            "not understood: {command}; `tuchovai help` lists the commands"
        )?.into()),
    }
}

fn said(heap: Global, text: &str) -> Result<Report, AllocError>
    ensures { IfOk result Quiet }
{
    Ok(Report::quiet(heap, String::from_str(heap, text)?, false))
}

/// The file's source. A file that is refused has nothing to be shown or packed.
pub fn source_in<'a>(
    heap: Global,
    path: &str,
    contents: &'a Contents,
) -> Result<OpenSource<'a>, CommandError> {
    in_file(
        heap,
        path,
        contents.checked().map_err(|fault| Refused(fault)),
    )
}

fn show(rt: &HostRuntime, path: &str) -> Result<Report, CommandError>
    ensures { IfOk result Quiet }
{
    let heap = rt.alloc();
    let contents = read_contents(rt, path)?;
    let source = source_in(heap, path, &contents)?;
    Ok(Report::quiet(heap, write_table(heap, &source)?, false))
}

/// The counts of an accepted source, or its first fault.
fn check(rt: &HostRuntime, path: &str) -> Result<Report, CommandError>
    ensures { IfOk result Quiet }
{
    let heap = rt.alloc();
    let contents = read_contents(rt, path)?;
    match contents.checked() {
        Ok(source) => {
            let modules = source.module_count();
            // An accepted source has no more records than that.
            let records = count_records(&source).unwrap_or(RECORD_LIMIT);
            let out = format!(in heap;
                "check answer=accepted modules={modules} records={records}\n"
            )?;
            Ok(Report::quiet(heap, out, false))
        }
        Err(fault) => {
            let out = format!(in heap; "check answer=refused {fault}\n")?;
            Ok(Report::quiet(heap, out, true))
        }
    }
}

// The card of a source, or why there is none.
fn card_of<S: ModuleSource>(heap: Global, path: &str, source: &S) -> Result<Vec<u8>, CommandError> {
    card_image(heap, source).or_else(|error| match error {
        ImageError::Refused(fault) => in_file(heap, path, Err(Refused(fault))),
        ImageError::NoMemory(error) => Err(error.into()),
    })
}

fn pack(rt: &HostRuntime, from: &str, to: &str) -> Result<Report, CommandError>
    ensures { IfOk result Quiet }
{
    let heap = rt.alloc();
    let contents = read_contents(rt, from)?;
    let Contents::Rows(table) = &contents else {
        return Err(format!(in heap; "{from}: a card already; pack takes a text table")?.into());
    };
    let (modules, records) = (table.modules.len(), table.records.len());
    let source = source_in(heap, from, &contents)?;
    let image = card_of(heap, from, &source)?;
    write_file(rt, to, image.as_slice())?;
    let bytes = image.len();
    let out = format!(in heap;
        "pack answer=written modules={modules} records={records} bytes={bytes}\n"
    )?;
    Ok(Report::quiet(heap, out, false))
}
