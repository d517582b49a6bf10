// The question which modes an external module needs in a chunk.
ghost use Rattle.std.specs.Prelude.{IfOk};
ghost use Rattle.commands.specs.Reports.{Quiet};

use crate::dispatch::source_in;
use crate::errors::CommandError;
use crate::files::{read_contents, read_interop_file};
use crate::report::Report;
use faults::Fault;
use interop::{ChunkAssignments, ImportRow, Question};
use interop_rows::use_word;
use source::ModuleSource;
use spread::InteropUse;
use std::fmt;
use table_words::{Worded, read_number};

/// How the question is asked.
pub const INTEROP_USAGE: &str = "usage: tuchovai interop FILE ROWS --chunk=N --namespace=N";

// Which chunk and which namespace are asked about.
#[derive(Clone, Copy)]
struct Asked {
    chunk: u32,
    namespace: u32,
}

fn read_asked(words: &[String]) -> Option<Asked> {
    let mut chunk: Option<u32> = None;
    let mut namespace: Option<u32> = None;
    for word in words {
        if let Some(number) = word.as_str().strip_prefix("--chunk=") {
            chunk = Some(read_number(number)?);
        } else if let Some(number) = word.as_str().strip_prefix("--namespace=") {
            namespace = Some(read_number(number)?);
        } else {
            return None;
        }
    }
    Some(Asked {
        chunk: chunk?,
        namespace: namespace?,
    })
}

#[derive(Clone, Copy)]
struct Answers {
    recorded: Option<InteropUse>,
    modes: Option<InteropUse>,
    reader: bool,
}

impl fmt::Display for Answers {
    fn fmt<W: fmt::Write>(&self, f: &mut fmt::Formatter<W>) -> fmt::Result {
        let recorded = use_word(self.recorded);
        let modes = use_word(self.modes);
        let reader = self.reader.word();
        write!(f, "recorded={recorded} modes={modes} reader={reader}")
    }
}

fn answer<S: ModuleSource>(
    question: &Question<'_, S>,
    imports: &[ImportRow],
) -> Result<Answers, Fault> {
    Ok(Answers {
        reader: question.reader(imports)?,
        recorded: question.recorded_use()?,
        modes: question.modes(imports)?,
    })
}

/// `interop FILE ROWS --chunk=N --namespace=N`, from the words after these two.
pub fn interop(
    rt: &HostRuntime,
    path: &str,
    rows_path: &str,
    options: &[String],
) -> Result<Report, CommandError>
    ensures { IfOk result Quiet }
{
    let heap = rt.alloc();
    let Some(asked) = read_asked(options) else {
        return Err(String::from_str(heap, INTEROP_USAGE)?.into());
    };
    let contents = read_contents(rt, path)?;
    let rows = read_interop_file(rt, rows_path)?;
    let source = source_in(heap, path, &contents)?;
    let chunks = ChunkAssignments::new(rows.assigned.as_slice(), rows.removed.as_slice());
    let question = Question {
        source: &source,
        chunks,
        observers: rows.observers.as_slice(),
        namespace: asked.namespace,
        chunk: asked.chunk,
    };
    let answers = answer(&question, rows.imports.as_slice());
    let out = match answers {
        Ok(answers) => format!(in heap; "interop {answers}\n")?,
        Err(fault) => format!(in heap; "interop answer=refused {fault}\n")?,
    };
    Ok(Report::quiet(heap, out, answers.is_err()))
}
