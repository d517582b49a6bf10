// A line for each call, module, await row and wrapper row.
use faults::{Fault, Refusal};
use link_words::{AwaitLine, LinkWords, MarkLine, WrapperLine, pass_word, rule_words};
use run_list::{ListError, ListRun, run_list};
use source::ModuleSource;
use std::alloc::{AllocError, Global};
use std::fmt;
use std::fmt::Write;

/// The lines, and whether a call was refused: a flag, since both kinds of lines are printed alike.
#[derive(Drop)]
pub struct LinkReport {
    pub text: String,
    pub refused: bool,
}

// The line of a refused call, and what its rule says.
#[derive(Clone, Copy)]
struct RefusedCall {
    name: &'static str,
    fault: Fault,
}

impl fmt::Display for RefusedCall {
    fn fmt<W: fmt::Write>(&self, f: &mut fmt::Formatter<W>) -> fmt::Result {
        let RefusedCall { name, fault } = *self;
        let number = u8::from(fault.refusal);
        let rule = rule_words(fault.refusal);
        writeln!(f, "call name={name} answer=refused {fault}")?;
        writeln!(f, "rule number={number} says: {rule}")
    }
}

// The lines of the calls, and whether all were accepted. Finish is left out where its turn has not come.
fn call_lines(text: &mut String, done: &ListRun) -> Result<bool, AllocError> {
    writeln!(text, "call name=begin answer=accepted")?;
    for call in done.calls.as_slice() {
        let name = pass_word(call.pass);
        if let Some(Err(fault)) = call.answer {
            let refused = RefusedCall { name, fault };
            write!(text, "{refused}")?;
            return Ok(false);
        }
        writeln!(text, "call name={name} answer=accepted")?;
    }
    match done.finish {
        Ok(_) => writeln!(text, "call name=finish answer=accepted")?,
        Err(fault) if fault.refusal == Refusal::NotAtThisStage => writeln!(
            text,
            "call name=finish answer=left-out"
        )?,
        Err(fault) => {
            let name = "finish";
            let refused = RefusedCall { name, fault };
            write!(text, "{refused}")?;
            return Ok(false);
        }
    }
    Ok(true)
}

fn row_lines<S: ModuleSource>(
    text: &mut String,
    source: &S,
    done: &ListRun,
) -> Result<(), AllocError> {
    for (m, row) in done.marks.as_slice().iter().enumerate() {
        let line = MarkLine {
            m,
            described: source.module(m),
            row: *row,
        };
        write!(text, "{line}")?;
    }
    for row in done.awaits.as_slice() {
        let line = AwaitLine(*row);
        write!(text, "{line}")?;
    }
    for row in done.wrappers.as_slice() {
        let line = WrapperLine(*row);
        write!(text, "{line}")?;
    }
    Ok(())
}

/// Makes the calls that the words ask for. Once a call is refused, no line follows it.
pub fn link_report<S: ModuleSource>(
    heap: Global,
    source: &S,
    asked: &LinkWords,
) -> Result<LinkReport, AllocError> {
    match run_list(heap, source, asked.options, asked.passes.as_slice()) {
        // By hand, since of a list's errors only this one is an error here.
        Err(ListError::Memory) => Err(AllocError),
        Err(ListError::Refused(fault)) => {
            let name = "begin";
            let refused = RefusedCall { name, fault };
            Ok(LinkReport {
                text: format!(in heap; "{refused}")?,
                refused: true,
            })
        }
        Ok(done) => {
            let mut text = String::new(heap);
            let accepted = call_lines(&mut text, &done)?;
            if accepted {
                row_lines(&mut text, source, &done)?;
            }
            Ok(LinkReport {
                text,
                refused: !accepted,
            })
        }
    }
}
