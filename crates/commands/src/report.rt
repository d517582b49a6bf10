// What a run has to say.
ghost use Rattle.std.specs.Prelude.{◌≡◌, Some, IfOk, string_bytes};
ghost use Rattle.commands.specs.Reports.{Quiet, Whole, status, run_text};

use crate::errors::CommandError;
use std::alloc::{AllocError, Global};
use std::fmt;

/// What goes to standard output and to standard error, and whether the status is 1: a flag, since a refusal can go to either.
#[derive(Drop)]
pub struct Report {
    pub out: String,
    pub err: String,
    pub failed: bool,
}

impl Report {
    /// Nothing goes to standard error.
    pub fn quiet(heap: Global, out: String, failed: bool) -> Report
        ensures quiet { Quiet result }
        ensures out { result.out ≡ out }
        ensures failed { result.failed ≡ failed }
    {
        Report {
            out,
            err: String::new(heap),
            failed,
        }
    }

    /// What a command says, or the one line on standard error that stands in its place.
    pub fn of_command(
        heap: Global,
        done: Result<Report, CommandError>,
    ) -> Result<Report, AllocError>
        ensures { IfOk done Quiet → IfOk result Whole }
    {
        match done {
            Ok(report) => Ok(report),
            Err(CommandError::Message(message)) => Ok(Report {
                out: String::new(heap),
                err: format!(in heap; "tuchovai: {message}\n")?,
                failed: true,
            }),
            Err(CommandError::NoMemory(error)) => Err(error),
        }
    }

    /// The status of the run.
    pub fn status(&self) -> u8
        ensures { result ≡ status self.now }
    {
        u8::from(self.failed)
    }

    /// How a run with these words is told: the words, what went out, and the status.
    pub fn told(&self, heap: Global, words: &str) -> Result<String, AllocError>
        ensures { IfOk result (λ text. string_bytes text ≡ run_text words.now self.now) }
    {
        let run = ToldRun {
            words,
            report: self,
        };
        format!(in heap; "{run}")
    }
}

/// A run with these words, which prints itself as it is told, with no memory of its own.
#[derive(Clone, Copy)]
pub struct ToldRun<'a> {
    pub words: &'a str,
    pub report: &'a Report,
}

impl<'a> fmt::Display for ToldRun<'a> {
    ghost output = { λ t. Some (run_text t.words.now t.report.now) };

    fn fmt<W: fmt::Write>(&self, f: &mut fmt::Formatter<W>) -> fmt::Result {
        let words = self.words;
        let out = self.report.out.as_str();
        let err = self.report.err.as_str();
        let status = self.report.status();
        write!(f, "$ tuchovai {words}\n{out}{err}status {status}\n")
    }
}
