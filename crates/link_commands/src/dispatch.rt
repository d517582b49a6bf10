// Which command the words name, and what a run of it has to say.
ghost use Rattle.std.specs.Prelude.{IfOk};
ghost use Rattle.commands.specs.Reports.{Quiet, Whole};

use crate::classified::{Told, link, link_usage};
use commands::{CommandError, Report, run as run_other};
use std::alloc::AllocError;

/// What the program says to its words, those after its own name: `link` and `dot` are answered here, and every other command
/// where it stands.
pub fn run(rt: &HostRuntime, words: &[String]) -> Result<Report, AllocError>
    ensures { IfOk result Whole }
{
    match words.first().map(|command| command.as_str()) {
        Some("link") => run_here(rt, words, Told::Lines),
        Some("dot") => run_here(rt, words, Told::Graph),
        _ => run_other(rt, words),
    }
}

fn run_here(rt: &HostRuntime, words: &[String], told: Told) -> Result<Report, AllocError>
    ensures { IfOk result Whole }
{
    Report::of_command(rt.alloc(), run_command(rt, words, told))
}

fn run_command(rt: &HostRuntime, words: &[String], told: Told) -> Result<Report, CommandError>
    ensures { IfOk result Quiet }
{
    let heap = rt.alloc();
    match words {
        [command, path, options @ ..] => link(rt, command.as_str(), path.as_str(), options, told),
        [command] => Err(link_usage(heap, command.as_str())?),
        [] => Err(link_usage(heap, "link")?),
    }
}
