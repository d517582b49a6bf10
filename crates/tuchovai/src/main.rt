// The program: it hands its words on, prints what is answered and ends with the status.
#![tactic(auto)]

use link_commands::run;
use std::env;
use std::process::ExitCode;

fn main(rt: HostRuntime) -> anyhow::Result<ExitCode> {
    let words = env::args(&rt)?.skip(1).collect::<Vec<String>>(rt.alloc())?;
    let report = run(&rt, words.as_slice())?;
    let out = report.out.as_str();
    let err = report.err.as_str();
    print!(rt; "{out}")?;
    eprint!(rt; "{err}")?;
    Ok(ExitCode::from(report.status()))
}
