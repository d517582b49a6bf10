// Holds Tuchovai's answers against those of the Rust that stand in a file, case by case.
#![tactic(auto)]

mod cases;

use cases::Case;
use std::{fmt, fs};

const FILE: &str = "answers.txt";

/// How a case comes out: a case whose answers differ has to say so, and one that says so has to differ.
#[derive(Clone, Copy, PartialEq, Eq)]
enum Outcome {
    Same,
    Listed,
    Unlisted,
}

/// How many cases there were, and how they came out.
#[derive(Clone, Copy, Default)]
struct Counts {
    cases: u32,
    same: u32,
    listed: u32,
    unlisted: u32,
}

impl Counts {
    fn add(&mut self, outcome: Outcome) {
        let of_it = match outcome {
            Outcome::Same => &mut self.same,
            Outcome::Listed => &mut self.listed,
            Outcome::Unlisted => &mut self.unlisted,
        };
        *of_it = of_it.saturating_add(1);
        self.cases = self.cases.saturating_add(1);
    }
}

impl fmt::Display for Counts {
    fn fmt<W: fmt::Write>(&self, f: &mut fmt::Formatter<W>) -> fmt::Result {
        let Counts {
            cases,
            same,
            listed,
            unlisted,
        } = *self;
        write!(
            f,
            "cases={cases} same={same} listed-differences={listed} unlisted={unlisted}"
        )
    }
}

fn judge(rt: &HostRuntime, case: &Case) -> anyhow::Result<Outcome> {
    let ours = case.our_lines(rt.alloc())?;
    match (ours.as_str() == case.expected.as_str(), case.differs) {
        (true, false) => Ok(Outcome::Same),
        (false, true) => Ok(Outcome::Listed),
        _ => {
            let head = case.head.as_str();
            let expected = case.expected.as_str();
            print!(rt; "{head}: the Rust answers\n{expected}and Tuchovai\n{ours}")?;
            Ok(Outcome::Unlisted)
        }
    }
}

fn main(rt: HostRuntime) -> anyhow::Result<()> {
    let heap = rt.alloc();
    let text = fs::read_to_string(&rt, FILE)?;
    let mut counts = Counts::default();
    let mut case = Case::begin(heap, "")?;
    for line in text.lines() {
        if line.starts_with("case ") {
            if !case.head.is_empty() {
                counts.add(judge(&rt, &case)?);
            }
            case = Case::begin(heap, line)?;
        } else {
            case.add_line(line)?;
        }
    }
    counts.add(judge(&rt, &case)?);
    println!(rt; "answers {counts}")?;
    Ok(())
}
