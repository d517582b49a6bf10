// Runs of the link's calls, one for each line of standard input: `TABLE OPTIONS : CALLS`. A call may say how much it is
// lent, as `wrap/arrows=4`. After each call stands its answer and, where it was refused, whether everything was kept; at
// the end stand the marks and the rows of both lists. `@TABLE` among the calls hands those after it another source.
#![tactic(auto)]

mod calls;
mod desk;
mod words;

use anyhow::{Context, anyhow};
use calls::make;
use desk::{Desk, new_desk, print_desk, settled_text};
use faults::Fault;
use marks::LinkOptions;
use row_source::RowSource;
use std::fs;
use table::{Table, read_table};
use words::{Asked, read_asked, read_options};

fn print_answer(
    rt: &HostRuntime,
    asked: &Asked,
    before: &str,
    desk: &Desk,
    answer: Result<usize, Fault>,
) -> anyhow::Result<()> {
    let name = asked.name.text();
    match answer {
        Ok(rows) => println!(rt; "{name} accepted rows={rows}")?,
        Err(fault) => {
            let after = settled_text(rt.alloc(), desk)?;
            let kept = if before == after.as_str() {
                "kept"
            } else {
                "changed"
            };
            println!(rt; "{name} refused {fault} {kept}")?;
        }
    }
    Ok(())
}

// The source of a table, as rows in memory.
fn make_call(
    rt: &HostRuntime,
    desk: &mut Desk,
    table: &Table,
    asked: &Asked,
) -> anyhow::Result<()> {
    let heap = rt.alloc();
    let source = RowSource::open(
        table.runtime,
        table.modules.as_slice(),
        table.records.as_slice(),
    );
    let before = settled_text(heap, desk)?;
    let answer = make(heap, desk, &source, asked)?;
    print_answer(rt, asked, before.as_str(), desk, answer)
}

fn read_file(rt: &HostRuntime, name: &str) -> anyhow::Result<Table> {
    let text = fs::read_to_string(rt, name)?;
    read_table(rt.alloc(), text.as_str()).map_err(|_| anyhow!("a table does not read"))
}

fn run_calls(
    rt: &HostRuntime,
    first: Table,
    options: LinkOptions,
    words: &str,
) -> anyhow::Result<()> {
    let mut desk = new_desk(rt.alloc(), first.modules.len(), options)?;
    let mut table = first;
    for word in words.split_whitespace() {
        if let Some(name) = word.strip_prefix("@") {
            table = read_file(rt, name)?;
        } else if let Some(asked) = read_asked(word) {
            make_call(rt, &mut desk, &table, &asked)?;
        } else {
            println!(rt; "{word} does not read")?;
        }
    }
    print_desk(rt, table.modules.as_slice(), &desk)
}

fn run_line(rt: &HostRuntime, line: &str) -> anyhow::Result<()> {
    println!(rt; "$ {line}")?;
    let (front, calls) = line.split_once(':').context("no `:`")?;
    let mut words = front.split_whitespace();
    let name = words.next().context("no table")?;
    let options = read_options(words).context("options do not read")?;
    run_calls(rt, read_file(rt, name)?, options, calls)
}

fn main(rt: HostRuntime) -> anyhow::Result<()> {
    for line in rt.lines(rt.alloc()) {
        run_line(&rt, line?.as_str())?;
    }
    Ok(())
}
