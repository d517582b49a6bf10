// Runs of the program, one for each line of standard input, with what each says and its status. A line `same A B` says
// whether two files are equal.
#![tactic(auto)]

use commands::{ToldRun, run};
use std::fs;
use table_words::{Worded, owned_words};

fn print_same(rt: &HostRuntime, a: &str, b: &str) -> anyhow::Result<()> {
    let same = fs::read(rt, a)?.as_slice() == fs::read(rt, b)?.as_slice();
    let answer = same.word();
    print!(rt; "$ same {a} {b}\n{answer}\n")?;
    Ok(())
}

fn main(rt: HostRuntime) -> anyhow::Result<()> {
    let heap = rt.alloc();
    for line in rt.lines(heap) {
        let line = line?;
        let words = owned_words(heap, line.as_str())?;
        match words.as_slice() {
            [same, a, b] if same.as_str() == "same" => print_same(&rt, a.as_str(), b.as_str())?,
            words => {
                let report = run(&rt, words)?;
                let told = ToldRun {
                    words: line.as_str(),
                    report: &report,
                };
                print!(rt; "{told}")?;
            }
        }
    }
    Ok(())
}
