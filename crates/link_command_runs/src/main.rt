// Runs of the program's `link` and `dot`, one for each line of standard input, with what each says and its status.
#![tactic(auto)]

use commands::ToldRun;
use link_commands::run;
use table_words::owned_words;

fn main(rt: HostRuntime) -> anyhow::Result<()> {
    let heap = rt.alloc();
    for line in rt.lines(heap) {
        let line = line?;
        let words = owned_words(heap, line.as_str())?;
        let report = run(&rt, words.as_slice())?;
        let told = ToldRun {
            words: line.as_str(),
            report: &report,
        };
        print!(rt; "{told}")?;
    }
    Ok(())
}
