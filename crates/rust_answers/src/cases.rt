// A case: options, a table, and the lines that the Rust's answers come to.
use anyhow::anyhow;
use link_report::link_report;
use link_words::read_link_words;
use row_source::RowSource;
use std::alloc::{AllocError, Global};
use std::fmt::Write;
use table::read_table;
use table_words::owned_words;

#[derive(Drop)]
pub struct Case {
    /// `case NUMBER OPTION..`
    pub head: String,
    table: String,
    pub expected: String,
    /// The answers are said to differ.
    pub differs: bool,
    // The lines that come are answers, and no longer the table.
    answering: bool,
}

impl Case {
    pub fn begin(heap: Global, head: &str) -> Result<Case, AllocError> {
        Ok(Case {
            head: String::from_str(heap, head)?,
            table: String::new(heap),
            expected: String::new(heap),
            differs: false,
            answering: false,
        })
    }

    pub fn add_line(&mut self, line: &str) -> Result<(), AllocError> {
        if line == "answers" {
            self.answering = true;
            return Ok(());
        }
        if line.starts_with("differs ") {
            self.differs = true;
            return Ok(());
        }
        let text = if self.answering {
            &mut self.expected
        } else {
            &mut self.table
        };
        writeln!(text, "{line}")
    }

    /// Tuchovai's answers to the case.
    pub fn our_lines(&self, heap: Global) -> anyhow::Result<String> {
        let words = owned_words(heap, self.head.as_str())?;
        let options = words.as_slice().get(2..).unwrap_or(&[]);
        let asked = read_link_words(heap, options).map_err(|_| anyhow!("options do not read"))?;
        let table = read_table(heap, self.table.as_str()).map_err(|_| anyhow!(
            "a table does not read"
        ))?;
        let source = RowSource::open(
            table.runtime,
            table.modules.as_slice(),
            table.records.as_slice(),
        );
        let report = link_report(heap, &source, &asked)?;
        Ok(compared_lines(heap, report.text.as_str())?)
    }
}

// The lines of marks and rows; the Rust has no entry sets, so that a mark ends before its own.
fn compared_lines(heap: Global, report: &str) -> Result<String, AllocError> {
    let mut text = String::new(heap);
    for line in report.lines().filter(|line| !line.starts_with("call ")) {
        let shown = line
            .split_once(" entries=")
            .map_or(line, |(front, _)| front);
        writeln!(text, "{shown}")?;
    }
    Ok(text)
}
