// How many of each mark and row there are.
use classify::Classified;
use marks::{MarkRow, WrapKind};
use source::ExportsKind;
use std::fmt;

#[derive(Clone, Copy)]
pub struct Tally {
    esm: usize,
    cjs: usize,
    wrapped_esm: usize,
    wrapped_cjs: usize,
    required: usize,
    dynamic: usize,
    awaiting: usize,
    entered: usize,
    awaits: usize,
    wrappers: usize,
    /// The sum of the sources that await rows name.
    sources: u64,
}

impl Tally {
    pub fn of(done: &Classified) -> Tally {
        let marks = done.marks.as_slice();
        Tally {
            esm: count(marks, |row| row.kind == ExportsKind::Esm),
            cjs: count(marks, |row| row.kind == ExportsKind::CommonJs),
            wrapped_esm: count(marks, |row| row.wrap == WrapKind::Esm),
            wrapped_cjs: count(marks, |row| row.wrap == WrapKind::Cjs),
            required: count(marks, |row| row.required),
            dynamic: count(marks, |row| row.dynamic),
            awaiting: count(marks, |row| row.awaiting),
            entered: count(marks, |row| row.entries != 0),
            awaits: done.awaits.len(),
            wrappers: done.wrappers.len(),
            sources: done.awaits.as_slice().iter().fold(
                0,
                |sum: u64, row| sum.saturating_add(u64::from(row.source)),
            ),
        }
    }
}

fn count<F: Fn(&MarkRow) -> bool>(marks: &[MarkRow], test: F) -> usize
    requires { F.IsAlwaysCallable test }
{
    marks.iter().filter(|row| test(row)).count()
}

impl fmt::Display for Tally {
    fn fmt<W: fmt::Write>(&self, f: &mut fmt::Formatter<W>) -> fmt::Result {
        let Tally {
            esm,
            cjs,
            wrapped_esm,
            wrapped_cjs,
            required,
            dynamic,
            awaiting,
            entered,
            awaits,
            wrappers,
            sources,
        } = *self;
        write!(
            f,
            "esm={esm} cjs={cjs} wrapped-esm={wrapped_esm} wrapped-cjs={wrapped_cjs} required={required} dynamic={dynamic} awaiting={awaiting} entered={entered} await-rows={awaits} sources={sources} wrappers={wrappers}"
        )
    }
}
