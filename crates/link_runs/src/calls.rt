// One call, over work slices that hold what no call may read.
use crate::desk::Desk;
use crate::words::{Asked, Name};
use faults::Fault;
use settled::Pass;
use source::ModuleSource;
use spread::{Arrow, EntrySet, YesNo};
use std::alloc::{AllocError, Global};

fn make_pass<S: ModuleSource>(
    heap: Global,
    desk: &mut Desk,
    source: &S,
    asked: &Asked,
    pass: Pass,
) -> Result<Result<usize, Fault>, AllocError> {
    let marks = desk.marks.as_mut_slice();
    let n = asked.marks.min(marks.len());
    let marks = &mut marks[0..n];
    let mut facts = vec![in heap; YesNo(true); asked.places]?;
    let mut flags = vec![in heap; YesNo(true); asked.places]?;
    let mut arrows = vec![in heap; Arrow { from: 9, to: 9 }; asked.arrows]?;
    match pass {
        Pass::Kinds => Ok(desk.link.kinds(source, marks).map(|()| 0)),
        Pass::Star => {
            let (facts, flags) = (facts.as_mut_slice(), flags.as_mut_slice());
            let answer = desk
                .link
                .star(source, marks, facts, flags, arrows.as_mut_slice());
            Ok(answer.map(|()| 0))
        }
        Pass::Wrap => {
            let (facts, flags) = (facts.as_mut_slice(), flags.as_mut_slice());
            let answer = desk
                .link
                .wrap(source, marks, facts, flags, arrows.as_mut_slice());
            Ok(answer.map(|()| 0))
        }
        Pass::Entries => {
            let mut sets = vec![in heap; EntrySet(5); asked.places]?;
            let answer = desk
                .link
                .entries(source, marks, sets.as_mut_slice(), arrows.as_mut_slice());
            Ok(answer.map(|()| 0))
        }
        Pass::Await => make_await(heap, desk, source, asked),
    }
}

fn make_await<S: ModuleSource>(
    heap: Global,
    desk: &mut Desk,
    source: &S,
    asked: &Asked,
) -> Result<Result<usize, Fault>, AllocError> {
    let marks = desk.marks.as_mut_slice();
    let n = asked.marks.min(marks.len());
    let mut facts = vec![in heap; YesNo(true); asked.places]?;
    let mut entered = vec![in heap; YesNo(true); asked.places]?;
    let mut ends = vec![in heap; 9usize; asked.places]?;
    let mut found = vec![in heap; Some(9usize); asked.places]?;
    let mut arrows = vec![in heap; Arrow { from: 9, to: 9 }; asked.arrows]?;
    let list = desk.awaits.as_mut_slice();
    let rows = asked.rows.min(list.len());
    let answer = desk.link.awaits(
        source,
        &mut marks[0..n],
        facts.as_mut_slice(),
        entered.as_mut_slice(),
        ends.as_mut_slice(),
        found.as_mut_slice(),
        arrows.as_mut_slice(),
        &mut list[0..rows],
    );
    desk.await_count = answer.unwrap_or(desk.await_count);
    Ok(answer)
}

/// Makes the call and answers what it answers: a refusal is an answer here, and no error of this run.
pub fn make<S: ModuleSource>(
    heap: Global,
    desk: &mut Desk,
    source: &S,
    asked: &Asked,
) -> Result<Result<usize, Fault>, AllocError> {
    match asked.name {
        Name::Of(pass) => make_pass(heap, desk, source, asked, pass),
        Name::Begin => {
            let marks = desk.marks.as_mut_slice();
            let n = asked.marks.min(marks.len());
            let answer = desk.link.begin(source, desk.options, &mut marks[0..n]);
            Ok(answer.map(|()| 0))
        }
        Name::Finish => {
            let marks = desk.marks.as_mut_slice();
            let n = asked.marks.min(marks.len());
            let list = desk.wrappers.as_mut_slice();
            let rows = asked.rows.min(list.len());
            let answer = desk
                .link
                .finish(source, &mut marks[0..n], &mut list[0..rows]);
            desk.wrapper_count = answer.unwrap_or(desk.wrapper_count);
            Ok(answer)
        }
    }
}
