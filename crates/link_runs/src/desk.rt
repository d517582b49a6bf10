// What a caller of the link holds.
use link::Link;
use link_words::{AwaitLine, MarkLine, WrapperLine};
use marks::{AwaitRow, Helper, LinkOptions, MarkRow, WrapKind, WrapperRow};
use row_source::ModuleRow;
use source::{ExportsKind, Module, Span};
use std::alloc::{AllocError, Global};
use std::fmt::Write;
use table_words::Worded;

#[derive(Drop)]
pub struct Desk {
    pub link: Link,
    pub options: LinkOptions,
    pub marks: Vec<MarkRow>,
    pub awaits: Vec<AwaitRow>,
    pub wrappers: Vec<WrapperRow>,
    /// How many rows of each list were written: the lists are lent whole, so that what a call leaves as it was is seen.
    pub await_count: usize,
    pub wrapper_count: usize,
}

/// A desk with rows that mean nothing yet, and three mark rows more than modules.
pub fn new_desk(heap: Global, modules: usize, options: LinkOptions) -> Result<Desk, AllocError> {
    let mark = MarkRow {
        kind: ExportsKind::CommonJs,
        wrap: WrapKind::Esm,
        required: true,
        dynamic: true,
        awaiting: true,
        entries: 9,
    };
    let nowhere = Span { start: 7, end: 7 };
    let wait = AwaitRow {
        importer: 7,
        record: 7,
        source: 7,
        span: nowhere,
        await_span: nowhere,
    };
    let wrapper = WrapperRow {
        module: 7,
        wrap: WrapKind::None,
        helper: Helper::Esm,
        eval: true,
    };
    Ok(Desk {
        link: Link::new(),
        options,
        marks: vec![in heap; mark; modules.saturating_add(3)]?,
        awaits: vec![in heap; wait; 10]?,
        wrappers: vec![in heap; wrapper; 10]?,
        await_count: 0,
        wrapper_count: 0,
    })
}

/// Every row, written out.
pub fn settled_text(heap: Global, desk: &Desk) -> Result<String, AllocError> {
    let mut text = String::new(heap);
    for (m, row) in desk.marks.as_slice().iter().enumerate() {
        let line = MarkLine {
            m,
            described: Module::External,
            row: *row,
        };
        let kind = row.kind.word();
        write!(text, "{line}{kind}")?;
    }
    for row in desk.awaits.as_slice() {
        let line = AwaitLine(*row);
        write!(text, "{line}")?;
    }
    for row in desk.wrappers.as_slice() {
        let line = WrapperLine(*row);
        write!(text, "{line}")?;
    }
    Ok(text)
}

/// The marks of the modules, and the rows that were written.
pub fn print_desk(rt: &HostRuntime, modules: &[ModuleRow], desk: &Desk) -> anyhow::Result<()> {
    for (m, (module, row)) in modules.iter().zip(desk.marks.as_slice()).enumerate() {
        let line = MarkLine {
            m,
            described: module.described,
            row: *row,
        };
        print!(rt; "{line}")?;
    }
    for row in desk.awaits.as_slice().iter().take(desk.await_count) {
        let line = AwaitLine(*row);
        print!(rt; "{line}")?;
    }
    for row in desk.wrappers.as_slice().iter().take(desk.wrapper_count) {
        let line = WrapperLine(*row);
        print!(rt; "{line}")?;
    }
    Ok(())
}
