// Writes any source in the text form, each module with its number in a comment.
use source::{ImportRecord, Module, ModuleSource, NormalModule, Span};
use std::alloc::{AllocError, Global};
use std::fmt::Write;
use table_words::{Flag, Worded, has_flag};

const FLAGS: [Flag; 5] = [
    Flag::Lazy,
    Flag::Await,
    Flag::Module,
    Flag::Node,
    Flag::Entry,
];

/// The source as a text table. What it reads as again is the same source.
pub fn write_table<S: ModuleSource>(heap: Global, source: &S) -> Result<String, AllocError> {
    let mut out = String::new(heap);
    write_modules(&mut out, source)?;
    Ok(out)
}

fn write_modules<S: ModuleSource>(out: &mut String, source: &S) -> Result<(), AllocError> {
    let runtime = source.runtime();
    writeln!(out, "runtime {runtime}")?;
    // A source is asked by numbers, and has no iterator.
    for m in 0..source.module_count() {
        match source.module(m) {
            Module::External => write!(out, "external")?,
            Module::Normal(module) => write_normal(out, &module)?,
        }
        writeln!(out, " # {m}")?;
        for k in 0..source.record_count(m) {
            write_record(out, &source.record(m, k))?;
        }
    }
    Ok(())
}

fn write_normal(out: &mut String, module: &NormalModule) -> Result<(), AllocError> {
    let kind = module.scanned.word();
    write!(out, "module {kind}")?;
    for flag in FLAGS {
        if has_flag(module, flag) {
            let word = flag.word();
            write!(out, " {word}")?;
        }
    }
    if module.await_span != (Span { start: 0, end: 0 }) {
        write_span(out, module.await_span)?;
    }
    Ok(())
}

fn write_record(out: &mut String, record: &ImportRecord) -> Result<(), AllocError> {
    let kind = record.kind.word();
    write!(out, "  {kind} ")?;
    match record.target {
        Some(target) => write!(out, "{target}")?,
        None => write!(out, "-")?,
    }
    if record.star {
        write!(out, " star")?;
    }
    write_span(out, record.span)?;
    writeln!(out)
}

fn write_span(out: &mut String, span: Span) -> Result<(), AllocError> {
    let Span { start, end } = span;
    write!(out, " {start}..{end}")
}
