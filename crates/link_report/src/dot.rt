// The classified graph in Graphviz's language.
use marks::{Mark, MarkRow, WrapKind};
use run_list::ListRun;
use source::{ExportsKind, ImportKind, ImportRecord, Module, ModuleSource};
use std::alloc::{AllocError, Global};
use std::fmt::Write;

const HEAD: &str = "digraph modules {
  rankdir=LR;
  node [style=filled, fontname=\"sans-serif\"];
  edge [fontname=\"sans-serif\", fontsize=10];
";

// A colour for each kind.
fn colour(described: Module, kind: ExportsKind) -> &'static str {
    match (described, kind) {
        (Module::External, _) => "gray85",
        (Module::Normal(_), ExportsKind::None) => "white",
        (Module::Normal(_), ExportsKind::Esm) => "lightskyblue",
        (Module::Normal(_), ExportsKind::CommonJs) => "orange",
    }
}

// A shape for each manner of wrapping: an unwrapped module is round.
fn shape(wrap: WrapKind) -> &'static str {
    match wrap {
        WrapKind::None => "ellipse",
        WrapKind::Cjs => "box3d",
        WrapKind::Esm => "box",
    }
}

// A module: what else is settled of it stands under its number, and one that waits has a second line round it.
fn write_node(
    text: &mut String,
    m: usize,
    described: Module,
    row: MarkRow,
) -> Result<(), AllocError> {
    let shape = shape(Mark::read(row).wrap());
    let colour = colour(described, row.kind);
    let is_entry = matches!(described, Module::Normal(normal) if normal.entry);
    let entry = if is_entry { "\\nentry" } else { "" };
    let required = if row.required { "\\nrequired" } else { "" };
    let dynamic = if row.dynamic { "\\ndynamic" } else { "" };
    let awaits = if row.awaiting { "\\nawaits" } else { "" };
    let lines = if row.awaiting { 2 } else { 1 };
    writeln!(
        text,
        "  m{m} [label=\"{m}{entry}{required}{dynamic}{awaits}\", shape={shape}, fillcolor={colour}, peripheries={lines}];"
    )
}

// How an arrow is drawn: `import()` is dashed, a star is bold, what leads to no code is dotted.
fn style(record: ImportRecord) -> &'static str {
    if record.star {
        return "style=bold, label=\"*\"";
    }
    match record.kind {
        ImportKind::Import => "style=solid",
        ImportKind::Require => "style=solid, label=\"require\"",
        ImportKind::DynamicImport => "style=dashed, label=\"import()\"",
        ImportKind::AtImport => "style=dotted, label=\"@import\"",
        ImportKind::UrlImport => "style=dotted, label=\"url()\"",
        ImportKind::NewUrl => "style=dotted, label=\"new URL\"",
        ImportKind::HotAccept => "style=dotted, label=\"hot\"",
    }
}

fn write_arrows<S: ModuleSource>(
    text: &mut String,
    source: &S,
    m: usize,
) -> Result<(), AllocError> {
    // A source is asked by numbers, and has no iterator.
    for k in 0..source.record_count(m) {
        let record = source.record(m, k);
        if let Some(t) = record.target {
            let style = style(record);
            writeln!(text, "  m{m} -> m{t} [{style}];")?;
        }
    }
    Ok(())
}

/// A node for each module and an arrow for each resolved record: `dot -Tsvg` draws it.
pub fn dot_text<S: ModuleSource>(
    heap: Global,
    source: &S,
    done: &ListRun,
) -> Result<String, AllocError> {
    let mut text = String::from_str(heap, HEAD)?;
    for (m, row) in done.marks.as_slice().iter().enumerate() {
        write_node(&mut text, m, source.module(m), *row)?;
    }
    // Arrows come after all nodes, by the number of their module.
    for m in 0..done.marks.len() {
        write_arrows(&mut text, source, m)?;
    }
    writeln!(text, "}}")?;
    Ok(text)
}
