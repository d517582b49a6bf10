// Rows of 4,096 modules, by their shape. Module 0 is the runtime, and module 1 an entry.
use row_source::ModuleRow;
use source::{ExportsKind, ImportKind, ImportRecord, Module, NormalModule, Span};
use std::alloc::{AllocError, Global};
use std::fmt;

const MODULES: u32 = 4096;

#[derive(Clone, Copy)]
pub enum Shape {
    /// Eight records a module, of every kind, to anywhere.
    Random,
    /// Each module imports the next, and the last awaits; the first is required.
    Chain,
    /// Each module imports the one before.
    ChainBack,
    /// Each module imports the next, the last one module 1, and one in the middle awaits; every module requires it.
    Circle,
    /// Each module exports all of the next, and the last is CommonJS.
    Stars,
}

pub const SHAPES: [Shape; 5] = [
    Shape::Random,
    Shape::Chain,
    Shape::ChainBack,
    Shape::Circle,
    Shape::Stars,
];

impl fmt::Display for Shape {
    fn fmt<W: fmt::Write>(&self, f: &mut fmt::Formatter<W>) -> fmt::Result {
        f.write_str(match self {
            Shape::Random => "random",
            Shape::Chain => "chain",
            Shape::ChainBack => "chain-back",
            Shape::Circle => "circle",
            Shape::Stars => "stars",
        })
    }
}

#[derive(Drop)]
pub struct Rows {
    pub modules: Vec<ModuleRow>,
    pub records: Vec<ImportRecord>,
}

// The next of a fixed row of numbers that look random. `spread_bench` has its own: programs share no library of such things.
fn next_number(state: u64) -> u64 {
    state
        .wrapping_mul(6364136223846793005)
        .wrapping_add(1442695040888963407)
}

fn record(kind: ImportKind, target: u32, star: bool) -> ImportRecord {
    ImportRecord {
        kind,
        target: Some(target),
        star,
        span: Span {
            start: target,
            end: target.saturating_add(9),
        },
    }
}

fn normal(scanned: ExportsKind, awaits: bool, entry: bool) -> Module {
    Module::Normal(NormalModule {
        scanned,
        lazy_export: false,
        top_level_await: awaits,
        module_or_exports: false,
        node_esm: false,
        entry,
        await_span: Span { start: 3, end: 8 },
    })
}

// What stands at module m.
fn described(shape: Shape, m: u32, state: u64) -> Module {
    let entry = m == 1;
    match shape {
        Shape::Random => match (m, (state >> 40) % 16) {
            (0 | 1, _) => normal(ExportsKind::Esm, false, entry),
            (_, 0) => Module::External,
            (_, 1) => normal(ExportsKind::CommonJs, false, false),
            (_, 2 | 3 | 4) => normal(ExportsKind::None, false, false),
            (_, 5) => normal(ExportsKind::Esm, true, m % 61 == 1),
            _ => normal(ExportsKind::Esm, false, false),
        },
        Shape::Chain => normal(ExportsKind::Esm, m == MODULES - 1, entry),
        Shape::ChainBack => normal(ExportsKind::Esm, m == 2, entry),
        Shape::Circle => normal(ExportsKind::Esm, m == MODULES / 2, entry),
        Shape::Stars => {
            let last = m == MODULES - 1;
            let kind = if last {
                ExportsKind::CommonJs
            } else {
                ExportsKind::Esm
            };
            normal(kind, false, entry)
        }
    }
}

fn random_record(state: u64) -> ImportRecord {
    let target = ((state >> 20) % (MODULES as u64 - 1) + 1) as u32;
    match (state >> 50) % 8 {
        0 => record(ImportKind::Require, target, false),
        1 => record(ImportKind::DynamicImport, target, false),
        2 => record(ImportKind::HotAccept, target, false),
        3 => record(ImportKind::NewUrl, target, false),
        _ => record(ImportKind::Import, target, false),
    }
}

fn next_of(m: u32) -> u32 {
    if m < MODULES - 1 { m + 1 } else { 1 }
}

fn add_random(records: &mut Vec<ImportRecord>, state: u64) -> Result<(), AllocError> {
    let mut state = state;
    // Eight are made, and nothing is indexed.
    for _ in 0..8 {
        state = next_number(state);
        records.push(random_record(state))?;
    }
    Ok(())
}

// The records of module m.
fn add_records(
    records: &mut Vec<ImportRecord>,
    shape: Shape,
    m: u32,
    state: u64,
) -> Result<(), AllocError> {
    let last = m == MODULES - 1;
    match shape {
        Shape::Random => add_random(records, state ^ 0x9e37_79b9_7f4a_7c15)?,
        Shape::Chain if !last => records.push(record(ImportKind::Import, next_of(m), false))?,
        Shape::ChainBack if m > 2 => records.push(record(
            ImportKind::Import,
            m.saturating_sub(1),
            false,
        ))?,
        Shape::Stars if !last => records.push(record(ImportKind::Import, next_of(m), true))?,
        Shape::Circle => {
            records.push(record(ImportKind::Import, next_of(m), false))?;
            records.push(record(ImportKind::Require, MODULES / 2, false))?;
        }
        _ => {}
    }
    if m == 1 {
        records.push(record(ImportKind::Require, 2, false))?;
    }
    Ok(())
}

// An external module has no records, and neither has the runtime.
fn has_records(m: u32, described: Module) -> bool {
    m > 0 && described != Module::External
}

// No list here has 2^32 rows.
fn number(n: usize) -> u32 {
    u32::try_from(n).unwrap_or(u32::MAX)
}

/// All rows of a shape.
pub fn rows_of(heap: Global, shape: Shape) -> Result<Rows, AllocError> {
    let mut rows = Rows {
        modules: Vec::new(heap),
        records: Vec::new(heap),
    };
    let mut state: u64 = 7;
    // Modules are made by number, and nothing is indexed.
    for m in 0..MODULES {
        state = next_number(state);
        let described = described(shape, m, state);
        let first = number(rows.records.len());
        if has_records(m, described) {
            add_records(&mut rows.records, shape, m, state)?;
        }
        let count = number(rows.records.len()).saturating_sub(first);
        rows.modules.push(ModuleRow {
            described,
            first,
            count,
        })?;
    }
    Ok(rows)
}
