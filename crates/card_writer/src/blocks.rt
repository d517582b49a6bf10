// The bytes of a block.
ghost use Rattle.std.specs.Prelude.{◌≡◌, ◌++◌};
ghost use Rattle.source.specs.declared.Module.TheVariants.{Normal};
ghost use Rattle.card.specs.Bytes.{le4};
ghost use Rattle.card.specs.Fields.{class_number, scanned_number, flags_number, module_fields, await_start, await_end};
ghost use Rattle.card.specs.Cards.{block, encode_record};
ghost use Rattle.card.specs.Writable.{Fits32};

use source::{ImportRecord, Module, NormalModule, Span};

fn flags_of(module: NormalModule) -> u16
    ensures { result ≡ flags_number (Normal «module») }
{
    u16::from(module.lazy_export)
        + 2 * u16::from(module.top_level_await)
        + 4 * u16::from(module.module_or_exports)
        + 8 * u16::from(module.node_esm)
        + 16 * u16::from(module.entry)
}

pub fn head_block(runtime: u32, modules: u32, records: u32) -> [u8; 16]
    ensures { result ≡ block 16 1 (le4 runtime ++ (le4 modules ++ le4 records)) }
{
    let [t0, t1, t2, t3] = runtime.to_le_bytes();
    let [m0, m1, m2, m3] = modules.to_le_bytes();
    let [r0, r1, r2, r3] = records.to_le_bytes();
    [16, 0, 1, 0, t0, t1, t2, t3, m0, m1, m2, m3, r0, r1, r2, r3]
}

pub fn record_block(record: ImportRecord) -> [u8; 18]
    ensures bytes { result ≡ encode_record «record» }
    ensures start { Fits32 «record».span.start }
    ensures end { Fits32 «record».span.end }
{
    let kind = u8::from(record.kind);
    let star = u8::from(record.star);
    // 2^32 - 1 stands for none
    let [t0, t1, t2, t3] = record.target.unwrap_or(u32::MAX).to_le_bytes();
    let [s0, s1, s2, s3] = record.span.start.to_le_bytes();
    let [e0, e1, e2, e3] = record.span.end.to_le_bytes();
    [
        18, 0, 3, 0, kind, star, t0, t1, t2, t3, s0, s1, s2, s3, e0, e1, e2, e3,
    ]
}

/// What a module's block says of the module itself.
struct ModuleFields {
    class: u8,
    scanned: u8,
    flags: u16,
    await_span: Span,
}

fn fields_of(module: Module) -> ModuleFields
    ensures class { result.«class» ≡ class_number «module» }
    ensures scanned { result.scanned ≡ scanned_number «module» }
    ensures flags { result.flags ≡ flags_number «module» }
    ensures start { result.await_span.start ≡ await_start «module» }
    ensures end { result.await_span.end ≡ await_end «module» }
{
    match module {
        Module::External => ModuleFields {
            class: 0,
            scanned: 0,
            flags: 0,
            await_span: Span { start: 0, end: 0 },
        },
        Module::Normal(normal) => ModuleFields {
            class: 1,
            scanned: u8::from(normal.scanned),
            flags: flags_of(normal),
            await_span: normal.await_span,
        },
    }
}

pub fn module_block(module: Module, first: u32, count: u32) -> [u8; 24]
    ensures bytes { result ≡ block 24 2 (module_fields «module» first count) }
    ensures start { Fits32 (await_start «module») }
    ensures end { Fits32 (await_end «module») }
{
    let ModuleFields {
        class,
        scanned,
        flags,
        await_span,
    } = fields_of(module);
    let [f0, f1] = flags.to_le_bytes();
    let [s0, s1, s2, s3] = await_span.start.to_le_bytes();
    let [e0, e1, e2, e3] = await_span.end.to_le_bytes();
    let [r0, r1, r2, r3] = first.to_le_bytes();
    let [c0, c1, c2, c3] = count.to_le_bytes();
    [
        24, 0, 2, 0, class, scanned, f0, f1, s0, s1, s2, s3, e0, e1, e2, e3, r0, r1, r2, r3, c0,
        c1, c2, c3,
    ]
}
