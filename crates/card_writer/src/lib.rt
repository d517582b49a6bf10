// Any source, written as a card.
#![tactic(auto)]

ghost use Rattle.std.specs.Prelude.{◌≡◌, ◌+◌, ◌*◌, ◌<◌, ◌≤◌, map, length};
ghost use Rattle.std.specs.List.{AllByRecursion, concat};
ghost use Rattle.source.specs.Meaning.{count_of, records_of, records_in, record_total};
ghost use Rattle.card.specs.Cards.{all_records, encode_modules, encode_record};
ghost use Rattle.card_writer.specs.Written.{put_at, write_answer, left_by, AwaitFits, SpanFits, SpansFit, ReadsBack, rewrite_answer, rewritten_by};

use crate::blocks::{head_block, module_block, record_block};
use card::{CardSource, card_fault, check_card};
use faults::{Fault, Refusal};
use source::{MODULE_LIMIT, ModuleSource, count_records};

mod blocks;

fn put(out: &mut [u8], at: usize, bytes: &[u8])
    requires { at + length bytes.now ≤ length out.old }
    ensures { out.new ≡ put_at out.old at bytes.now }
{
    out[at..at + bytes.len()].copy_from_slice(bytes);
}

/// Writes the block of each module, the first at byte 16.
#[tactic(auto, using(crate::proofs::Steps::count_within))]
fn write_modules<S: ModuleSource>(source: &S, out: &mut [u8])
    requires modules { count_of (S.ModuleSource.meaning source.now) ≤ 4096 }
    requires records { record_total (S.ModuleSource.meaning source.now) ≤ 32768 }
    requires room { 16 + 24 * count_of (S.ModuleSource.meaning source.now) ≤ length out.old }
    ensures image { out.new ≡ put_at out.old 16 (concat (encode_modules 0 (S.ModuleSource.meaning source.now).modules)) }
    ensures fits { AllByRecursion AwaitFits (S.ModuleSource.meaning source.now).modules }
{
    // a fold would write from inside its closure, which is no plainer than this sum
    let mut first = 0;
    for m in 0..source.module_count() {
        let count = source.record_count(m);
        let block = module_block(source.module(m), first as u32, count as u32);
        put(out, 16 + 24 * m, &block);
        first += count;
    }
}

/// Writes the blocks of the records of one module, the first at `at`.
fn write_records_of<S: ModuleSource>(source: &S, m: usize, out: &mut [u8], at: usize)
    requires { at + 18 * records_in (S.ModuleSource.meaning source.now) m ≤ length out.old }
    ensures image { out.new ≡ put_at out.old at (concat (map encode_record (records_of (S.ModuleSource.meaning source.now) m))) }
    ensures fits { AllByRecursion SpanFits (records_of (S.ModuleSource.meaning source.now) m) }
{
    // A source is asked by numbers, and has no iterator.
    for k in 0..source.record_count(m) {
        let block = record_block(source.record(m, k));
        put(out, at + 18 * k, &block);
    }
}

/// Writes the block of each record, past those of the modules.
#[tactic(auto, using(crate::proofs::Steps::count_within))]
fn write_records<S: ModuleSource>(source: &S, out: &mut [u8])
    requires modules { count_of (S.ModuleSource.meaning source.now) ≤ 4096 }
    requires records { record_total (S.ModuleSource.meaning source.now) ≤ 32768 }
    requires room { 16 + 24 * count_of (S.ModuleSource.meaning source.now) + 18 * record_total (S.ModuleSource.meaning source.now) ≤ length out.old }
    ensures image { out.new ≡ put_at out.old (16 + 24 * count_of (S.ModuleSource.meaning source.now)) (concat (map encode_record (all_records (S.ModuleSource.meaning source.now).modules))) }
    ensures fits { AllByRecursion SpansFit (S.ModuleSource.meaning source.now).modules }
{
    let start = 16 + 24 * source.module_count();
    // as above, a sum beside the writes
    let mut done = 0;
    for m in 0..source.module_count() {
        write_records_of(source, m, out, start + 18 * done);
        done += source.record_count(m);
    }
}

/// Writes the source's card and answers its byte count. Past the card, and where it refuses, `out` stays as it was.
/// What was written opens as the source that was asked.
pub fn write_card<S: ModuleSource>(source: &S, out: &mut [u8]) -> Result<usize, Fault>
    ensures answer { result ≡ write_answer (S.ModuleSource.meaning source.now) (length out.old) }
    ensures image { out.new ≡ left_by result (S.ModuleSource.meaning source.now) out.old }
    ensures back { ReadsBack result (S.ModuleSource.meaning source.now) out.new }
{
    let modules = source.module_count();
    if modules > MODULE_LIMIT {
        return Err(card_fault(Refusal::TooManyModules, 0));
    }
    let records = count_records(source).ok_or(card_fault(Refusal::TooManyRecords, 0))?;
    let size = 16 + 24 * modules + 18 * records;
    if out.len() < size {
        return Err(card_fault(Refusal::WrongLength, out.len()));
    }
    let head = head_block(source.runtime(), modules as u32, records as u32);
    put(out, 0, &head);
    write_modules(source, out);
    write_records(source, out);
    Ok(size)
}

/// Opens an image and writes it again: an accepted one comes back byte for byte.
pub fn rewrite_card(image: &[u8], out: &mut [u8]) -> Result<usize, Fault>
    ensures answer { result ≡ rewrite_answer image.now (length out.old) }
    ensures image { out.new ≡ rewritten_by result image.now out.old }
{
    check_card(image)?;
    write_card(&CardSource::open(image), out)
}
