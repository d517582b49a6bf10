// The check of an image: its first fault, or accepted.
ghost use Rattle.std.specs.Prelude.{◌≡◌, ◌+◌, ◌*◌, ◌^◌, ◌<◌, ◌≤◌, true, false, length, Ok, MatchOption};
ghost use Rattle.card.specs.Cards.{card_fault, fields_of, head_wrong, head_verdict, module_count, module_end, modules_end, module_blocks, record_count, record_verdict, records_verdict, record_blocks, blocks_verdict, card_size, card_verdict};
ghost use Rattle.card.specs.Writable.{Exact};

use crate::bytes::{bytes_at, u16_at, u32_at};
use crate::fields::{module_wrong, record_wrong};
use faults::{Fault, Layer, Refusal};
use source::{MODULE_LIMIT, RECORD_LIMIT};

/// A fault that the card's layer finds at a byte or at a module.
pub fn card_fault(refusal: Refusal, at: usize) -> Fault
    ensures { result ≡ card_fault refusal at }
{
    refusal.found_by(Layer::Card, at, 0)
}

/// What follows the length and kind of a block of `N` bytes more, where these are as they should be.
fn fields_of<const N: usize>(block: &[u8], kind: u16) -> Option<&[u8; N]>
    requires { 4 + N ≤ length block.now }
    ensures { MatchOption result (head_wrong (N + 4) kind block.now ≡ true) (λ f. (head_wrong (N + 4) kind block.now ≡ false) × (length block.now ≡ N + 4 → f.now ≡ fields_of block.now)) }
{
    if u16_at(block, 0) as usize == N + 4 && u16_at(block, 2) == kind {
        Some(bytes_at(block, 4))
    } else {
        None
    }
}

/// The head block, and that the image is as long as it says.
fn check_head(image: &[u8]) -> Result<(), Fault>
    ensures { result ≡ head_verdict image.now }
{
    if image.len() < 16 {
        return Err(card_fault(Refusal::WrongLength, image.len()));
    }
    fields_of::<12>(image, 1).ok_or(card_fault(Refusal::WrongBlockHead, 0))?;
    let modules = u32_at(image, 8) as usize;
    if modules > MODULE_LIMIT {
        return Err(card_fault(Refusal::TooManyModules, 0));
    }
    let records = u32_at(image, 12) as usize;
    if records > RECORD_LIMIT {
        return Err(card_fault(Refusal::TooManyRecords, 0));
    }
    if image.len() != 16 + 24 * modules + 18 * records {
        return Err(card_fault(Refusal::WrongLength, image.len()));
    }
    Ok(())
}

/// The blocks of the modules and those of the records.
fn blocks_of(image: &[u8]) -> (&[[u8; 24]], &[[u8; 18]])
    requires { length image.now ≡ card_size image.now }
    ensures modules { result.0.now ≡ module_blocks image.now }
    ensures modules_len { length result.0.now ≡ module_count image.now }
    ensures records { result.1.now ≡ record_blocks image.now }
    ensures records_len { length result.1.now ≡ record_count image.now }
{
    let (modules, records) = image[16..].split_at(24 * u32_at(image, 8) as usize);
    (modules.as_chunks().0, records.as_chunks().0)
}

/// Where the records of the module `m` end, which must begin at `next`.
fn check_module(block: &[u8; 24], m: usize, next: usize) -> Result<usize, Fault>
    requires { m < 4096 }
    ensures { result ≡ module_end m next block.now }
{
    let at = 16 + 24 * m;
    let fields = fields_of(block, 2).ok_or(card_fault(Refusal::WrongBlockHead, at))?;
    if module_wrong(fields) {
        return Err(card_fault(Refusal::FieldOutOfValues, at));
    }
    if u32_at(fields, 12) as usize != next {
        return Err(card_fault(Refusal::WrongFirstRecord, m));
    }
    Ok(next + u32_at(fields, 16) as usize)
}

/// Where the records of the last module end.
fn check_modules(blocks: &[[u8; 24]]) -> Result<usize, Fault>
    requires { length blocks.now ≤ 4096 }
    ensures { result ≡ modules_end 0 0 blocks.now }
{
    let mut next = 0;
    for (m, block) in blocks.iter().enumerate() {
        next = check_module(block, m, next)?;
    }
    Ok(next)
}

fn check_record(block: &[u8; 18], at: usize) -> Result<(), Fault>
    ensures { result ≡ record_verdict at block.now }
{
    let fields = fields_of(block, 3).ok_or(card_fault(Refusal::WrongBlockHead, at))?;
    if record_wrong(fields) {
        return Err(card_fault(Refusal::FieldOutOfValues, at));
    }
    Ok(())
}

/// The blocks of the records, the first at `start`.
fn check_records(blocks: &[[u8; 18]], start: usize) -> Result<(), Fault>
    requires { start + 18 * length blocks.now < 2 ^ 64 }
    ensures { result ≡ records_verdict start 0 blocks.now }
{
    for (r, block) in blocks.iter().enumerate() {
        check_record(block, start + 18 * r)?;
    }
    Ok(())
}

/// The blocks of the modules, those of the records, and last the sum of the records.
fn check_blocks(image: &[u8]) -> Result<(), Fault>
    requires { head_verdict image.now ≡ Ok tt }
    ensures { result ≡ blocks_verdict image.now }
{
    let (modules, records) = blocks_of(image);
    let end = check_modules(modules)?;
    check_records(records, 16 + 24 * modules.len())?;
    if end != records.len() {
        return Err(card_fault(Refusal::WrongFirstRecord, modules.len()));
    }
    Ok(())
}

/// Accepted, or the first fault. Accepted are exactly the images that a source within the limits is written as,
/// and such an image means that source.
pub fn check_card(image: &[u8]) -> Result<(), Fault>
    ensures verdict { result ≡ card_verdict image.now }
    ensures exact { Exact image.now result }
{
    check_head(image)?;
    check_blocks(image)
}
