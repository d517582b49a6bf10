// The functions that are exported. A slice is a pointer and a length in C; an allocator is nothing there.
ghost use Rattle.std.specs.Prelude.{◌≡◌, ◌≢◌, length, Err, IsNone, IsSome, OnErr};
ghost use Rattle.faults.specs.declared.Fault.{Fault};
ghost use Rattle.card.specs.Cards.{card_verdict};
ghost use Rattle.card_writer.specs.Written.{rewrite_answer, rewritten_by};
ghost use Rattle.tuchovai_c.specs.declared.calls.CallError.TheVariants.{Refused, NoMemory, UnknownOptions};
ghost use Rattle.tuchovai_c.specs.Calls.{call_error, fault_numbers, status_of, told_fault, unless_refused};
ghost use Rattle.tuchovai_c.specs.Tables.{table_room};
ghost use Rattle.tuchovai_c.specs.Numbers.{options_of, status_number};

use crate::numbers::{Status, number_of_layer};
use crate::options::options_of;
use crate::table::table_of;
use card::{CardSource, check_card};
use card_writer::rewrite_card;
use classify::classify;
use faults::Fault;
use run_list::ListError;
use source::{ModuleSource, count_records};
use std::alloc::{AllocError, Global};

/// A fault as numbers; all are 0 where there is none.
// C reads the rule and the layer as numbers.
#[repr(C)]
#[derive(Clone, Copy, Default)]
pub struct TuchovaiFault {
    pub number: u32,
    pub layer: u32,
    pub at: u64,
    pub record: u64,
}

impl From<Fault> for TuchovaiFault {
    ghost from_gives = { λ fault numbers. numbers ≡ fault_numbers fault };

    fn from(fault: Fault) -> TuchovaiFault {
        TuchovaiFault {
            number: u32::from(u8::from(fault.refusal)),
            layer: number_of_layer(fault.layer),
            at: fault.place.at as u64,
            record: fault.place.record as u64,
        }
    }
}

/// Why a call is not done.
#[derive(Clone, Copy)]
enum CallError {
    Refused(Fault),
    NoMemory,
    TableTooShort,
    UnknownOptions,
}

impl From<Fault> for CallError {
    ghost from_gives = { λ fault error. error ≡ Refused fault };

    fn from(fault: Fault) -> CallError {
        CallError::Refused(fault)
    }
}

impl From<AllocError> for CallError {
    ghost from_gives = { λ _ error. error ≡ NoMemory };

    fn from(_e: AllocError) -> CallError {
        CallError::NoMemory
    }
}

impl From<ListError> for CallError {
    ghost from_gives = { λ e error. error ≡ call_error e };

    fn from(error: ListError) -> CallError {
        match error {
            ListError::Memory => CallError::NoMemory,
            ListError::Refused(fault) => CallError::Refused(fault),
        }
    }
}

/// The status of what a call came to, as its number. The fault says why it was refused.
fn told(came_to: Result<(), CallError>, fault: &mut TuchovaiFault) -> u32
    ensures status { result ≡ status_number (status_of came_to) }
    ensures fault { fault.new ≡ told_fault came_to }
{
    *fault = match came_to {
        Err(CallError::Refused(found)) => TuchovaiFault::from(found),
        _ => TuchovaiFault::default(),
    };
    let status = match came_to {
        Ok(()) => Status::Done,
        Err(CallError::Refused(_)) => Status::Refused,
        Err(CallError::NoMemory) => Status::NoMemory,
        Err(CallError::TableTooShort) => Status::TableTooShort,
        Err(CallError::UnknownOptions) => Status::UnknownOptions,
    };
    u32::from(status)
}

fn table_of_card(heap: Global, image: &[u8], options: u32) -> Result<Vec<u8>, CallError>
    ensures unknown { IsNone (options_of options) → result ≡ Err UnknownOptions }
    ensures refused { (f : Fault) → IsSome (options_of options) → card_verdict image.now ≡ Err f → result ≡ Err (Refused f) }
{
    let options = options_of(options).ok_or(CallError::UnknownOptions)?;
    check_card(image)?;
    let done = classify(heap, &CardSource::open(image), options)?;
    Ok(table_of(
        heap,
        done.marks.as_slice(),
        done.awaits.as_slice(),
        done.wrappers.as_slice(),
    )?)
}

/// Writes the table of a card if there is room for it.
fn write_table(heap: Global, image: &[u8], options: u32, table: &mut [u8]) -> Result<(), CallError>
    ensures unknown { IsNone (options_of options) → result ≡ Err UnknownOptions }
    ensures refused { (f : Fault) → IsSome (options_of options) → card_verdict image.now ≡ Err f → result ≡ Err (Refused f) }
    ensures kept { OnErr result (table.new ≡ table.old) }
{
    let bytes = table_of_card(heap, image, options)?;
    if table.len() < bytes.len() {
        return Err(CallError::TableTooShort);
    }
    table[..bytes.len()].copy_from_slice(bytes.as_slice());
    Ok(())
}

/// Checks a card: the first fault, or none.
#[unsafe(no_mangle)]
pub extern "C" fn tuchovai_check_card(image: &[u8], fault: &mut TuchovaiFault) -> u32
    ensures status { result ≡ status_number (status_of (unless_refused (card_verdict image.now))) }
    ensures fault { fault.new ≡ told_fault (unless_refused (card_verdict image.now)) }
{
    told(check_card(image).map_err(CallError::Refused), fault)
}

/// How many bytes are enough for the table of a card; 0 for a card that is refused.
#[unsafe(no_mangle)]
pub extern "C" fn tuchovai_table_size(image: &[u8]) -> usize
    ensures { result ≡ table_room image.now }
{
    if check_card(image).is_err() {
        return 0;
    }
    let source = CardSource::open(image);
    let records = count_records(&source).unwrap();
    16 + 24 * source.module_count() + 28 * records
}

/// Opens a card and writes it again.
#[unsafe(no_mangle)]
pub extern "C" fn tuchovai_rewrite_card(
    image: &[u8],
    out: &mut [u8],
    fault: &mut TuchovaiFault,
) -> u32
    ensures status { result ≡ status_number (status_of (unless_refused (rewrite_answer image.now (length out.old)))) }
    ensures fault { fault.new ≡ told_fault (unless_refused (rewrite_answer image.now (length out.old))) }
    ensures image { out.new ≡ rewritten_by (rewrite_answer image.now (length out.old)) image.now out.old }
{
    let written = rewrite_card(image, out);
    told(written.map(|_| ()).map_err(CallError::Refused), fault)
}

/// Classifies the modules of a card and writes the table of marks and rows.
#[unsafe(no_mangle)]
pub extern "C" fn tuchovai_classify(
    heap: Global,
    image: &[u8],
    options: u32,
    table: &mut [u8],
    fault: &mut TuchovaiFault,
) -> u32
    ensures unknown { IsNone (options_of options) → (result ≡ 4) × (fault.new ≡ told_fault (Err UnknownOptions)) }
    ensures refused { (f : Fault) → IsSome (options_of options) → card_verdict image.now ≡ Err f → (result ≡ 1) × (fault.new ≡ fault_numbers f) }
    ensures kept { result ≢ 0 → table.new ≡ table.old }
{
    told(write_table(heap, image, options, table), fault)
}
