// A source's card as an image of its own.
#![tactic(auto)]

ghost use Rattle.std.specs.Prelude.{◌≡◌, IfOk};
ghost use Rattle.card.specs.Cards.{card_opened};
ghost use Rattle.card_image.specs.declared.ImageError.TheVariants.{Refused, NoMemory};

use card_writer::write_card;
use faults::Fault;
use source::{ModuleSource, count_records};
use std::alloc::{AllocError, Global};

/// Why a source has no card.
#[derive(Drop)]
pub enum ImageError {
    Refused(Fault),
    NoMemory(AllocError),
}

impl From<Fault> for ImageError {
    ghost from_gives = { λ fault e. e ≡ Refused fault };

    fn from(fault: Fault) -> ImageError {
        ImageError::Refused(fault)
    }
}

impl From<AllocError> for ImageError {
    ghost from_gives = { λ error e. e ≡ NoMemory error };

    fn from(error: AllocError) -> ImageError {
        ImageError::NoMemory(error)
    }
}

/// An image that opens as the source. A source past the limits is refused.
pub fn card_image<S: ModuleSource>(heap: Global, source: &S) -> Result<Vec<u8>, ImageError>
    ensures { IfOk result (λ image. card_opened image.items ≡ S.meaning source.now) }
{
    // Where there are too many records, no room is needed for them to be refused.
    let records = count_records(source).unwrap_or(0);
    let size = 16usize
        .saturating_add(source.module_count().saturating_mul(24))
        .saturating_add(records.saturating_mul(18));
    let mut image = vec![in heap; 0u8; size]?;
    let written = write_card(source, image.as_mut_slice())?;
    image.truncate(written);
    Ok(image)
}
