// A source over a lent image, which it reads in place.
ghost use Rattle.std.specs.Prelude.{◌≡◌, true, length, MatchOption};
ghost use Rattle.source.specs.Meaning.{scanned_at, past_modules, record_at, past_records};
ghost use Rattle.card.specs.Cards.{card_size, is_card, card_meaning, card_opened};
ghost use Rattle.card.specs.Found.{FoundModule, FoundRecord};
ghost use Rattle.card.specs.Passed.{card_proper};

use crate::bytes::{bytes_at, u32_at};
use crate::check::check_card;
use crate::fields::{import_of, module_of, record_of, target_of};
use source::{ImportKind, ImportRecord, Module, ModuleSource, no_record};

/// A head without modules, with runtime 0.
static NO_MODULES: [u8; 16] = [16, 0, 1, 0, 0, 0, 0, 0, 0, 0, 0, 0, 0, 0, 0, 0];

/// The modules of an accepted image.
#[derive(Clone, Copy)]
pub struct CardSource<'a> {
    image: &'a [u8],
    ghost accepted: { is_card image.now ≡ true },
    ghost whole: { length image.now ≡ card_size image.now },
}

impl<'a> CardSource<'a> {
    /// An image that `check_card` refuses opens as a source of no modules with runtime 0.
    pub fn open(image: &'a [u8]) -> CardSource<'a>
        ensures { card_meaning result.image.now ≡ card_opened image.now }
    {
        if check_card(image).is_ok() {
            return CardSource { image };
        }
        CardSource { image: &NO_MODULES }
    }

    /// The fields of the module's block, if there is one.
    fn module_fields(&self, m: usize) -> Option<&[u8; 20]>
        ensures { MatchOption result (scanned_at (card_meaning self.now.image.now) m ≡ past_modules) (λ f. FoundModule self.now.image.now m f.now) }
    {
        if m >= u32_at(self.image, 8) as usize {
            return None;
        }
        Some(bytes_at(self.image, 16 + 24 * m + 4))
    }

    /// The fields of the record's block, if there is one.
    fn record_fields(&self, m: usize, k: usize) -> Option<&[u8; 14]>
        ensures { MatchOption result (record_at (card_meaning self.now.image.now) m k ≡ past_records) (λ f. FoundRecord self.now.image.now m k f.now) }
    {
        let module = self.module_fields(m)?;
        if k >= u32_at(module, 16) as usize {
            return None;
        }
        let r = u32_at(module, 12) as usize + k;
        let start = 16 + 24 * u32_at(self.image, 8) as usize;
        Some(bytes_at(self.image, start + 18 * r + 4))
    }
}

impl<'a> ModuleSource for CardSource<'a> {
    ghost meaning = { λ s. card_meaning s.image.now };

    ghost proper = { λ s. card_proper s.image.now s.accepted };

    #[tactic(auto, using(crate::proofs::Found::card_modules))]
    fn module_count(&self) -> usize {
        u32_at(self.image, 8) as usize
    }

    fn runtime(&self) -> u32 {
        u32_at(self.image, 4)
    }

    fn module(&self, m: usize) -> Module {
        self.module_fields(m).map_or(Module::External, module_of)
    }

    fn record_count(&self, m: usize) -> usize {
        self.module_fields(m)
            .map_or(0, |fields| u32_at(fields, 16) as usize)
    }

    fn record(&self, m: usize, k: usize) -> ImportRecord {
        self.record_fields(m, k).map_or_else(no_record, record_of)
    }

    /// Reads the kind and the target alone.
    fn look(&self, m: usize, k: usize) -> (ImportKind, Option<u32>) {
        self.record_fields(m, k)
            .map_or((ImportKind::HotAccept, None), |fields| {
                (import_of(fields[0]), target_of(u32_at(fields, 2)))
            })
    }
}
