// What the words of a link command ask for.
ghost use Rattle.std.specs.Prelude.{◌≡◌};
ghost use Rattle.link_words.specs.declared.asked.WordsError.TheVariants.{NoMemory};
ghost use Rattle.link_words.specs.Words.{option_word, with_option};

use crate::words::{read_format, read_pass};
use marks::{LinkOptions, OutputFormat};
use settled::Pass;
use std::alloc::{AllocError, AllocFailed, Global};
use table_words::{Worded, read_number};

/// The options of a link where no word turns one on.
pub const PLAIN_OPTIONS: LinkOptions = LinkOptions {
    format: OutputFormat::Esm,
    splitting_off: false,
    strict_order: false,
    manual_groups: false,
    profiler_names: false,
};

/// An option that is off unless it is named.
#[derive(Clone, Copy, PartialEq, Eq, Debug)]
pub enum LinkSwitch {
    NoSplitting,
    StrictOrder,
    ManualGroups,
    ProfilerNames,
}

/// The options of a link, the modules that are made external, and the passes in the order they are asked for.
#[derive(Drop)]
pub struct LinkWords {
    pub options: LinkOptions,
    pub externals: Vec<u32>,
    pub passes: Vec<Pass>,
}

/// The first word that does not read, by its place, or want of memory.
#[derive(Clone, Copy, PartialEq, Eq, Debug)]
pub enum WordsError {
    BadWord(usize),
    NoMemory,
}

impl From<AllocError> for WordsError {
    ghost from_gives = { λ _ e. e ≡ NoMemory };

    fn from(_error: AllocError) -> WordsError {
        WordsError::NoMemory
    }
}

impl<T: Drop> From<AllocFailed<T>> for WordsError {
    ghost from_gives = { λ _ e. e ≡ NoMemory };

    fn from(_error: AllocFailed<T>) -> WordsError {
        WordsError::NoMemory
    }
}

impl Worded for LinkSwitch {
    ghost word = { option_word };

    fn word(self) -> &'static str {
        match self {
            LinkSwitch::NoSplitting => "--no-splitting",
            LinkSwitch::StrictOrder => "--strict-order",
            LinkSwitch::ManualGroups => "--manual-groups",
            LinkSwitch::ProfilerNames => "--profiler-names",
        }
    }

    fn from_word(text: &str) -> Option<LinkSwitch> {
        match text {
            "--no-splitting" => Some(LinkSwitch::NoSplitting),
            "--strict-order" => Some(LinkSwitch::StrictOrder),
            "--manual-groups" => Some(LinkSwitch::ManualGroups),
            "--profiler-names" => Some(LinkSwitch::ProfilerNames),
            _ => None,
        }
    }
}

/// The options with this one on.
pub fn with_option(options: LinkOptions, switch: LinkSwitch) -> LinkOptions
    ensures { result ≡ with_option options switch }
{
    let mut with = options;
    match switch {
        LinkSwitch::NoSplitting => with.splitting_off = true,
        LinkSwitch::StrictOrder => with.strict_order = true,
        LinkSwitch::ManualGroups => with.manual_groups = true,
        LinkSwitch::ProfilerNames => with.profiler_names = true,
    }
    with
}

// `kinds,star,wrap`.
fn read_passes(heap: Global, i: usize, list: &str) -> Result<Vec<Pass>, WordsError> {
    let mut passes = Vec::new(heap);
    if !list.is_empty() {
        for word in list.split(',') {
            passes.push(read_pass(word).ok_or(WordsError::BadWord(i))?)?;
        }
    }
    Ok(passes)
}

impl LinkWords {
    // The word at place i.
    fn read_word(&mut self, heap: Global, i: usize, word: &str) -> Result<(), WordsError> {
        let bad = WordsError::BadWord(i);
        if let Some(format) = word.strip_prefix("--format=") {
            self.options.format = read_format(format).ok_or(bad)?;
        } else if let Some(number) = word.strip_prefix("--external=") {
            self.externals.push(read_number(number).ok_or(bad)?)?;
        } else if let Some(list) = word.strip_prefix("--calls=") {
            self.passes = read_passes(heap, i, list)?;
        } else {
            let switch = LinkSwitch::from_word(word).ok_or(bad)?;
            self.options = with_option(self.options, switch);
        }
        Ok(())
    }
}

fn every_pass(heap: Global) -> Result<Vec<Pass>, AllocError> {
    [
        Pass::Kinds,
        Pass::Star,
        Pass::Wrap,
        Pass::Await,
        Pass::Entries,
    ]
    .to_vec(heap)
}

/// Reads `--format=F`, `--no-splitting`, `--strict-order`, `--manual-groups`, `--profiler-names`, `--external=N` and
/// `--calls=P,P..` in any order. Of two formats or two lists of calls the last one stands.
pub fn read_link_words(heap: Global, words: &[String]) -> Result<LinkWords, WordsError> {
    let mut asked = LinkWords {
        options: PLAIN_OPTIONS,
        externals: Vec::new(heap),
        passes: every_pass(heap)?,
    };
    for (i, word) in words.iter().enumerate() {
        asked.read_word(heap, i, word.as_str())?;
    }
    Ok(asked)
}
