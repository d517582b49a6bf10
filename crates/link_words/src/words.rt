// The words for formats, wrappers and passes: no impls of `Worded`, since neither that trait nor the types are this crate's.
ghost use Rattle.std.specs.Prelude.{◌≡◌};
ghost use Rattle.table_words.specs.Words.{Named};
ghost use Rattle.link_words.specs.Words.{format_word, wrap_word, pass_word};

use marks::{OutputFormat, WrapKind};
use settled::Pass;

pub fn format_word(format: OutputFormat) -> &'static str
    ensures { result.now ≡ format_word format }
{
    match format {
        OutputFormat::Esm => "esm",
        OutputFormat::Cjs => "cjs",
        OutputFormat::Iife => "iife",
        OutputFormat::Umd => "umd",
    }
}

pub fn read_format(word: &str) -> Option<OutputFormat>
    ensures { Named format_word word.now result }
{
    match word {
        "esm" => Some(OutputFormat::Esm),
        "cjs" => Some(OutputFormat::Cjs),
        "iife" => Some(OutputFormat::Iife),
        "umd" => Some(OutputFormat::Umd),
        _ => None,
    }
}

pub fn wrap_word(wrap: WrapKind) -> &'static str
    ensures { result.now ≡ wrap_word wrap }
{
    match wrap {
        WrapKind::None => "none",
        WrapKind::Cjs => "cjs",
        WrapKind::Esm => "esm",
    }
}

pub fn pass_word(pass: Pass) -> &'static str
    ensures { result.now ≡ pass_word pass }
{
    match pass {
        Pass::Kinds => "kinds",
        Pass::Star => "star",
        Pass::Wrap => "wrap",
        Pass::Await => "await",
        Pass::Entries => "entries",
    }
}

pub fn read_pass(word: &str) -> Option<Pass>
    ensures { Named pass_word word.now result }
{
    match word {
        "kinds" => Some(Pass::Kinds),
        "star" => Some(Pass::Star),
        "wrap" => Some(Pass::Wrap),
        "await" => Some(Pass::Await),
        "entries" => Some(Pass::Entries),
        _ => None,
    }
}
